//! Laws of lists of cubes: what conjunction, disjunction, negation, quantifiers and negated conjunctions come to means what
//! their names say, is reduced and distinct, has no other symbols, and is one list.
#![tactic(auto)]

mod laws;

pub use laws::{list_laws, symbol_laws, unique_laws};

#[cfg(test)]
mod tests;
