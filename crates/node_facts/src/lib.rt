//! Laws of negated conjunctions that are solved branch by branch, under the atoms round each branch.
#![tactic(auto)]

mod laws;

pub use laws::{count_laws, keep_laws, nested_laws, place_laws, turn_laws};

#[cfg(test)]
mod tests;
