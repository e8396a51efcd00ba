//! Laws of the steps that reduce a cube: what they come to means what the raw cube does, is reduced, has no other symbols,
//! and is one outcome.
#![tactic(auto)]

mod laws;

pub use laws::{clear_laws, group_laws, outcome_laws, symbol_laws, unique_laws};

#[cfg(test)]
mod tests;
