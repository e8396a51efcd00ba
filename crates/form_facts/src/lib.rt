//! Laws of what formulas mean.
#![tactic(auto)]

mod laws;

pub use laws::{meanings_respect_sameness, winning_is_a_formula};

#[cfg(test)]
mod tests;
