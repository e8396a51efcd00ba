//! What formulas that are read from texts mean, with a tree for each name.
#![tactic(auto)]

mod laws;

pub use laws::{readings_are_unique, readings_mean_by_name};

#[cfg(test)]
mod tests;
