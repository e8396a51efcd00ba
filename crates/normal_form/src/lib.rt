//! Lists of reduced cubes that mean the same as nests of negated conjunctions.
#![tactic(auto)]

mod engine;
mod memory;
mod operations;
mod raws;
mod taking;

pub use cube_reduction::reduce;
pub use engine::{Engine, PlainEngine};
pub use operations::{and, exists, not, or};

#[cfg(test)]
mod tests;
