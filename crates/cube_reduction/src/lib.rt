//! The elimination on one cube: what it comes to is a reduced cube of the same meaning, or none where it has no solution.
#![tactic(auto)]

mod clearing;
mod digests;
mod fates;
mod grouping;
mod memory;
mod numbers;
mod over;
mod pruning;
mod reducing;
mod settling;

pub use digests::digest_cube;
pub use memory::Memory;
pub use reducing::{reduce, reduce_by};

#[cfg(test)]
mod tests;
