//! Lists of reduced cubes as explicit solved formulas, and the test of their shape.
#![tactic(auto)]

mod atoms;
mod blocks;
mod cubes;
mod forming;
mod same;
mod scopes;
mod searching;
mod shaped;
mod terms;
mod testing;

pub use forming::explicit;
pub use testing::is_explicit;

#[cfg(test)]
mod tests;
