//! Statements are decided: valid, unsatisfiable, or open, with the solved form of the statement and of its negation and
//! with values that satisfy each.
#![tactic(auto)]

mod answer;
mod deciding;
mod naming;
mod opening;
mod sides;
#[cfg(test)]
mod tests;
mod used;

pub use answer::Answer;
pub use deciding::{decide, decide_by};
