//! Negated conjunctions that are solved branch by branch, in any order.
#![tactic(auto)]

mod arena;
mod joining;
mod laws;
mod machine;
mod planting;
mod round;
mod slot;
mod turning;

pub use arena::Arena;
pub use laws::{standing_laws, turned_laws};
pub use machine::Machine;
pub use slot::Slot;

#[cfg(test)]
mod tests;
