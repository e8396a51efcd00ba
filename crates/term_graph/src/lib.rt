//! One graph of variables and shared terms by index, with a trail of its changes and exact undo.
#![tactic(auto)]

mod bound;
mod change;
mod class;
mod graph;
mod key;
mod parts;
mod past;
mod term;
mod uses;

pub use bound::Bound;
pub use graph::{Graph, Mark};
pub use past::Past;
pub use term::Term;
pub use uses::Uses;

#[cfg(test)]
mod tests;
