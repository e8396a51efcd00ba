//! Finiteness: whether a walk from a variable comes round, and where walks end, along the equations of a solved conjunction or
//! the terms of a graph.
#![tactic(auto)]

mod leaves;
mod lookup;
mod search;
mod spreading;
mod visits;
mod walks;

pub use spreading::{ListSpread, Outcome, spread, spread_list};

#[cfg(test)]
mod graph_tests;
#[cfg(test)]
mod tests;
