//! Congruence closure of flat equations on a graph of terms.
//!
//! After Downey, Sethi and Tarjan, "Variations on the common subexpression problem": classes are bound to one another, and what
//! a binding makes equal waits on an agenda.
#![tactic(auto)]

mod agenda;
mod asserting;
mod beginning;
mod closing;
mod entering;
mod laws;
mod merging;
mod noting;

pub use asserting::assert;
pub use laws::{end_laws, merge_laws, start_laws, turn_laws};

#[cfg(test)]
mod tests;
