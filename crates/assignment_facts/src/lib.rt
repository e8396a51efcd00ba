//! A law of assignments: what the formula that shows one says.
#![tactic(auto)]

mod laws;

pub use laws::assignments_say_their_trees;
