//! The text of a right answer of a statement.
#![tactic(auto)]

mod answering;
mod wording;

pub use answering::answer;

#[cfg(test)]
mod tests;
