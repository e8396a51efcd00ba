//! The words of the command line: which input they name.
#![tactic(auto)]

mod input;
mod numbers;
mod reading;
#[cfg(test)]
mod tests;

pub use input::{Input, NoInput};
pub use reading::read_words;
