//! A large valid input, made from a number.
#![tactic(auto)]

mod file;
mod formulas;
mod laws;
mod terms;
#[cfg(test)]
mod tests;
mod writing;

pub use file::generate;
pub use laws::generated_is_a_file;
