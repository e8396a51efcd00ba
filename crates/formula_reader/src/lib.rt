//! Reads files and formulas: which text is which file or formula, and where each other text is refused.
#![tactic(auto)]

mod atoms;
mod checks;
mod error;
mod file_reader;
mod formulas;
mod parsed;
mod place;
mod reader;
mod statements;
mod terms;
#[cfg(test)]
mod tests;
mod variables;
mod words;

pub use error::ReadError;
pub use file_reader::{MOST_BYTES, read_file, read_formula};
pub use formula_grammar::{Fault, FaultKind};
pub use formula_tokens::{Token, TokenKind, next_token};
