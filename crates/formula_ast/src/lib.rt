//! Formulas over rational trees and what they mean; the tokens that they are written with.
#![tactic(auto)]

mod file;
mod formula;
mod free;
mod index;
mod laws;
mod names;
mod pred;
mod statement;
mod term;
mod token;

pub use file::File;
pub use formula::Formula;
pub use free::free_variables;
pub use index::indexes;
pub use laws::{meanings_are_stable, well_formed_is_stable};
pub use names::{Name, Names};
pub use pred::{Pred, Preds};
pub use statement::{Statement, Statements};
pub use term::{Term, Terms};
pub use token::{Token, TokenKind};

#[cfg(test)]
mod tests;
