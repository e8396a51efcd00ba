//! Rational trees over a signature, as finite pointed graphs.
#![tactic(auto)]

mod assignment;
mod comparison;
mod finiteness;
mod kind;
mod laws;
mod tree;

pub use assignment::Assignment;
pub use comparison::same;
pub use finiteness::is_finite;
pub use kind::Kind;
pub use laws::{sameness_laws, stability_laws};
pub use lists::NoMemory;
pub use tree::{Node, Places, Symbol, Tree, TreeError};

#[cfg(test)]
mod tests;
