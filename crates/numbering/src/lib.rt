//! The order in which variables are met along terms, and new numbers by it.
#![tactic(auto)]

mod finishing;
mod inner;
mod meeting;
mod renumbering;

pub use finishing::finish;
pub use inner::number_inner;
pub use meeting::met;
pub use renumbering::{number_all, numbers_of};

#[cfg(test)]
mod tests;
