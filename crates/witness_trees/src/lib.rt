//! The fresh assignment of a reduced cube: trees for its free variables under which it holds.
#![tactic(auto)]

mod assigning;
mod breadth;
mod indexes;
mod labels;
mod laws;
mod meeting;

pub use assigning::witness;
pub use laws::fresh_assignment_laws;

#[cfg(test)]
mod tests;
