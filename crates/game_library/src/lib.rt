//! Formulas with predicates and wins, solved by an engine: each predicate and each win that is needed is solved once.
#![tactic(auto)]

mod completing;
mod entries;
mod marks;
mod solving;
#[cfg(test)]
mod tests;
mod winning;

pub use completing::complete;
pub use solving::{solve_by, solve_formula};
pub use winning::winning_formula;
