//! The text of a formula, and of an assignment of trees to variables.
#![tactic(auto)]

mod assignment;
mod bound;
mod formula;
mod laws;
mod terms;
mod words;

pub use assignment::print_assignment;
pub use bound::bound_names;
pub use formula::print_formula;
pub use laws::{bound_names_are_printable, well_formed_is_printable};

#[cfg(test)]
mod checks;
#[cfg(test)]
mod tests;
