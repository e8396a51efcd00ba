//! Laws of the contents of a graph that settle a conjunction: what is read off them, what is added to them, and how they
//! are made so.
#![tactic(auto)]

mod laws;

pub use laws::{change_laws, form_laws, more_laws, overlay_laws, variable_laws, walk_laws};

#[cfg(test)]
mod tests;
