//! Laws of flat conjunctions: their classes, when they have a solution, what they add to a solved conjunction, and solved
//! forms.
#![tactic(auto)]

mod laws;

pub use laws::{
    added_laws, class_laws, name_laws, part_laws, solved_laws, spread_laws, store_laws,
};

#[cfg(test)]
mod tests;
