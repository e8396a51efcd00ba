//! Which variables others reach along terms, and where the atoms of variables stand.
#![tactic(auto)]

mod mentioning;
mod places;
mod reaching;
mod splitting;

pub use mentioning::mentions;
pub use places::{atom_of, places_of, term_of};
pub use reaching::reached;
pub use splitting::{Outers, split};

#[cfg(test)]
mod tests;
