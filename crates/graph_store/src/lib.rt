//! What a graph of shared terms says, and scopes of atoms over it, with which it is taken back.
#![tactic(auto)]

mod floor;
mod growing;
mod reading;
mod store;

pub use reading::read_off;
pub use store::Store;

#[cfg(test)]
mod reading_tests;
#[cfg(test)]
mod tests;
