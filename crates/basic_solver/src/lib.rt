//! The solver of flat equations with finiteness: a store of atoms in scopes, with their solved form.
#![tactic(auto)]

mod bases;
mod clashing;
mod closing;
mod grounding;
mod laws;
mod listing;
mod names;
mod reaching;
mod scope;
mod solving;
mod store;
mod terms;
mod twins;

pub use closing::classes;
pub use laws::pop_laws;
pub use listing::added;
pub use scope::{Asserted, Scope};
pub use store::Store;

#[cfg(test)]
mod tests;
