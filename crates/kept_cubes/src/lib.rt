//! Which cubes can hold together with the atoms of a store.
#![tactic(auto)]

mod asking;
mod keeping;
mod laws;

pub use asking::holds_together;
pub use keeping::keep;
pub use laws::together_laws;

#[cfg(test)]
mod tests;
