//! Words for facts that are read classically: `Either`, `Exists` and `IsStable`, with their lemmas in `proofs/`.
#![tactic(auto)]

mod laws;

pub use laws::{Facts, stable_laws};

#[cfg(test)]
mod tests;
