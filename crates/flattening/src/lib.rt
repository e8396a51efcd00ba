//! Every formula as a nest of negated conjunctions of flat atoms that means the same.
#![tactic(auto)]

mod atoms;
mod conjunctions;
mod cubes;
mod laws;
mod numbers;
mod solved;
mod terms;

pub use conjunctions::flatten;
pub use laws::{flattening_keeps_symbols, well_formed_fits};
pub use solved::{Key, Solved};

#[cfg(test)]
mod tests;
