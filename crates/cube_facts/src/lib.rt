//! Laws of cubes: what may be taken from one, moved in it and renumbered without a change of meaning, when a cube has a
//! solution, and what joined, opened and denied cubes mean.
#![tactic(auto)]

mod laws;

pub use laws::{
    determined_laws, fresh_laws, idle_laws, moving_laws, number_laws, raw_laws, renumbering_laws,
    settling_laws,
};

#[cfg(test)]
mod tests;
