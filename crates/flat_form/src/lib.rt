//! Flat conjunctions over numbered variables, cubes, and nests of negated conjunctions, with what they mean.
#![tactic(auto)]

mod args;
mod atom;
mod cube;
mod laws;
mod normal;
mod same;
mod solved;

pub use args::Args;
pub use atom::{Basic, Flat};
pub use cube::{Cube, Cubes, Part, Parts};
pub use laws::{fits_by_symbols, meanings_are_stable};
pub use normal::{Normal, Normals};
pub use same::{is_same_atom, is_same_basic, is_same_cube, is_same_part};
pub use solved::{is_solved, variable};

#[cfg(test)]
mod tests;
