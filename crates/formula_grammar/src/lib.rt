//! The grammar of files and formulas, and the first fault of every other input.
#![tactic(auto)]

mod fault;
mod laws;

pub use fault::{Fault, FaultKind};
pub use laws::{
    at_most_one_outcome, at_most_one_reading, faults_stand_right, files_are_well_formed,
    kinds_say_why, lawful_is_faultless,
};

#[cfg(test)]
mod tests;
