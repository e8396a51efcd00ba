//! Texts of files, as they are written canonically: definitions and a law.
#![tactic(auto)]

mod laws;

pub use laws::written_files_read;
