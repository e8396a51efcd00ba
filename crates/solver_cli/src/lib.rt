//! The top call: reads a file to its end, checks it whole, and answers its statements one by one.
#![tactic(auto)]

mod answering;
mod counting;
mod inputs;
mod outcome;
mod reading;
mod reporting;
mod running;
mod status;
mod stop;
#[cfg(test)]
mod tests;
mod writing;

pub use decision::{Answer, decide};
pub use reporting::report;
pub use running::run;
pub use status::Status;
