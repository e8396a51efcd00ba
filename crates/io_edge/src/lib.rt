//! The program's edge: where a file is read from, and where bytes are written to.
//!
//! `Source` and `Sink` say what every source and sink keeps. Over memory (`MemorySource`, `MemorySink`) a
//! contract says exactly what each call does. Over the system (`FileSource`, `OutSink`, `ErrSink`) it says how
//! many bytes, and that each failure was counted; which bytes they were is the system's.
#![tactic(auto)]

mod failed;
mod memory_sink;
mod memory_source;
mod sink;
mod source;
mod stored;
mod system;
#[cfg(test)]
mod tests;

pub use failed::Failed;
pub use lists::NoMemory;
pub use memory_sink::MemorySink;
pub use memory_source::MemorySource;
pub use sink::Sink;
pub use source::Source;
pub use system::{ErrSink, FileSource, OutSink};
