//! The program once more: its stored run is refused, and so ends with another exit status than 0.
#![tactic(auto)]

use io_edge::{ErrSink, OutSink};
use program::exit_code;
use std::process::ExitCode;

fn main(rt: HostRuntime) -> ExitCode {
    let mut out = OutSink::new(rt.stdout());
    let mut err = ErrSink::new(rt.stderr());
    exit_code(&rt, &mut out, &mut err)
}
