//! The program: `treesolve FILE` answers the statements of a file.
#![tactic(auto)]

use io_edge::{ErrSink, OutSink};
use program::exit_code;
use std::process::ExitCode;

fn main(rt: HostRuntime) -> ExitCode {
    let mut out = OutSink::new(rt.stdout());
    let mut err = ErrSink::new(rt.stderr());
    exit_code(&rt, &mut out, &mut err)
}
