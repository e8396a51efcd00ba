// A text goes out by a loop.
ghost use Rattle.std.specs.Prelude.{◌≡◌, ◌≤◌, drop, length, OnOk, OnErr};
ghost use Rattle.io_edge.specs.Edge.{Rose};
ghost use Rattle.solver_cli.specs.Writing.{IsWhole, IsCut};

use io_edge::{Failed, Sink};

// What lies behind the first n bytes.
fn after(bytes: &[u8], n: usize) -> &[u8]
    requires { n ≤ length bytes.now }
    ensures { result.now ≡ drop n bytes.now }
{
    bytes.split_at(n).1
}

/// Writes a text whole. Each call of `write` is offered the rest of it, and none comes behind a failed one.
pub(crate) fn write_whole<O: Sink>(out: &mut O, text: &[u8]) -> Result<(), Failed>
    ensures whole { OnOk result (IsWhole O.writes O.taken out.old text.now out.new) }
    ensures cut { OnErr result (IsCut O.writes O.taken out.old text.now out.new) }
    ensures count { O.faults out.old ≤ O.faults out.new }
    ensures failed { OnErr result (Rose (O.faults out.old) (O.faults out.new)) }
{
    let mut rest = text;
    while !rest.is_empty() {
        match out.write(rest) {
            Ok(n) => rest = after(rest, n),
            Err(_) => return Err(Failed),
        }
    }
    Ok(())
}
