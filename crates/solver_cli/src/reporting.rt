// The line of a status. It takes no memory.
ghost use Rattle.std.specs.Prelude.{◌≡◌, ◌≤◌, []};
ghost use Rattle.solver_cli.specs.Lines.{fault_line, kind_word, line_of};
ghost use Rattle.solver_cli.specs.Writing.{WritesLine};

use crate::status::Status;
use crate::writing::write_whole;
use arrayvec::ArrayString;
use formula_reader::{Fault, FaultKind};
use io_edge::Sink;
use itoa::Buffer;

fn line(status: Status) -> &'static str
    ensures { result.now ≡ line_of status }
{
    match status {
        Status::Done | Status::Refused => "",
        Status::Usage => "fault usage\n",
        Status::ReadFault => "fault read\n",
        Status::WriteFault => "fault write\n",
        Status::Memory => "fault memory\n",
    }
}

fn kind_word(kind: FaultKind) -> &'static str
    ensures { result.now ≡ kind_word kind }
{
    match kind {
        FaultKind::Byte => "byte",
        FaultKind::Ended => "ended",
        FaultKind::Syntax => "syntax",
        FaultKind::Unknown => "unknown",
        FaultKind::Twice => "twice",
        FaultKind::Loose => "loose",
        FaultKind::Arity => "arity",
        FaultKind::Sort => "sort",
        FaultKind::Limit => "limit",
    }
}

fn write_line(line: &mut ArrayString<64>, fault: Fault)
    requires { line.old.bytes ≡ [] }
    ensures { line.new.bytes ≡ fault_line fault }
{
    let mut digits = Buffer::new();
    line.push_str("fault ");
    line.push_str(digits.format(fault.offset));
    line.push_str(" ");
    line.push_str(kind_word(fault.kind));
    line.push_str("\n");
}

fn report_line<E: Sink>(err: &mut E, line: &str)
    ensures { WritesLine E.writes E.taken E.faults err.old line.now err.new }
{
    let _ = write_whole(err, line.as_bytes());
}

/// Writes the line of a status. For `Done` and for `Refused`, whose line names its fault, that is none.
pub fn report<E: Sink>(err: &mut E, status: Status)
    ensures { WritesLine E.writes E.taken E.faults err.old (line_of status) err.new }
{
    report_line(err, line(status));
}

/// Writes the line of a fault.
pub(crate) fn report_fault<E: Sink>(err: &mut E, fault: Fault)
    ensures { WritesLine E.writes E.taken E.faults err.old (fault_line fault) err.new }
{
    let mut line = ArrayString::new();
    write_line(&mut line, fault);
    report_line(err, line.as_str());
}
