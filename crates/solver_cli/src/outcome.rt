// How a run came out.
use formula_reader::Fault;

// The causes that the statuses have, a refusal with its fault.
#[derive(Clone, Copy, Debug, PartialEq, Eq, Drop)]
pub(crate) enum Outcome {
    Done,
    Refused(Fault),
    Usage,
    ReadFault,
    WriteFault,
    Memory,
}
