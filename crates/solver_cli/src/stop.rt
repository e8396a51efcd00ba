// Why no more is read or written.

// A call of a source or of a sink failed, or memory was wanting.
#[derive(Clone, Copy, Debug, PartialEq, Eq, Drop)]
pub(crate) enum Stop {
    Failed,
    NoMemory,
}
