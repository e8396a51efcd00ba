// Where a reader is in a formula.

/// Within how many nestings it is, and whether a variable has to be bound there.
#[derive(Clone, Copy)]
pub(crate) struct Place {
    pub(crate) depth: usize,
    pub(crate) closed: bool,
}
