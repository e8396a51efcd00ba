//! What a variable is bound to.

/// What a variable is bound to.
#[derive(Clone, Copy, Debug, PartialEq, Eq, Drop)]
pub enum Bound {
    Free,
    Variable(usize),
    Term(usize),
}
