/// Why an input is refused. Where several hold at one token, the first of this list is told.
#[derive(Clone, Copy, Debug, PartialEq, Eq, Drop)]
pub enum FaultKind {
    /// A byte that is neither blank nor in a comment begins no token.
    Byte,
    /// The input ends before what was begun is whole.
    Ended,
    /// No file begins with the tokens up to this one.
    Syntax,
    /// A name that is used is not declared.
    Unknown,
    /// A name is declared again, or a parameter stands twice in one list.
    Twice,
    /// A variable of a predicate's body is neither a parameter nor bound.
    Loose,
    /// A name has more or fewer arguments than it is declared with.
    Arity,
    /// A predicate stands where a symbol must stand, or a symbol where a predicate must.
    Sort,
    /// The input passes one of the limits on sizes and numbers.
    Limit,
}

/// A fault, with the offset in bytes of the token or the byte at which it stands.
#[derive(Clone, Copy, Debug, PartialEq, Eq, Drop)]
pub struct Fault {
    pub offset: usize,
    pub kind: FaultKind,
}
