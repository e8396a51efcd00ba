/// What a declared name stands for.
#[derive(Clone, Copy, Debug, PartialEq, Eq, Drop)]
pub enum Kind {
    /// A symbol, which heads terms.
    Symbol,
    /// A predicate, which heads calls.
    Pred,
}
