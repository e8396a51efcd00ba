use flat_form::Basic;

/// A number of variables, which follow those of the scopes below, and atoms.
#[derive(Debug, Drop)]
pub struct Scope {
    pub variables: usize,
    pub atoms: Basic,
}

/// What came of asserting an atom.
#[derive(Clone, Copy, Debug, PartialEq, Eq, Drop)]
pub enum Asserted {
    /// The atoms of all scopes with this one have no solution.
    Clash,
    /// The atom was kept. It was added, unless the atoms before imply it.
    Kept { added: bool },
}
