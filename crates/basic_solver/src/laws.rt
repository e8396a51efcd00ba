//! Laws of the store, as clauses of a function that does nothing.
ghost use Rattle.basic_solver.specs.Stores.{PopUndoesPush, PopUndoesAssert};

/// A scope that is given up leaves the scopes as they were before it was opened, whatever was asserted in it.
pub fn pop_laws()
    ensures pushed { PopUndoesPush }
    ensures asserted { PopUndoesAssert }
{}
