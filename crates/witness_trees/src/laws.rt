//! Laws of fresh assignments, each a clause of a function that does nothing.
ghost use Rattle.witness_trees.specs.FreshLaws.{FreshIsOne, EachIsMet, IndexesAreFresh, FreshIsTable, FreshHasValues, HoldsUnderFresh};

/// A cube and the used indexes determine the fresh assignment. It is a table of trees that meets the equations of the cube,
/// with indexes of their own for the variables that nothing determines, and a reduced cube holds under it.
pub fn fresh_assignment_laws()
    ensures one { FreshIsOne }
    ensures met { EachIsMet }
    ensures indexes { IndexesAreFresh }
    ensures table { FreshIsTable }
    ensures values { FreshHasValues }
    ensures holds { HoldsUnderFresh }
{}
