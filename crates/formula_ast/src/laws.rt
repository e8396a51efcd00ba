ghost use Rattle.formula_ast.specs.Stability.{SatisfactionIsStable, WinningIsStable, PredicatesAreStable, ReadingIsStable};
ghost use Rattle.formula_ast.specs.WellFormedLaws.{FormingIsStable, StatementsAreStable, FilesAreStable, CallsStayDeclared, EmptyIsWellFormed};

/// Every meaning is stable, so "or", "exists", "wins" and "finite" read as in classical logic. A law: it does nothing
/// when it runs.
pub fn meanings_are_stable()
    ensures satisfaction { SatisfactionIsStable }
    ensures winning { WinningIsStable }
    ensures predicates { PredicatesAreStable }
    ensures reading { ReadingIsStable }
{}

/// To be well formed is stable, a body of a predicate may stand as a statement, and the empty file is well formed. A
/// law: it does nothing when it runs.
pub fn well_formed_is_stable()
    ensures formulas { FormingIsStable }
    ensures statements { StatementsAreStable }
    ensures files { FilesAreStable }
    ensures front { CallsStayDeclared }
    ensures empty { EmptyIsWellFormed }
{}
