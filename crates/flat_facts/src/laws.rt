//! Laws of classes and solved forms, each a clause of a function that does nothing.
ghost use Rattle.flat_facts.specs.ClassLaws.{ClassIsAlike, ReachedIsFinite, UnsolvableHasNoSolution, SolvableHasSolution};
ghost use Rattle.flat_facts.specs.AddedLaws.{AddedFollows, AddedSuffices, NothingAddedWhereImplied, SomethingIsAdded, AddedIsDetermined, AddedIsApart, AddedIsOver, AddedSymbols, AddedFits, SolvedFormIsSolved, SolvedIsOwnForm, SolvedHasSolution, SolvedIsUnique, SolvedFormMeans};
ghost use Rattle.flat_facts.specs.StoreLaws.{TogetherSolvable, AddedMeansMore, NothingAddedToStore};
ghost use Rattle.flat_facts.specs.Spread.{RoundIsInfinite, FiniteWhereLeavesAre, LeastRoundIsOne};
ghost use Rattle.flat_facts.specs.PartLaws.{AddedIsLoose, PrunedFails, PrunedIsPartOver, FailsWithMoved, FailsWhenFilled, RenumberedFails};
ghost use Rattle.flat_facts.specs.Names.{NamesAreClasses, NamesAreLeast};

/// What classes say holds in each solution, and there is one exactly where no class clashes and no walk from a finite
/// atom comes round.
pub fn class_laws()
    ensures alike { ClassIsAlike }
    ensures finite { ReachedIsFinite }
    ensures none { UnsolvableHasNoSolution }
    ensures solvable { SolvableHasSolution }
{}

/// Names that are closed under the rules of classes.
pub fn name_laws()
    ensures classes { NamesAreClasses }
    ensures least { NamesAreLeast }
{}

/// What is added to a base says the same as the atoms over it, and it is one list.
pub fn added_laws()
    ensures follows { AddedFollows }
    ensures suffices { AddedSuffices }
    ensures nothing { NothingAddedWhereImplied }
    ensures something { SomethingIsAdded }
    ensures determined { AddedIsDetermined }
    ensures apart { AddedIsApart }
    ensures over { AddedIsOver }
    ensures symbols { AddedSymbols }
    ensures fits { AddedFits }
{}

/// A solved form has the shape of one and the solutions of the atoms: one for all values of its roots that are finite
/// where it says so.
pub fn solved_laws()
    ensures shape { SolvedFormIsSolved }
    ensures own { SolvedIsOwnForm }
    ensures solution { SolvedHasSolution }
    ensures unique { SolvedIsUnique }
    ensures means { SolvedFormMeans }
{}

/// What one call over the solved form of the atoms below says of further atoms.
pub fn store_laws()
    ensures solvable { TogetherSolvable }
    ensures means { AddedMeansMore }
    ensures nothing { NothingAddedToStore }
{}

/// Walks along the equations of a solved conjunction say which of its variables are finite.
pub fn spread_laws()
    ensures round { RoundIsInfinite }
    ensures least { LeastRoundIsOne }
    ensures leaves { FiniteWhereLeavesAre }
{}

/// What may be pruned from a part, moved into it and renumbered without a change of meaning.
pub fn part_laws()
    ensures loose { AddedIsLoose }
    ensures pruned { PrunedFails }
    ensures shape { PrunedIsPartOver }
    ensures moved { FailsWithMoved }
    ensures filled { FailsWhenFilled }
    ensures renumbered { RenumberedFails }
{}
