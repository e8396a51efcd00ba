//! Laws of lists of cubes, each a clause of a function that does nothing.
ghost use Rattle.list_facts.specs.Lists.{StepsMean, AndMeans, OrMeans, ExistsMeans, NotMeans, JoinedListsMean, ClosedMeans, PlainMeans, ClosedIsFixed};
ghost use Rattle.list_facts.specs.OneList.{ListsAreOne};
ghost use Rattle.list_facts.specs.Symbols.{ListsHaveSymbols};

/// What the lists mean, and that they are reduced and distinct.
pub fn list_laws()
    ensures steps { StepsMean }
    ensures and { AndMeans }
    ensures or { OrMeans }
    ensures exists { ExistsMeans }
    ensures not { NotMeans }
    ensures joined { JoinedListsMean }
    ensures closed { ClosedMeans }
    ensures plain { PlainMeans }
    ensures fixed { ClosedIsFixed }
{}

/// Lists have no other symbols than those that they come from.
pub fn symbol_laws()
    ensures { ListsHaveSymbols }
{}

/// Lists that fit a signature come to one list.
pub fn unique_laws()
    ensures { ListsAreOne }
{}
