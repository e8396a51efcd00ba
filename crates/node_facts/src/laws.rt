//! Laws of nested lists and of trees of branches, each a clause of a function that does nothing.
ghost use Rattle.node_facts.specs.KeepLaws.{BesideMeans, KeepsMeans, KeepsTogether, KeepsShape, KeepsIsOne, KeepsAll, KeepsNone};
ghost use Rattle.node_facts.specs.NestedLaws.{NestedMeans, NestedShape, NestedIsOne};
ghost use Rattle.node_facts.specs.PlaceLaws.{PlacesHave, ChangedKeepsWhole, ListedIsSameNorm, ListedIsOver, HeldStays, HeldFits};
ghost use Rattle.node_facts.specs.TurnLaws.{ListedAgrees, TurnIsMade, TurnKeepsWhole};
ghost use Rattle.node_facts.specs.CountLaws.{ListedCounts, ReadyUnlessDone, ReadyAreThere, UnturnedIs};

/// What is kept of a list of cubes beside atoms.
pub fn keep_laws()
    ensures beside { BesideMeans }
    ensures means { KeepsMeans }
    ensures together { KeepsTogether }
    ensures shape { KeepsShape }
    ensures one { KeepsIsOne }
    ensures all { KeepsAll }
    ensures none { KeepsNone }
{}

/// What nested lists mean, their shape, and that there is one.
pub fn nested_laws()
    ensures means { NestedMeans }
    ensures shape { NestedShape }
    ensures one { NestedIsOne }
{}

/// What is had at the places of a tree of branches, and what a change at one place keeps.
pub fn place_laws()
    ensures have { PlacesHave }
    ensures whole { ChangedKeepsWhole }
    ensures norm { ListedIsSameNorm }
    ensures over { ListedIsOver }
    ensures stays { HeldStays }
    ensures fit { HeldFits }
{}

/// What the list is that the lists of the parts of a ready branch come to.
pub fn turn_laws()
    ensures agrees { ListedAgrees }
    ensures made { TurnIsMade }
    ensures whole { TurnKeepsWhole }
{}

/// How many branches wait, which are ready, and what a tree of branches is like before the first turn.
pub fn count_laws()
    ensures turn { ListedCounts }
    ensures ready { ReadyUnlessDone }
    ensures there { ReadyAreThere }
    ensures unturned { UnturnedIs }
{}
