//! Laws of places and of what a turn does to the state, as clauses of functions that do nothing.
ghost use Rattle.working_rules.specs.StandingLaws.{StandsInOrder, StandsSome, StandsInside};
ghost use Rattle.working_rules.specs.TurnedLaws.{TurnedStays, TurnedCounts, TurnedMeans};

/// What stands at a place of a tree of branches is what the order of places has there, at each place a branch
/// stands, and its parts stand behind it.
pub fn standing_laws()
    ensures order { StandsInOrder }
    ensures some { StandsSome }
    ensures inside { StandsInside }
{}

/// What a turn keeps: each negated conjunction, how many branches were or are to be turned, and what the whole means.
pub fn turned_laws()
    ensures stays { TurnedStays }
    ensures counts { TurnedCounts }
    ensures means { TurnedMeans }
{}
