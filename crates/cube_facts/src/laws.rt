//! Laws of cubes, each a clause of a function that does nothing.
ghost use Rattle.cube_facts.specs.Determined.{UnderIsDetermined, NumberedIsUnder, OuterIsDetermined};
ghost use Rattle.cube_facts.specs.Fresh.{FreshValuesFail, ReducedIsOver, ReducedHasSolution, PartsOverHaveSolution, SettledHasSolution};
ghost use Rattle.cube_facts.specs.Numbers.{FullOrderIsAsLong, OldNumberIsBack};
ghost use Rattle.cube_facts.specs.Raws.{JoinedMeans, OpenedMeans, DeniedMeans, RawsAreWellNumbered, RawsFit, RawsHaveSymbols};
ghost use Rattle.cube_facts.specs.Renumbered.{RenumberedMeans, ShapeRenumbered};
ghost use Rattle.cube_facts.specs.Settling.{SettledFails, SettledShape, SomethingIsLeft, IdleMayGo, MovedMeans};

/// New numbers by an order without repeats are one to one.
pub fn number_laws()
    ensures long { FullOrderIsAsLong }
    ensures back { OldNumberIsBack }
{}

/// The values of the first variables determine those of what they reach along terms, and so those of outer variables that
/// are numbered by first occurrence.
pub fn determined_laws()
    ensures under { UnderIsDetermined }
    ensures numbered { NumberedIsUnder }
    ensures outer { OuterIsDetermined }
{}

/// A settled part says the same as the part, has the shape of one, and something is left of it.
pub fn settling_laws()
    ensures fails { SettledFails }
    ensures shape { SettledShape }
    ensures left { SomethingIsLeft }
{}

/// Idle variables may go, with the parts that mention them.
pub fn idle_laws()
    ensures { IdleMayGo }
{}

/// Equations that determine their variables may move into each part.
pub fn moving_laws()
    ensures { MovedMeans }
{}

/// Under values by distinct unused indexes all parts of a reduced cube fail, so it has a solution.
pub fn fresh_laws()
    ensures fail { FreshValuesFail }
    ensures over { ReducedIsOver }
    ensures solution { ReducedHasSolution }
    ensures parts { PartsOverHaveSolution }
    ensures settled { SettledHasSolution }
{}

/// A cube under new numbers means the same, and its parts keep their shape.
pub fn renumbering_laws()
    ensures means { RenumberedMeans }
    ensures shape { ShapeRenumbered }
{}

/// What joined, opened and denied cubes mean; they are well numbered and fit, with no other symbols.
pub fn raw_laws()
    ensures joined { JoinedMeans }
    ensures opened { OpenedMeans }
    ensures denied { DeniedMeans }
    ensures well_numbered { RawsAreWellNumbered }
    ensures fit { RawsFit }
    ensures symbols { RawsHaveSymbols }
{}
