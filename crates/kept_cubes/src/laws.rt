//! Laws of a cube beside atoms, as clauses of a function that does nothing.
ghost use Rattle.kept_cubes.specs.Together.{NothingBelow, ClashHoldsNowhere, ImpliedHoldsNowhere, SettledCanHold};

/// A cube can hold together with atoms exactly where its basic can and none of its parts is implied. Nothing of a part
/// is kept that speaks of the variables that it binds alone.
pub fn together_laws()
    ensures nothing { NothingBelow }
    ensures clash { ClashHoldsNowhere }
    ensures implied { ImpliedHoldsNowhere }
    ensures settled { SettledCanHold }
{}
