ghost use Rattle.flat_form.specs.Laws.{BasicsAreStable, CubesAreStable, NormalsAreStable, FitsBySymbols};

/// Every meaning is stable, so "some values", "one of the cubes" and "finite" read as in classical logic. A law: it does
/// nothing when it runs.
pub fn meanings_are_stable()
    ensures basics { BasicsAreStable }
    ensures cubes { CubesAreStable }
    ensures normals { NormalsAreStable }
{}

/// What fits a signature is what has root symbols of it alone. A law, as above.
pub fn fits_by_symbols()
    ensures { FitsBySymbols }
{}
