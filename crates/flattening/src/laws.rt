//! Laws of the definitions, each a clause of a function that does nothing.
ghost use Rattle.flattening.specs.FittingLaws.{WellFormedFits};
ghost use Rattle.flattening.specs.SymbolLaws.{FlattenedSymbols, FlattenedFits, FormSymbolsFit};

/// What is well formed over a signature meets the conditions of `flatten` on symbols.
pub fn well_formed_fits()
    ensures { WellFormedFits }
{}

/// Each symbol of a flattened formula stands in the formula or in a cube of the table, so it fits what these fit.
pub fn flattening_keeps_symbols()
    ensures symbols { FlattenedSymbols }
    ensures fits { FlattenedFits }
    ensures formula { FormSymbolsFit }
{}
