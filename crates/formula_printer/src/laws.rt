//! Laws of the definitions, each a clause of a function that does nothing.
ghost use Rattle.formula_printer.specs.PrintableLaws.{StatementsArePrintable, BoundNamesArePrintable};

/// A well formed statement can be printed, over a signature whose names are names as they are written.
pub fn well_formed_is_printable()
    ensures { StatementsArePrintable }
{}

/// With names that can be printed, so can be the same names with those of n bound variables behind them, of which there are n.
pub fn bound_names_are_printable()
    ensures { BoundNamesArePrintable }
{}
