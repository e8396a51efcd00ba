ghost use Rattle.formula_grammar.specs.GrammarLaws.{OneFileReading, OneFormulaReading, FileFaultsStandRight, FormulaFaultsStandRight, FaultlessFilesRead, FaultlessFormulasRead};
ghost use Rattle.formula_grammar.specs.ReadingLaws.{LawfulFilesAreFaultless, LawfulFormulasAreFaultless, NeverBoth, NeverBothOfFormula, FilesOrFault, StatementsOrFault, OneFile, OneStatement};
ghost use Rattle.formula_grammar.specs.WellFormedLaws.{FilesAreWellFormed, StatementsAreWellFormed};
ghost use Rattle.formula_grammar.specs.KindLaws.{FileKindsSayWhy, FormulaKindsSayWhy, FileFaultsLookNoFurther, FormulaFaultsLookNoFurther};

/// The first fault stands where the grammar alone says: an unfinished input at its end, a word that no whole text has
/// there at this word, and every other fault behind a front of a whole text. A text without a fault is a whole text. A
/// law: it does nothing when it runs.
pub fn faults_stand_right()
    ensures files { FileFaultsStandRight }
    ensures formulas { FormulaFaultsStandRight }
    ensures faultless_files { FaultlessFilesRead }
    ensures faultless_formulas { FaultlessFormulasRead }
{}

/// A text reads in one way only. A law: it does nothing when it runs.
pub fn at_most_one_reading()
    ensures files { OneFileReading }
    ensures formulas { OneFormulaReading }
    ensures one_file { OneFile }
    ensures one_statement { OneStatement }
{}

/// A text that is written as a file has no first fault exactly where its statements use names as they are declared and
/// pass no limit; and so of formulas. A law: it does nothing when it runs.
pub fn lawful_is_faultless()
    ensures files { LawfulFilesAreFaultless }
    ensures formulas { LawfulFormulasAreFaultless }
{}

/// A text that reads as a file or as a formula has no first fault, and one without a first fault reads as one. A law: it
/// does nothing when it runs.
pub fn at_most_one_outcome()
    ensures never_both { NeverBoth }
    ensures formulas { NeverBothOfFormula }
    ensures files_or_fault { FilesOrFault }
    ensures statements_or_fault { StatementsOrFault }
{}

/// A text that reads as a file makes a well formed file: its names, symbols, calls and variables are as a text may declare
/// and use them. So does one that reads as a formula. A law: it does nothing when it runs.
pub fn files_are_well_formed()
    ensures files { FilesAreWellFormed }
    ensures statements { StatementsAreWellFormed }
{}

/// A fault that looks at declarations or limits has the first kind of what is wrong with the token at which it stands, and
/// nothing behind that token counts. A law: it does nothing when it runs.
pub fn kinds_say_why()
    ensures files { FileKindsSayWhy }
    ensures formulas { FormulaKindsSayWhy }
    ensures files_no_further { FileFaultsLookNoFurther }
    ensures formulas_no_further { FormulaFaultsLookNoFurther }
{}
