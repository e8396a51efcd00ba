//! Laws of the definitions, each a clause of a function that does nothing.
ghost use Rattle.form_facts.specs.Sameness.{SatisfactionReadsFreeVariables, PredicatesRespectSameness, WinningRespectsSameness, PredicateIsItsBody};
ghost use Rattle.form_facts.specs.Winning.{WinningForm};

/// Meanings depend on trees, and not on the graphs that give them; a formula holds by the values of its free variables
/// alone; and a predicate of a well formed file holds where its body does.
pub fn meanings_respect_sameness()
    ensures satisfaction { SatisfactionReadsFreeVariables }
    ensures predicates { PredicatesRespectSameness }
    ensures winning { WinningRespectsSameness }
    ensures bodies { PredicateIsItsBody }
{}

/// Winning within one move more is a formula over winning.
pub fn winning_is_a_formula()
    ensures { WinningForm }
{}
