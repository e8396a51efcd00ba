//! Laws of the steps, each a clause of a function that does nothing.
ghost use Rattle.step_facts.specs.Cleared.{FinishedFails, ClearedMeans};
ghost use Rattle.step_facts.specs.Grouped.{GroupedIsRight, MovedIsDetermined, GroupedMeans};
ghost use Rattle.step_facts.specs.OneOutcome.{InnerNumbersAreOne, OuterOrderIsOne, GroupedIsOne, OutcomeIsOne};
ghost use Rattle.step_facts.specs.Outcomes.{OutcomeMeans, OutcomeIsOver, OutcomeIsSolved, OutcomeIsNumbered, OutcomeIsDistinct, OutcomePartsAreReduced, OutcomeIsReduced, NoneExactly, OutcomeSymbols, OutcomeFits};

/// What the first two steps make of a raw cube.
pub fn group_laws()
    ensures right { GroupedIsRight }
    ensures moved { MovedIsDetermined }
    ensures means { GroupedMeans }
{}

/// What the last steps make of a grouped cube.
pub fn clear_laws()
    ensures finished { FinishedFails }
    ensures means { ClearedMeans }
{}

/// The outcome means what the raw cube does and is reduced, and there is none exactly where the raw cube has no solution.
pub fn outcome_laws()
    ensures means { OutcomeMeans }
    ensures over { OutcomeIsOver }
    ensures solved { OutcomeIsSolved }
    ensures numbered { OutcomeIsNumbered }
    ensures distinct { OutcomeIsDistinct }
    ensures parts { OutcomePartsAreReduced }
    ensures reduced { OutcomeIsReduced }
    ensures none { NoneExactly }
{}

/// The outcome has no symbol that the raw cube has not, so it fits where the raw cube does.
pub fn symbol_laws()
    ensures symbols { OutcomeSymbols }
    ensures fits { OutcomeFits }
{}

/// The steps come to one outcome only.
pub fn unique_laws()
    ensures inner { InnerNumbersAreOne }
    ensures order { OuterOrderIsOne }
    ensures grouped { GroupedIsOne }
    ensures outcome { OutcomeIsOne }
{}
