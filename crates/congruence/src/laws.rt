//! Laws of what waits, each a clause of a function that does nothing.
ghost use Rattle.congruence.specs.Merges.{MergeKeeps, AgendaMoves, AlikeIsSound};
ghost use Rattle.congruence.specs.Starts.{SettledIsUnderway, AtomWaits, EquationWaits, ArgumentsWait, OwnerWaits, TermStands};
ghost use Rattle.congruence.specs.Ends.{MarksKeepUnderway, MarksKeepFirm, SettlesAgain};
ghost use Rattle.congruence.specs.Turns.{MergeLeadsOn};

/// What a merge keeps.
pub fn merge_laws()
    ensures merge { MergeKeeps }
    ensures moves { AgendaMoves }
    ensures alike { AlikeIsSound }
{}

/// What an atom more makes wait.
pub fn start_laws()
    ensures settled { SettledIsUnderway }
    ensures atom { AtomWaits }
    ensures equation { EquationWaits }
    ensures arguments { ArgumentsWait }
    ensures owner { OwnerWaits }
    ensures stands { TermStands }
{}

/// When nothing waits any more.
pub fn end_laws()
    ensures marks { MarksKeepUnderway }
    ensures firm { MarksKeepFirm }
    ensures settles { SettlesAgain }
{}

/// A merge leads on.
pub fn turn_laws()
    ensures merge { MergeLeadsOn }
{}
