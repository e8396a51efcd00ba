//! Laws of settled contents, each a clause of a function that does nothing.
ghost use Rattle.settled_facts.specs.Additions.{MoreIsAdded, NothingMoreWhereFreeStay, UnchangedSaysNoMore, UnchangedHeadIsLeast};
ghost use Rattle.settled_facts.specs.Changes.{JoinRenames, ChangeKeepsShape, ChangeIsLater, LaterIsTransitive, UntouchedIsUnchanged, UnchangedIsTransitive, TouchedWasRoot, FreeStayUnlessTaken};
ghost use Rattle.settled_facts.specs.Ends.{EndsHasNoRound, MarkedLeavesMakeFirm, LeavesAreReached};
ghost use Rattle.settled_facts.specs.Forms.{SettledIsClosed, SettledNamesAreClasses, SettledHasForm, EquationsAreThere, SaysInRange, SettledIsSolvable, ClashIsUnsolvable, LoopIsUnsolvable, FormSettles};
ghost use Rattle.settled_facts.specs.Variables.{VariableKeepsSettled, NothingIsSettled};
ghost use Rattle.settled_facts.specs.Overlays.{OverlayReads, TermTakenBack, MarkTakenBack, JoinTakenBack, HeadIsAmongTouched};

/// What settled contents say is the solved form of their atoms, which can be solved.
pub fn form_laws()
    ensures closed { SettledIsClosed }
    ensures classes { SettledNamesAreClasses }
    ensures form { SettledHasForm }
    ensures range { SaysInRange }
    ensures solvable { SettledIsSolvable }
    ensures clash { ClashIsUnsolvable }
    ensures round { LoopIsUnsolvable }
    ensures settles { FormSettles }
{}

/// What a change of the contents does to names, and what it leaves.
pub fn change_laws()
    ensures names { JoinRenames }
    ensures shape { ChangeKeepsShape }
    ensures later { ChangeIsLater }
    ensures later_yet { LaterIsTransitive }
    ensures untouched { UntouchedIsUnchanged }
    ensures unchanged_yet { UnchangedIsTransitive }
    ensures roots { TouchedWasRoot }
    ensures free { FreeStayUnlessTaken }
{}

/// What contents say more than at an earlier time is what was added.
pub fn more_laws()
    ensures added { MoreIsAdded }
    ensures nothing { NothingMoreWhereFreeStay }
    ensures unchanged { UnchangedSaysNoMore }
    ensures least { UnchangedHeadIsLeast }
{}

/// What was there before is read off an overlay of what the changes touched, and so are the heads of classes.
pub fn overlay_laws()
    ensures reads { OverlayReads }
    ensures term { TermTakenBack }
    ensures mark { MarkTakenBack }
    ensures join { JoinTakenBack }
    ensures heads { HeadIsAmongTouched }
{}

/// Walks along the equations of the contents that end.
pub fn walk_laws()
    ensures round { EndsHasNoRound }
    ensures firm { MarkedLeavesMakeFirm }
    ensures leaves { LeavesAreReached }
    ensures equations { EquationsAreThere }
{}

/// Contents without atoms, and with a variable more.
pub fn variable_laws()
    ensures none { NothingIsSettled }
    ensures more { VariableKeepsSettled }
{}
