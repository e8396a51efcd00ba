//! A law of the definitions, as the clause of a function that does nothing.
ghost use Rattle.assignment_facts.specs.Trees.{AssignmentsSayTheirTrees};

/// The formula of an assignment holds exactly where its variables have its trees.
pub fn assignments_say_their_trees()
    ensures { AssignmentsSayTheirTrees }
{}
