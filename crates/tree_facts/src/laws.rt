//! The laws of systems of flat equations, each a clause of a function that does nothing.
ghost use Rattle.std.specs.Prelude.{ℕ};
ghost use Rattle.tree_facts.specs.Laws.{EquationIsStable, EquationReadsItsVariables, EqualTermsDecompose, EqualArgumentsCompose, TableIsSolution, ReadFromTableSolves, FrontReads, BackReads, BesideIsInRange, BesideFits, MergedReads, MergedIsInRange, MergedFits, HasSolution, SolutionIsUnique, SolutionIsUniqueBelow};
ghost use Rattle.tree_facts.specs.FiniteLaws.{RootIsRead, NothingPastTheChildren, SubtreeIsFinite, OwnSubtreeIsInfinite, TermIsFiniteWhereArgumentsAre, NodeIsFiniteWhereChildrenAre, NoneIsFiniteWhereEachGoesOn, FiniteIsGrounded, FiniteWhereNoWalkComesRound};
ghost use Rattle.tree_facts.specs.WalkLaws.{ReachedStandsInside, BelowStandsInside, RoundIsInfinite, FiniteWhereWalksEnd, FiniteWhereNoneComesRound};
ghost use Rattle.tree_facts.specs.Renumbering.{RenumberedHolds, RenumberedSolves};
ghost use Rattle.tree_facts.specs.IndexLaws.{ReadIndexIsBelow, UnusedIndex, ConstantIsApplied, ConstantIsFinite, LoopIsApplied, LoopIsInfinite, ConstantsDiffer, HasSolutionOfConstants};

/// Equations mean the same in classical logic and speak of their own variables alone, and trees are built freely: they
/// are equal exactly where their root symbols and their children are.
pub fn equation_laws()
    ensures stable { EquationIsStable }
    ensures own_variables { EquationReadsItsVariables }
    ensures decompose { EqualTermsDecompose }
    ensures compose { EqualArgumentsCompose }
{}

/// A node table that meets each equation is a solution of the system.
pub fn table_laws()
    ensures table { TableIsSolution }
    ensures read_from_table { ReadFromTableSolves }
{}

/// Graphs in one list of nodes read as they did alone, in range and over the same signature.
#[tactic(auto, using(crate::proofs::SideBySide::read_front, crate::proofs::SideBySide::read_back, crate::proofs::SideBySide::beside_in_range, crate::proofs::SideBySide::beside_fits, crate::proofs::SideBySide::read_merged, crate::proofs::SideBySide::merged_in_range, crate::proofs::SideBySide::merged_fits))]
pub fn merging_laws()
    ensures front { FrontReads }
    ensures back { BackReads }
    ensures beside_in_range { BesideIsInRange }
    ensures beside_fits { BesideFits }
    ensures merged { MergedReads }
    ensures merged_in_range { MergedIsInRange }
    ensures merged_fits { MergedFits }
{}

/// A system with distinct left sides has a solution for all values of the parameters, and no two.
///
/// This is the unique solution of a regular system of equations among the infinite trees (Courcelle, "Fundamental
/// Properties of Infinite Trees"), with parameters (Maher, "Complete Axiomatizations of the Algebras of Finite,
/// Rational and Infinite Trees").
pub fn solution_laws()
    ensures solution { HasSolution }
    ensures unique { SolutionIsUnique }
    ensures unique_below { SolutionIsUniqueBelow }
    ensures of_constants { HasSolutionOfConstants }
{}

/// What stands in a finite tree is finite, a tree that stands in itself is not, and a term is finite exactly where its
/// arguments are.
pub fn finite_laws()
    ensures root { RootIsRead }
    ensures past { NothingPastTheChildren }
    ensures subtree { SubtreeIsFinite }
    ensures own_subtree { OwnSubtreeIsInfinite }
    ensures term { TermIsFiniteWhereArgumentsAre }
{}

/// The places of a list of nodes at which a finite tree stands: those from which no walk comes round.
pub fn graph_laws()
    ensures node { NodeIsFiniteWhereChildrenAre }
    ensures none { NoneIsFiniteWhereEachGoesOn }
    ensures grounded { FiniteIsGrounded }
    ensures no_round { FiniteWhereNoWalkComesRound }
{}

/// Under a solution a variable is finite exactly where all walks from it along the equations end at finite parameters.
pub fn walk_laws()
    ensures reached { ReachedStandsInside }
    ensures below { BelowStandsInside }
    ensures round { RoundIsInfinite }
    ensures ends { FiniteWhereWalksEnd }
{}

/// Numbers with a property, and which of them lead to which, for a law to speak of.
pub trait Steps {
    /// The numbers.
    ghost Good: { ℕ → Type 0 };

    /// The first number leads to the second.
    ghost Leads: { ℕ → ℕ → Type 0 };
}

/// Trees are finite where no walk among them comes round.
pub fn no_round_law<S: Steps>()
    ensures finite { FiniteWhereNoneComesRound S.Good S.Leads }
{}

/// An equation under new numbers means what it did under the values of these numbers.
pub fn renumbering_laws()
    ensures equation { RenumberedHolds }
    ensures system { RenumberedSolves }
{}

/// Finitely many trees leave an index unused. With each index goes a finite tree, `$k`, and one that is not, `x = $k(x)`.
pub fn index_laws()
    ensures below { ReadIndexIsBelow }
    ensures unused { UnusedIndex }
    ensures constant { ConstantIsApplied }
    ensures constant_finite { ConstantIsFinite }
    ensures looped { LoopIsApplied }
    ensures loop_infinite { LoopIsInfinite }
    ensures apart { ConstantsDiffer }
{}
