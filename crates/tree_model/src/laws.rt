//! Laws of the definitions, each a clause of a function that does nothing.
ghost use Rattle.tree_model.specs.Laws.{SameIsReflexive, SameIsSymmetric, SameIsTransitive, FiniteRespectsSame, ReadingIsStable, SameIsStable, FiniteIsStable, RootIsStable, FitsIsStable};

/// Being one tree is an equivalence, and graphs that are one tree are finite together.
#[tactic(auto, using(crate::proofs::Sameness::same_refl, crate::proofs::Sameness::same_sym, crate::proofs::Sameness::same_trans, crate::proofs::Sameness::finite_same))]
pub fn sameness_laws()
    ensures reflexive { SameIsReflexive }
    ensures symmetric { SameIsSymmetric }
    ensures transitive { SameIsTransitive }
    ensures finite { FiniteRespectsSame }
{}

/// What is read, being one tree, finiteness and fitting a signature mean the same in classical logic.
#[tactic(auto, using(crate::proofs::Stability::read_stable, crate::proofs::Stability::same_stable, crate::proofs::Stability::finite_stable, crate::proofs::Stability::root_stable, crate::proofs::Stability::fits_stable))]
pub fn stability_laws()
    ensures reading { ReadingIsStable }
    ensures same { SameIsStable }
    ensures finite { FiniteIsStable }
    ensures root { RootIsStable }
    ensures fits { FitsIsStable }
{}
