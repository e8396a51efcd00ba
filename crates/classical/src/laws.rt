//! The laws of stable facts, as the clauses of a function that does nothing.
ghost use Rattle.classical.specs.Laws.{BothIsStable, ImpliesIsStable, NotIsStable, EachIsStable, EitherIsStable, ExistsIsStable, HoldsOrNot, ByCases, EqualNumbersAreStable};

/// Facts for the laws to speak of, since a clause cannot range over all facts by itself.
pub trait Facts {
    /// A fact.
    ghost first: { Type 0 };

    /// Another fact.
    ghost second: { Type 0 };

    /// What the property is of.
    ghost Item: { Type 0 };

    /// A property of items.
    ghost each: { Item → Type 0 };
}

/// What is stable, and that a stable fact may be shown by cases on any fact.
#[tactic(auto, using(crate::proofs::Stable::and_stable, crate::proofs::Stable::imp_stable, crate::proofs::Stable::not_stable, crate::proofs::Stable::all_stable, crate::proofs::Stable::either_way, crate::proofs::Codes::nat_stable))]
pub fn stable_laws<F: Facts>()
    ensures both { BothIsStable F.first F.second }
    ensures implies { ImpliesIsStable F.first F.second }
    ensures negation { NotIsStable F.first }
    ensures each { EachIsStable F.each }
    ensures either { EitherIsStable F.first F.second }
    ensures exists { ExistsIsStable F.each }
    ensures middle { HoldsOrNot F.first }
    ensures cases { ByCases F.first F.second }
    ensures numbers { EqualNumbersAreStable }
{}
