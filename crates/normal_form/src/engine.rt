// What solves negated conjunctions.
ghost use Rattle.std.specs.Prelude.{ℕ, ◌↔◌, List, [], ◌∷◌, All, Contains, IfOk};
ghost use Rattle.lists.specs.Distinct.{IsDistinct};
ghost use Rattle.tree_model.specs.Signatures.{Signature};
ghost use Rattle.tree_model.specs.Valuations.{Valuation};
ghost use Rattle.flat_form.specs.declared.cube.Cube.{Cube};
ghost use Rattle.flat_form.specs.Fitting.{NormFits};
ghost use Rattle.flat_form.specs.Meanings.{SomeHolds, NormHolds};
ghost use Rattle.flat_form.specs.Normals.{Norm, norm_of, norms_of};
ghost use Rattle.flat_form.specs.Numbering.{BasicOver, CubesOver, NormOver, NormsOver};
ghost use Rattle.flat_form.specs.Reduced.{IsReduced};
ghost use Rattle.flat_form.specs.Symbols.{norm_symbols, cubes_symbols};
ghost use Rattle.step_facts.specs.Lists.{TakesSteps, IsJoined, IsPlain, PlainLists};

use crate::memory::Memory;
use crate::operations::{and_by, exists_by, not_by};
use crate::taking::take;
use flat_form::{Basic, Cube, Cubes, Normal, Normals, Parts};
use lists::{Copied, NoMemory};
use std::alloc::Global;

/// What solves negated conjunctions.
///
/// An answer is a list of distinct reduced cubes over the free variables, of which some cube holds exactly where the
/// negated conjunction does.
pub trait Engine {
    /// The lists that may be given for a negated conjunction over so many free variables. No call changes which these are.
    ghost gives: { ℕ → Norm → List Cube → Type 0 };

    /// A list of the negated conjunction over `free` variables.
    fn solve(&mut self, alloc: Global, free: usize, n: &Normal) -> Result<Cubes, NoMemory>
        requires { NormOver free (norm_of n.now) }
        ensures over { IfOk result (CubesOver free) }
        ensures given { IfOk result (λ out. (σ : Signature) → NormFits σ (norm_of n.now) → gives free (norm_of n.now) out) }
        ensures reduced { IfOk result (λ out. (σ : Signature) → NormFits σ (norm_of n.now) → All IsReduced out) }
        ensures distinct { IfOk result IsDistinct }
        ensures symbols { IfOk result (λ out. (σ : Signature) → NormFits σ (norm_of n.now) → All (Contains (norm_symbols (norm_of n.now))) (cubes_symbols out)) }
        ensures meaning { IfOk result (λ out. (σ : Signature) (e : Valuation σ) → NormFits σ (norm_of n.now) → SomeHolds e out ↔ NormHolds free e (norm_of n.now)) };
}

/// The engine that takes a nest apart from the inside out: its answers are the plain lists alone.
#[derive(Clone, Copy, Debug, Drop)]
pub struct PlainEngine;

impl Engine for PlainEngine {
    ghost gives = { IsPlain };

    fn solve(&mut self, alloc: Global, free: usize, n: &Normal) -> Result<Cubes, NoMemory> {
        plain(alloc, &mut Memory::new(alloc), free, n)
    }
}

// The list of the atoms alone, over so many free variables.
fn first(alloc: Global, memory: &mut Memory, free: usize, basic: &Basic) -> Result<Cubes, NoMemory>
    requires { BasicOver free basic.now }
    ensures over { IfOk result (CubesOver free) }
    ensures takes { IfOk result (TakesSteps [] (record { free = free; outer = 0; basic = basic.now; parts = [] } ∷ [])) }
{
    let raw = Cube {
        free,
        outer: 0,
        basic: basic.copy(alloc)?,
        parts: Parts::new(alloc),
    };
    let mut out = Cubes::new(alloc);
    take(alloc, memory, &mut out, raw)?;
    Ok(out)
}

// The list, joined with that of each part.
#[cycle(plain)]
fn with_parts(
    alloc: Global,
    memory: &mut Memory,
    free: usize,
    first: Cubes,
    parts: &Normals,
) -> Result<Cubes, NoMemory>
    requires first { CubesOver free first }
    requires parts { NormsOver free (norms_of parts.now) }
    ensures over { IfOk result (CubesOver free) }
    ensures joined { IfOk result (λ all. (lists : List (List Cube)) × PlainLists free (norms_of parts.now) lists × IsJoined first lists all) }
{
    let mut all = first;
    for i in 0..parts.len() {
        let list = plain(alloc, memory, free, parts.get(i))?;
        all = and_by(alloc, memory, &all, &list)?;
    }
    Ok(all)
}

// The list of the negated conjunction, from the inside out.
#[cycle(plain)]
fn plain(alloc: Global, memory: &mut Memory, free: usize, n: &Normal) -> Result<Cubes, NoMemory>
    requires { NormOver free (norm_of n.now) }
    ensures over { IfOk result (CubesOver free) }
    ensures exactly { IfOk result (IsPlain free (norm_of n.now)) }
{
    let Some(count) = free.checked_add(n.bound) else {
        return Err(NoMemory);
    };
    let first = first(alloc, memory, count, &n.basic)?;
    let all = with_parts(alloc, memory, count, first, &n.parts)?;
    let shut = exists_by(alloc, memory, n.bound, &all)?;
    not_by(alloc, memory, free, &shut)
}
