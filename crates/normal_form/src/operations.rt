//! Conjunction, disjunction, negation and quantifiers on lists of cubes.
ghost use Rattle.std.specs.Prelude.{◌≡◌, ℕ, ◌-◌, ◌≤◌, ◌++◌, ◌↔◌, ◌∷◌, [], List, All, Contains, IfOk, OnOk};
ghost use Rattle.classical.specs.Classical.{Either, Exists};
ghost use Rattle.lists.specs.Distinct.{IsDistinct};
ghost use Rattle.tree_model.specs.Signatures.{Signature};
ghost use Rattle.tree_model.specs.Valuations.{Valuation};
ghost use Rattle.flat_form.specs.declared.cube.Cube.{Cube};
ghost use Rattle.flat_form.specs.Meanings.{Extends, SomeHolds};
ghost use Rattle.flat_form.specs.Numbering.{CubesOver, IsWellNumbered};
ghost use Rattle.flat_form.specs.Reduced.{IsReduced};
ghost use Rattle.flat_form.specs.Symbols.{CubesFit, cubes_symbols};
ghost use Rattle.step_facts.specs.Lists.{KeepsFirst, IsAnd, IsOr, IsNot, IsExists};

use crate::memory::Memory;
use crate::raws::{deny, open};
use crate::taking::{push_new, take, take_all, take_joined};
use flat_form::{Basic, Cube, Cubes, Parts};
use lists::{Copied, NoMemory};
use std::alloc::Global;

// The list of the joins of each cube of the one list with each of the other, but for joins that are remembered.
pub(crate) fn and_by(
    alloc: Global,
    memory: &mut Memory,
    a: &Cubes,
    b: &Cubes,
) -> Result<Cubes, NoMemory>
    requires { (n : ℕ) × CubesOver n a.now × CubesOver n b.now }
    ensures over { IfOk result (λ out. (n : ℕ) → CubesOver n a.now → CubesOver n b.now → CubesOver n out) }
    ensures exactly { IfOk result (IsAnd a.now b.now) }
{
    let mut out = Cubes::new(alloc);
    for one in a.as_slice() {
        take_joined(alloc, memory, &mut out, one, b.as_slice())?;
    }
    Ok(out)
}

/// A list of reduced cubes of which one holds exactly where one of each list does.
pub fn and(alloc: Global, a: &Cubes, b: &Cubes) -> Result<Cubes, NoMemory>
    requires { (n : ℕ) × CubesOver n a.now × CubesOver n b.now }
    ensures over { IfOk result (λ out. (n : ℕ) → CubesOver n a.now → CubesOver n b.now → CubesOver n out) }
    ensures exactly { IfOk result (IsAnd a.now b.now) }
    ensures reduced { IfOk result (λ out. (σ : Signature) → CubesFit σ a.now → CubesFit σ b.now → All IsReduced out × IsDistinct out) }
    ensures symbols { IfOk result (λ out. All (Contains (cubes_symbols a.now ++ cubes_symbols b.now)) (cubes_symbols out)) }
    ensures means { IfOk result (λ out. (σ : Signature) (e : Valuation σ) → CubesFit σ a.now → CubesFit σ b.now
        → SomeHolds e out ↔ (SomeHolds e a.now × SomeHolds e b.now)) }
{
    and_by(alloc, &mut Memory::new(alloc), a, b)
}

// Puts each cube last, unless it is one of those so far.
fn push_each(alloc: Global, out: &mut Cubes, cubes: &[Cube]) -> Result<(), NoMemory>
    ensures { OnOk result ((rest all : List Cube) → KeepsFirst out.new rest all → KeepsFirst out.old (cubes.now ++ rest) all) }
{
    for cube in cubes {
        push_new(out, cube.copy(alloc)?)?;
    }
    Ok(())
}

/// A list of which one cube holds exactly where one of one of the lists does: their cubes, each once.
pub fn or(alloc: Global, a: &Cubes, b: &Cubes) -> Result<Cubes, NoMemory>
    ensures over { IfOk result (λ out. (n : ℕ) → CubesOver n a.now → CubesOver n b.now → CubesOver n out) }
    ensures exactly { IfOk result (IsOr a.now b.now) }
    ensures reduced { IfOk result (λ out. All IsReduced a.now → All IsReduced b.now → All IsReduced out × IsDistinct out) }
    ensures symbols { IfOk result (λ out. All (Contains (cubes_symbols a.now ++ cubes_symbols b.now)) (cubes_symbols out)) }
    ensures means { IfOk result (λ out. (σ : Signature) (e : Valuation σ) → SomeHolds e out ↔ Either (SomeHolds e a.now) (SomeHolds e b.now)) }
{
    let mut out = Cubes::new(alloc);
    push_each(alloc, &mut out, a.as_slice())?;
    push_each(alloc, &mut out, b.as_slice())?;
    Ok(out)
}

// The cube that holds everywhere, over so many free variables, alone.
fn everywhere(alloc: Global, free: usize) -> Result<Cubes, NoMemory>
    ensures { IfOk result (λ out. out ≡ record { free = free; outer = 0; basic = []; parts = [] } ∷ []) }
{
    let mut out = Cubes::new(alloc);
    out.push(Cube {
        free,
        outer: 0,
        basic: Basic::new(alloc),
        parts: Parts::new(alloc),
    })?;
    Ok(out)
}

// The list of the negation, but for joins that are remembered.
pub(crate) fn not_by(
    alloc: Global,
    memory: &mut Memory,
    free: usize,
    a: &Cubes,
) -> Result<Cubes, NoMemory>
    requires { CubesOver free a.now }
    ensures over { IfOk result (CubesOver free) }
    ensures exactly { IfOk result (IsNot free a.now) }
{
    let mut out = everywhere(alloc, free)?;
    for cube in a.as_slice() {
        let raws = deny(alloc, cube)?;
        let negation = take_all(alloc, memory, raws.as_slice())?;
        out = and_by(alloc, memory, &out, &negation)?;
    }
    Ok(out)
}

/// A list of reduced cubes of which one holds exactly where no cube of the list does. They are over `free` variables.
pub fn not(alloc: Global, free: usize, a: &Cubes) -> Result<Cubes, NoMemory>
    requires { CubesOver free a.now }
    ensures over { IfOk result (CubesOver free) }
    ensures exactly { IfOk result (IsNot free a.now) }
    ensures reduced { IfOk result (λ out. (σ : Signature) → CubesFit σ a.now → All IsReduced out × IsDistinct out) }
    ensures symbols { IfOk result (λ out. All (Contains (cubes_symbols a.now)) (cubes_symbols out)) }
    ensures means { IfOk result (λ out. (σ : Signature) (e : Valuation σ) → CubesFit σ a.now → All IsReduced a.now
        → SomeHolds e out ↔ (¬ SomeHolds e a.now)) }
{
    not_by(alloc, &mut Memory::new(alloc), free, a)
}

// The list with its last so many variables quantified, but for parts that are remembered.
pub(crate) fn exists_by(
    alloc: Global,
    memory: &mut Memory,
    quantified: usize,
    a: &Cubes,
) -> Result<Cubes, NoMemory>
    requires { All (λ (cube : Cube). (quantified ≤ cube.free) × IsWellNumbered cube) a.now }
    ensures over { IfOk result (λ out. (n : ℕ) → CubesOver n a.now → CubesOver (n - quantified) out) }
    ensures exactly { IfOk result (IsExists quantified a.now) }
{
    let mut out = Cubes::new(alloc);
    for cube in a.as_slice() {
        let raw = open(alloc, quantified, cube)?;
        take(alloc, memory, &mut out, raw)?;
    }
    Ok(out)
}

/// A list of reduced cubes of which one holds exactly where, for some values of the last so many variables, a cube of the
/// list does.
pub fn exists(alloc: Global, quantified: usize, a: &Cubes) -> Result<Cubes, NoMemory>
    requires { All (λ (cube : Cube). (quantified ≤ cube.free) × IsWellNumbered cube) a.now }
    ensures over { IfOk result (λ out. (n : ℕ) → CubesOver n a.now → CubesOver (n - quantified) out) }
    ensures exactly { IfOk result (IsExists quantified a.now) }
    ensures reduced { IfOk result (λ out. (σ : Signature) (n : ℕ) → CubesFit σ a.now → CubesOver n a.now → All IsReduced out × IsDistinct out) }
    ensures symbols { IfOk result (λ out. All (Contains (cubes_symbols a.now)) (cubes_symbols out)) }
    ensures means { IfOk result (λ out. (σ : Signature) (n : ℕ) (e : Valuation σ) → CubesFit σ a.now → CubesOver n a.now
        → SomeHolds e out ↔ Exists (λ (d : Valuation σ). Extends (n - quantified) e d × SomeHolds d a.now)) }
{
    exists_by(alloc, &mut Memory::new(alloc), quantified, a)
}
