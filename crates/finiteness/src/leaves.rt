//! The variables without a term at which walks end.
ghost use Rattle.std.specs.Prelude.{◌≡◌, ℕ, ◌<◌, ◌-◌, length, slice_index, IsTrue, IfOk, OnOk, ◌↔◌, ◌⊎◌, Contains};
ghost use Rattle.std.specs.List.Sorted.{IsNonDecreasing, IsStrictlyIncreasing};
ghost use Rattle.flat_form.specs.Solved.{Ascends};
ghost use Rattle.finiteness.specs.Marks.{IsBareIn, IsLeafAt};

use crate::lookup::term_place;
use crate::search::Mark;
use flat_form::{Args, Basic, Flat};
use std::alloc::Global;
use tree_model::{NoMemory, Places};

// Adds the arguments that have no term.
fn gather(b: &Basic, xs: &Args, found: &mut Vec<usize>) -> Result<(), NoMemory>
    requires { Ascends b.now }
    ensures { OnOk result ((u : ℕ) → Contains found.new.items u ↔ (Contains found.old.items u ⊎ IsBareIn b.now xs.now u)) }
{
    for &x in xs.as_slice() {
        match term_place(b, x) {
            Some(_) => {}
            None => found.push(x)?,
        }
    }
    Ok(())
}

// Adds those of the term at this place, where it is done.
fn gather_at(
    b: &Basic,
    marks: &[Mark],
    place: usize,
    found: &mut Vec<usize>,
) -> Result<(), NoMemory>
    requires ascending { Ascends b.now }
    requires size { length marks.now ≡ length b.now }
    requires within { place < length b.now }
    ensures { OnOk result ((u : ℕ) → Contains found.new.items u ↔ (Contains found.old.items u ⊎ IsLeafAt b.now marks.now place u)) }
{
    let Flat::VarTerm(_, _, xs) = b.get(place) else {
        return Ok(());
    };
    match marks[place] {
        Mark::New => Ok(()),
        Mark::Open => Ok(()),
        Mark::Done => gather(b, xs, found),
    }
}

// The arguments of done terms that have no term.
fn gather_all(alloc: Global, b: &Basic, marks: &[Mark]) -> Result<Vec<usize>, NoMemory>
    requires ascending { Ascends b.now }
    requires size { length marks.now ≡ length b.now }
    ensures { IfOk result (λ found. (u : ℕ) → Contains found.items u ↔ ((place : ℕ) × IsLeafAt b.now marks.now place u)) }
{
    let mut found = Vec::new(alloc);
    for place in 0..b.len() {
        gather_at(b, marks, place, &mut found)?;
    }
    Ok(found)
}

// Whether the number at this place stands just before it too.
fn is_repeated(numbers: &[usize], i: usize) -> bool
    requires { i < length numbers.now }
    ensures { IsTrue result ↔ ((0 < i) × (slice_index numbers.now (i - 1) ≡ slice_index numbers.now i)) }
{
    i > 0 && numbers[i - 1] == numbers[i]
}

// The numbers, each once.
fn each_once(alloc: Global, numbers: &[usize]) -> Result<Places, NoMemory>
    requires { IsNonDecreasing numbers.now }
    ensures ascending { IfOk result IsStrictlyIncreasing }
    ensures same { IfOk result (λ once. (u : ℕ) → Contains once u ↔ Contains numbers.now u) }
{
    let mut once = Places::new(alloc);
    for i in 0..numbers.len() {
        if !is_repeated(numbers, i) {
            once.push(numbers[i])?;
        }
    }
    Ok(once)
}

/// The arguments of done terms that have no term, each once, in ascending order.
pub(crate) fn leaves(alloc: Global, b: &Basic, marks: &[Mark]) -> Result<Places, NoMemory>
    requires ascending { Ascends b.now }
    requires size { length marks.now ≡ length b.now }
    ensures ascending { IfOk result IsStrictlyIncreasing }
    ensures exact { IfOk result (λ leaves. (u : ℕ) → Contains leaves u ↔ ((place : ℕ) × IsLeafAt b.now marks.now place u)) }
{
    let mut found = gather_all(alloc, b, marks)?;
    found.as_mut_slice().sort_unstable();
    each_once(alloc, found.as_slice())
}
