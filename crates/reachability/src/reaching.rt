//! Which variables the first ones reach along terms.
ghost use Rattle.std.specs.Prelude.{ℕ, ◌≡◌, ◌<◌, ◌≤◌, ◌+◌, ◌*◌, List, length, IfOk, OnOk, MatchBool, All, Contains, ◌↔◌};
ghost use Rattle.flat_form.specs.declared.atom.Flat.{Flat};
ghost use Rattle.flat_form.specs.Numbering.{AtomOver, BasicOver};
ghost use Rattle.flat_form.specs.Parts.{Under};
ghost use Rattle.reachability.specs.Flags.{IsSet, left_over, AreUnder, IsPassedOn, AreReached};
ghost use Rattle.reachability.specs.Places.{ArePlaces};

use crate::places::{atom_of, places_of};
use flat_form::{Basic, Flat};
use lists::NoMemory;
use std::alloc::Global;

// A list with so many atoms is gone through again and again, which takes no memory.
const SHORT: usize = 16;

// Marks the variable. Whether it was not.
fn mark(marks: &mut [bool], v: usize) -> bool
    requires within { v < length marks.old }
    ensures size { length marks.new ≡ length marks.old }
    ensures kept { (first : ℕ) (atoms : List Flat) → Under first atoms v → AreUnder first atoms marks.old → AreUnder first atoms marks.new }
    ensures told { MatchBool result (left_over marks.new < left_over marks.old) ((marks.new ≡ marks.old) × IsSet marks.old v) }
{
    if marks[v] {
        return false;
    }
    marks[v] = true;
    true
}

// Marks the variables. Whether one was not.
fn mark_all(marks: &mut [bool], xs: &[usize]) -> bool
    requires within { All (λ x. x < length marks.old) xs.now }
    ensures size { length marks.new ≡ length marks.old }
    ensures kept { (first : ℕ) (atoms : List Flat) → All (Under first atoms) xs.now → AreUnder first atoms marks.old → AreUnder first atoms marks.new }
    ensures told { MatchBool result (left_over marks.new < left_over marks.old) ((marks.new ≡ marks.old) × All (IsSet marks.old) xs.now) }
{
    let mut changed = false;
    for &x in xs {
        if mark(marks, x) {
            changed = true;
        }
    }
    changed
}

// Marks the arguments of a marked variable's term. Whether one was not.
fn pass_on(marks: &mut [bool], atom: &Flat) -> bool
    requires over { AtomOver (length marks.old) atom.now }
    ensures size { length marks.new ≡ length marks.old }
    ensures kept { (first : ℕ) (atoms : List Flat) → Contains atoms atom.now → AreUnder first atoms marks.old → AreUnder first atoms marks.new }
    ensures told { MatchBool result (left_over marks.new < left_over marks.old) ((marks.new ≡ marks.old) × IsPassedOn marks.old atom.now) }
{
    match atom {
        Flat::VarVar(_, _) => false,
        Flat::VarTerm(u, _, xs) => {
            if !marks[*u] {
                return false;
            }
            mark_all(marks, xs.as_slice())
        }
        Flat::Finite(_) => false,
    }
}

// Does so for each atom once.
fn pass_all_on(marks: &mut [bool], atoms: &[Flat]) -> bool
    requires over { BasicOver (length marks.old) atoms.now }
    ensures size { length marks.new ≡ length marks.old }
    ensures kept { (first : ℕ) → AreUnder first atoms.now marks.old → AreUnder first atoms.now marks.new }
    ensures told { MatchBool result (left_over marks.new < left_over marks.old) ((marks.new ≡ marks.old) × All (IsPassedOn marks.old) atoms.now) }
{
    let mut changed = false;
    for atom in atoms {
        if pass_on(marks, atom) {
            changed = true;
        }
    }
    changed
}

// Marks the variable. Where it was not, it is put on the stack.
fn reach(marks: &mut [bool], stack: &mut Vec<usize>, v: usize) -> Result<(), NoMemory>
    requires within { v < length marks.old }
    ensures size { length marks.new ≡ length marks.old }
    ensures kept { (first : ℕ) (atoms : List Flat) → Under first atoms v → AreUnder first atoms marks.old → AreUnder first atoms marks.new }
    ensures stack { OnOk result (All (λ x. x < length marks.old) stack.old.items → All (λ x. x < length marks.old) stack.new.items) }
    ensures less { OnOk result (2 * left_over marks.new + length stack.new.items ≤ 2 * left_over marks.old + length stack.old.items) }
{
    if mark(marks, v) {
        stack.push(v)?;
    }
    Ok(())
}

// Does so for each of the variables.
fn reach_all(marks: &mut [bool], stack: &mut Vec<usize>, xs: &[usize]) -> Result<(), NoMemory>
    requires within { All (λ x. x < length marks.old) xs.now }
    ensures size { length marks.new ≡ length marks.old }
    ensures kept { (first : ℕ) (atoms : List Flat) → All (Under first atoms) xs.now → AreUnder first atoms marks.old → AreUnder first atoms marks.new }
    ensures stack { OnOk result (All (λ x. x < length marks.old) stack.old.items → All (λ x. x < length marks.old) stack.new.items) }
    ensures less { OnOk result (2 * left_over marks.new + length stack.new.items ≤ 2 * left_over marks.old + length stack.old.items) }
{
    for &x in xs {
        reach(marks, stack, x)?;
    }
    Ok(())
}

// Does so for the arguments of a marked variable's term.
fn reach_on(marks: &mut [bool], stack: &mut Vec<usize>, atom: &Flat) -> Result<(), NoMemory>
    requires over { AtomOver (length marks.old) atom.now }
    ensures size { length marks.new ≡ length marks.old }
    ensures kept { (first : ℕ) (atoms : List Flat) → Contains atoms atom.now → AreUnder first atoms marks.old → AreUnder first atoms marks.new }
    ensures stack { OnOk result (All (λ x. x < length marks.old) stack.old.items → All (λ x. x < length marks.old) stack.new.items) }
    ensures less { OnOk result (2 * left_over marks.new + length stack.new.items ≤ 2 * left_over marks.old + length stack.old.items) }
{
    match atom {
        Flat::VarVar(_, _) => Ok(()),
        Flat::VarTerm(u, _, xs) => {
            if !marks[*u] {
                return Ok(());
            }
            reach_all(marks, stack, xs.as_slice())
        }
        Flat::Finite(_) => Ok(()),
    }
}

// Does so for each atom.
fn reach_from_all(
    marks: &mut [bool],
    stack: &mut Vec<usize>,
    atoms: &[Flat],
) -> Result<(), NoMemory>
    requires over { BasicOver (length marks.old) atoms.now }
    ensures size { length marks.new ≡ length marks.old }
    ensures kept { (first : ℕ) → AreUnder first atoms.now marks.old → AreUnder first atoms.now marks.new }
    ensures stack { OnOk result (All (λ x. x < length marks.old) stack.old.items → All (λ x. x < length marks.old) stack.new.items) }
{
    for atom in atoms {
        reach_on(marks, stack, atom)?;
    }
    Ok(())
}

// Does so for the atom that the table has for the variable.
fn reach_below(
    places: &[Option<usize>],
    marks: &mut [bool],
    stack: &mut Vec<usize>,
    atoms: &Basic,
    v: usize,
) -> Result<(), NoMemory>
    requires places { ArePlaces (length atoms.now) atoms.now places.now }
    requires within { v < length places.now }
    requires over { BasicOver (length marks.old) atoms.now }
    ensures size { length marks.new ≡ length marks.old }
    ensures kept { (first : ℕ) → AreUnder first atoms.now marks.old → AreUnder first atoms.now marks.new }
    ensures stack { OnOk result (All (λ x. x < length marks.old) stack.old.items → All (λ x. x < length marks.old) stack.new.items) }
    ensures less { OnOk result (2 * left_over marks.new + length stack.new.items ≤ 2 * left_over marks.old + length stack.old.items) }
{
    match atom_of(places, atoms, v) {
        Some(atom) => reach_on(marks, stack, atom),
        None => Ok(()),
    }
}

// Goes along terms from the marked variables, and marks each variable on the way.
fn spread(alloc: Global, marks: &mut [bool], atoms: &Basic) -> Result<(), NoMemory>
    requires over { BasicOver (length marks.old) atoms.now }
    ensures size { length marks.new ≡ length marks.old }
    ensures kept { (first : ℕ) → AreUnder first atoms.now marks.old → AreUnder first atoms.now marks.new }
{
    let places = places_of(alloc, marks.len(), atoms)?;
    let mut stack = Vec::new(alloc);
    reach_from_all(marks, &mut stack, atoms.as_slice())?;
    while let Some(v) = stack.pop() {
        reach_below(places.as_slice(), marks, &mut stack, atoms, v)?;
    }
    Ok(())
}

// Flags for so many variables, those of the first ones set.
fn first_marked(alloc: Global, first: usize, count: usize) -> Result<Vec<bool>, NoMemory>
    requires within { first ≤ count }
    ensures size { IfOk result (λ marks. length marks.items ≡ count) }
    ensures marked { IfOk result (λ marks. (v : ℕ) → IsSet marks.items v ↔ (v < first)) }
{
    let mut marks = vec![in alloc; false; count]?;
    for v in 0..first {
        marks[v] = true;
    }
    Ok(marks)
}

// Marks what the marked variables reach along terms. A walk does so in a long list; the passes find that no mark is
// missing.
fn mark_reached(alloc: Global, marks: &mut [bool], atoms: &Basic) -> Result<(), NoMemory>
    requires over { BasicOver (length marks.old) atoms.now }
    ensures size { length marks.new ≡ length marks.old }
    ensures kept { (first : ℕ) → AreUnder first atoms.now marks.old → AreUnder first atoms.now marks.new }
    ensures passed { OnOk result (All (IsPassedOn marks.new) atoms.now) }
{
    if atoms.len() > SHORT {
        spread(alloc, marks, atoms)?;
    }
    let mut changed = true;
    while changed {
        changed = pass_all_on(marks, atoms.as_slice());
    }
    Ok(())
}

/// A flag for each of `count` variables, set where the variables below `first` reach it along terms.
pub fn reached(
    alloc: Global,
    count: usize,
    first: usize,
    atoms: &Basic,
) -> Result<Vec<bool>, NoMemory>
    requires over { BasicOver count atoms.now }
    requires within { first ≤ count }
    ensures { IfOk result (λ marks. AreReached first count atoms.now marks.items) }
{
    let mut marks = first_marked(alloc, first, count)?;
    mark_reached(alloc, marks.as_mut_slice(), atoms)?;
    Ok(marks)
}
