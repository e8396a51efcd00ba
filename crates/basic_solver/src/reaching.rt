//! Which classes are reached along terms from those with a finite atom.
ghost use Rattle.std.specs.Prelude.{◌≡◌, ℕ, ◌<◌, ◌≤◌, ◌+◌, ◌*◌, List, length, IfOk, OnOk, MatchBool, All, Contains};
ghost use Rattle.flat_form.specs.declared.atom.Flat.{Flat};
ghost use Rattle.flat_form.specs.Classes.{Reached};
ghost use Rattle.flat_form.specs.Numbering.{AtomOver, BasicOver};
ghost use Rattle.basic_solver.specs.Names.{IsSound};
ghost use Rattle.basic_solver.specs.Flags.{AreNames, AreClasses, IsSet, left_over, AreReached, IsPassedOn};
ghost use Rattle.basic_solver.specs.Terms.{HavePlaces};

use crate::terms::term_of;
use flat_form::{Args, Basic, Flat};
use std::alloc::Global;
use tree_model::NoMemory;

// Marks the class of the variable. Whether it was not.
fn mark(names: &[usize], marks: &mut Vec<bool>, v: usize) -> bool
    requires names { AreNames names.now }
    requires size { length marks.old.items ≡ length names.now }
    requires within { v < length names.now }
    ensures size { length marks.new.items ≡ length names.now }
    ensures kept { (atoms : List Flat) → AreClasses names.now atoms → Reached atoms v
        → AreReached names.now atoms marks.old.items → AreReached names.now atoms marks.new.items }
    ensures told { MatchBool result (left_over marks.new.items < left_over marks.old.items)
        ((marks.new.items ≡ marks.old.items) × IsSet names.now marks.old.items v) }
{
    let name = names[v];
    if marks[name] {
        return false;
    }
    marks[name] = true;
    true
}

// Marks the classes of the variables. Whether one was not.
fn mark_all(names: &[usize], marks: &mut Vec<bool>, xs: &Args) -> bool
    requires names { AreNames names.now }
    requires size { length marks.old.items ≡ length names.now }
    requires within { All (λ x. x < length names.now) xs.now }
    ensures size { length marks.new.items ≡ length names.now }
    ensures kept { (atoms : List Flat) → AreClasses names.now atoms → All (Reached atoms) xs.now
        → AreReached names.now atoms marks.old.items → AreReached names.now atoms marks.new.items }
    ensures told { MatchBool result (left_over marks.new.items < left_over marks.old.items)
        ((marks.new.items ≡ marks.old.items) × All (IsSet names.now marks.old.items) xs.now) }
{
    let mut changed = false;
    for i in 0..xs.len() {
        if mark(names, marks, *xs.get(i)) {
            changed = true;
        }
    }
    changed
}

// Marks the class of a finite atom, and the arguments of a term of a marked class. Whether one was not.
fn pass_on(names: &[usize], marks: &mut Vec<bool>, atom: &Flat) -> bool
    requires names { AreNames names.now }
    requires size { length marks.old.items ≡ length names.now }
    requires over { AtomOver (length names.now) atom.now }
    ensures size { length marks.new.items ≡ length names.now }
    ensures kept { (atoms : List Flat) → AreClasses names.now atoms → Contains atoms atom.now
        → AreReached names.now atoms marks.old.items → AreReached names.now atoms marks.new.items }
    ensures told { MatchBool result (left_over marks.new.items < left_over marks.old.items)
        ((marks.new.items ≡ marks.old.items) × IsPassedOn names.now marks.old.items atom.now) }
{
    match atom {
        Flat::VarVar(_, _) => false,
        Flat::VarTerm(u, _, xs) => {
            let name = names[*u];
            if !marks[name] {
                return false;
            }
            mark_all(names, marks, xs)
        }
        Flat::Finite(u) => mark(names, marks, *u),
    }
}

// Does so for each atom once.
fn pass_all_on(names: &[usize], marks: &mut Vec<bool>, atoms: &Basic) -> bool
    requires names { AreNames names.now }
    requires size { length marks.old.items ≡ length names.now }
    requires over { BasicOver (length names.now) atoms.now }
    ensures size { length marks.new.items ≡ length names.now }
    ensures kept { AreClasses names.now atoms.now → AreReached names.now atoms.now marks.old.items → AreReached names.now atoms.now marks.new.items }
    ensures told { MatchBool result (left_over marks.new.items < left_over marks.old.items)
        ((marks.new.items ≡ marks.old.items) × All (IsPassedOn names.now marks.old.items) atoms.now) }
{
    let mut changed = false;
    for i in 0..atoms.len() {
        if pass_on(names, marks, atoms.get(i)) {
            changed = true;
        }
    }
    changed
}

// Marks the class of the variable. Where it was not, it is put on the stack.
fn reach(
    names: &[usize],
    marks: &mut Vec<bool>,
    stack: &mut Vec<usize>,
    v: usize,
) -> Result<(), NoMemory>
    requires names { AreNames names.now }
    requires size { length marks.old.items ≡ length names.now }
    requires within { v < length names.now }
    ensures size { length marks.new.items ≡ length names.now }
    ensures kept { (atoms : List Flat) → AreClasses names.now atoms → Reached atoms v
        → AreReached names.now atoms marks.old.items → AreReached names.now atoms marks.new.items }
    ensures stack { OnOk result (All (λ name. name < length names.now) stack.old.items → All (λ name. name < length names.now) stack.new.items) }
    ensures less { OnOk result (2 * left_over marks.new.items + length stack.new.items ≤ 2 * left_over marks.old.items + length stack.old.items) }
{
    if !mark(names, marks, v) {
        return Ok(());
    }
    let Ok(()) = stack.push(names[v]) else {
        return Err(NoMemory);
    };
    Ok(())
}

// Does so for each of the variables.
fn reach_all(
    names: &[usize],
    marks: &mut Vec<bool>,
    stack: &mut Vec<usize>,
    xs: &Args,
) -> Result<(), NoMemory>
    requires names { AreNames names.now }
    requires size { length marks.old.items ≡ length names.now }
    requires within { All (λ x. x < length names.now) xs.now }
    ensures size { length marks.new.items ≡ length names.now }
    ensures kept { (atoms : List Flat) → AreClasses names.now atoms → All (Reached atoms) xs.now
        → AreReached names.now atoms marks.old.items → AreReached names.now atoms marks.new.items }
    ensures stack { OnOk result (All (λ name. name < length names.now) stack.old.items → All (λ name. name < length names.now) stack.new.items) }
    ensures less { OnOk result (2 * left_over marks.new.items + length stack.new.items ≤ 2 * left_over marks.old.items + length stack.old.items) }
{
    for i in 0..xs.len() {
        reach(names, marks, stack, *xs.get(i))?;
    }
    Ok(())
}

// Does so for the arguments of a term of a marked class, and for the variable of a finite atom.
fn reach_on(
    names: &[usize],
    marks: &mut Vec<bool>,
    stack: &mut Vec<usize>,
    atom: &Flat,
) -> Result<(), NoMemory>
    requires names { AreNames names.now }
    requires size { length marks.old.items ≡ length names.now }
    requires over { AtomOver (length names.now) atom.now }
    ensures size { length marks.new.items ≡ length names.now }
    ensures kept { (atoms : List Flat) → AreClasses names.now atoms → Contains atoms atom.now
        → AreReached names.now atoms marks.old.items → AreReached names.now atoms marks.new.items }
    ensures stack { OnOk result (All (λ name. name < length names.now) stack.old.items → All (λ name. name < length names.now) stack.new.items) }
    ensures less { OnOk result (2 * left_over marks.new.items + length stack.new.items ≤ 2 * left_over marks.old.items + length stack.old.items) }
{
    match atom {
        Flat::VarVar(_, _) => Ok(()),
        Flat::VarTerm(u, _, xs) => {
            let name = names[*u];
            if !marks[name] {
                return Ok(());
            }
            reach_all(names, marks, stack, xs)
        }
        Flat::Finite(u) => reach(names, marks, stack, *u),
    }
}

// Does so for each atom.
fn reach_from_all(
    names: &[usize],
    marks: &mut Vec<bool>,
    stack: &mut Vec<usize>,
    atoms: &Basic,
) -> Result<(), NoMemory>
    requires names { AreNames names.now }
    requires size { length marks.old.items ≡ length names.now }
    requires over { BasicOver (length names.now) atoms.now }
    ensures size { length marks.new.items ≡ length names.now }
    ensures kept { AreClasses names.now atoms.now → AreReached names.now atoms.now marks.old.items → AreReached names.now atoms.now marks.new.items }
    ensures stack { OnOk result (All (λ name. name < length names.now) stack.old.items → All (λ name. name < length names.now) stack.new.items) }
{
    for i in 0..atoms.len() {
        reach_on(names, marks, stack, atoms.get(i))?;
    }
    Ok(())
}

// Does so for the term that is noted for the name.
fn reach_below(
    names: &[usize],
    terms: &[Option<usize>],
    marks: &mut Vec<bool>,
    stack: &mut Vec<usize>,
    atoms: &Basic,
    name: usize,
) -> Result<(), NoMemory>
    requires names { AreNames names.now }
    requires terms { length terms.now ≡ length names.now }
    requires places { HavePlaces (length atoms.now) terms.now }
    requires within { name < length names.now }
    requires size { length marks.old.items ≡ length names.now }
    requires over { BasicOver (length names.now) atoms.now }
    ensures size { length marks.new.items ≡ length names.now }
    ensures kept { AreClasses names.now atoms.now → AreReached names.now atoms.now marks.old.items → AreReached names.now atoms.now marks.new.items }
    ensures stack { OnOk result (All (λ name. name < length names.now) stack.old.items → All (λ name. name < length names.now) stack.new.items) }
    ensures less { OnOk result (2 * left_over marks.new.items + length stack.new.items ≤ 2 * left_over marks.old.items + length stack.old.items) }
{
    match term_of(terms, atoms, name) {
        Some(term) => reach_on(names, marks, stack, term),
        None => Ok(()),
    }
}

// Goes along terms from the finite atoms, and marks each class on the way.
fn spread(
    alloc: Global,
    names: &[usize],
    terms: &[Option<usize>],
    marks: &mut Vec<bool>,
    atoms: &Basic,
) -> Result<(), NoMemory>
    requires names { AreNames names.now }
    requires terms { length terms.now ≡ length names.now }
    requires places { HavePlaces (length atoms.now) terms.now }
    requires size { length marks.old.items ≡ length names.now }
    requires over { BasicOver (length names.now) atoms.now }
    ensures size { length marks.new.items ≡ length names.now }
    ensures kept { AreClasses names.now atoms.now → AreReached names.now atoms.now marks.old.items → AreReached names.now atoms.now marks.new.items }
{
    let mut stack = Vec::new(alloc);
    reach_from_all(names, marks, &mut stack, atoms)?;
    while let Some(name) = stack.pop() {
        reach_below(names, terms, marks, &mut stack, atoms, name)?;
    }
    Ok(())
}

// For each name, whether its class is reached. The walks mark all of them; the passes then find that no mark is missing.
pub(crate) fn reached(
    alloc: Global,
    names: &[usize],
    terms: &[Option<usize>],
    atoms: &Basic,
) -> Result<Vec<bool>, NoMemory>
    requires names { AreNames names.now }
    requires terms { length terms.now ≡ length names.now }
    requires places { HavePlaces (length atoms.now) terms.now }
    requires over { BasicOver (length names.now) atoms.now }
    ensures size { IfOk result (λ marks. length marks.items ≡ length names.now) }
    ensures reached { IfOk result (λ marks. AreClasses names.now atoms.now
        → AreReached names.now atoms.now marks.items × All (IsPassedOn names.now marks.items) atoms.now) }
{
    let Ok(mut marks) = vec![in alloc; false; names.len()] else {
        return Err(NoMemory);
    };
    spread(alloc, names, terms, &mut marks, atoms)?;
    let mut changed = true;
    while changed {
        changed = pass_all_on(names, &mut marks, atoms);
    }
    Ok(marks)
}
