//! Which classes lead to no walk along terms that comes round.
ghost use Rattle.std.specs.Prelude.{◌≡◌, ℕ, ◌<◌, ◌≤◌, ◌+◌, ◌*◌, List, length, IfOk, OnOk, IsTrue, ◌↔◌, MatchBool, All, Contains};
ghost use Rattle.flat_form.specs.declared.atom.Flat.{Flat};
ghost use Rattle.flat_form.specs.Numbering.{AtomOver, BasicOver};
ghost use Rattle.basic_solver.specs.Flags.{AreNames, AreClasses, IsSet, left_over, without_term, IsGrounded, IsStuck, IsFinished};
ghost use Rattle.basic_solver.specs.Terms.{HavePlaces};
ghost use Rattle.basic_solver.specs.Visits.{IsVisit};

use flat_form::{Args, Basic, Flat};
use std::alloc::Global;
use tree_model::NoMemory;

// Takes the flag from the class of a variable with a term.
fn take_term(names: &[usize], done: &mut Vec<bool>, atom: &Flat)
    requires names { AreNames names.now }
    requires size { length done.old.items ≡ length names.now }
    requires over { AtomOver (length names.now) atom.now }
    ensures { done.new.items ≡ without_term names.now atom.now done.old.items }
{
    match atom {
        Flat::VarVar(_, _) => {}
        Flat::VarTerm(u, _, _) => {
            let name = names[*u];
            done[name] = false;
        }
        Flat::Finite(_) => {}
    }
}

// For each name, whether no variable with it has a term.
fn without_terms(alloc: Global, names: &[usize], atoms: &Basic) -> Result<Vec<bool>, NoMemory>
    requires names { AreNames names.now }
    requires over { BasicOver (length names.now) atoms.now }
    ensures size { IfOk result (λ done. length done.items ≡ length names.now) }
    ensures grounded { IfOk result (λ done. AreClasses names.now atoms.now → IsGrounded names.now atoms.now done.items) }
{
    let Ok(mut done) = vec![in alloc; true; names.len()] else {
        return Err(NoMemory);
    };
    for i in 0..atoms.len() {
        take_term(names, &mut done, atoms.get(i));
    }
    Ok(done)
}

// Whether each of the variables is done.
fn are_done(names: &[usize], done: &[bool], xs: &Args) -> bool
    requires names { AreNames names.now }
    requires size { length done.now ≡ length names.now }
    requires within { All (λ x. x < length names.now) xs.now }
    ensures { IsTrue result ↔ All (IsSet names.now done.now) xs.now }
{
    for i in 0..xs.len() {
        let name = names[*xs.get(i)];
        if !done[name] {
            return false;
        }
    }
    true
}

// A class is done where all arguments of its term are. Whether it was not.
fn ground(names: &[usize], done: &mut Vec<bool>, atom: &Flat) -> bool
    requires names { AreNames names.now }
    requires size { length done.old.items ≡ length names.now }
    requires over { AtomOver (length names.now) atom.now }
    ensures size { length done.new.items ≡ length names.now }
    ensures kept { (atoms : List Flat) → AreClasses names.now atoms → Contains atoms atom.now
        → IsGrounded names.now atoms done.old.items → IsGrounded names.now atoms done.new.items }
    ensures told { MatchBool result (left_over done.new.items < left_over done.old.items)
        ((done.new.items ≡ done.old.items) × IsStuck names.now done.old.items atom.now) }
{
    let Flat::VarTerm(u, _, xs) = atom else {
        return false;
    };
    let name = names[*u];
    if done[name] || !are_done(names, done.as_slice(), xs) {
        return false;
    }
    done[name] = true;
    true
}

// Does so for each atom once.
fn ground_all(names: &[usize], done: &mut Vec<bool>, atoms: &Basic) -> bool
    requires names { AreNames names.now }
    requires size { length done.old.items ≡ length names.now }
    requires over { BasicOver (length names.now) atoms.now }
    ensures size { length done.new.items ≡ length names.now }
    ensures kept { AreClasses names.now atoms.now → IsGrounded names.now atoms.now done.old.items → IsGrounded names.now atoms.now done.new.items }
    ensures told { MatchBool result (left_over done.new.items < left_over done.old.items)
        ((done.new.items ≡ done.old.items) × All (IsStuck names.now done.old.items) atoms.now) }
{
    let mut changed = false;
    for i in 0..atoms.len() {
        if ground(names, done, atoms.get(i)) {
            changed = true;
        }
    }
    changed
}

// What is left to look at, on walks along terms.
#[derive(Clone, Copy, Debug, PartialEq, Eq, Drop)]
enum Visit {
    // The class with this name.
    Enter(usize),
    // The atom at this place, whose arguments were looked at.
    Leave(usize),
}

// All classes.
fn all_classes(alloc: Global, count: usize, n: usize) -> Result<Vec<Visit>, NoMemory>
    ensures { IfOk result (λ visits. All (IsVisit count n) visits.items) }
{
    let Ok(mut visits) = Vec::with_capacity(alloc, count) else {
        return Err(NoMemory);
    };
    for name in 0..count {
        if visits.push(Visit::Enter(name)).is_err() {
            return Err(NoMemory);
        }
    }
    Ok(visits)
}

// Puts the classes of the arguments on top.
fn enter_arguments(names: &[usize], visits: &mut Vec<Visit>, xs: &Args) -> Result<(), NoMemory>
    requires names { AreNames names.now }
    requires within { All (λ x. x < length names.now) xs.now }
    ensures visits { OnOk result ((n : ℕ) → All (IsVisit (length names.now) n) visits.old.items → All (IsVisit (length names.now) n) visits.new.items) }
    ensures more { OnOk result (length visits.new.items ≡ length visits.old.items + length xs.now) }
{
    for i in 0..xs.len() {
        let Ok(()) = visits.push(Visit::Enter(names[*xs.get(i)])) else {
            return Err(NoMemory);
        };
    }
    Ok(())
}

// Looks at a class for the first time: at its arguments, and then at its term.
fn enter(
    names: &[usize],
    terms: &[Option<usize>],
    atoms: &Basic,
    seen: &mut Vec<bool>,
    visits: &mut Vec<Visit>,
    name: usize,
) -> Result<(), NoMemory>
    requires names { AreNames names.now }
    requires size { length terms.now ≡ length names.now }
    requires places { HavePlaces (length atoms.now) terms.now }
    requires over { BasicOver (length names.now) atoms.now }
    requires seen { length seen.old.items ≡ length names.now }
    requires within { name < length names.now }
    ensures seen { length seen.new.items ≡ length names.now }
    ensures visits { OnOk result (All (IsVisit (length names.now) (length atoms.now)) visits.old.items
        → All (IsVisit (length names.now) (length atoms.now)) visits.new.items) }
    ensures less { OnOk result (10 * left_over seen.new.items + length visits.new.items ≤ 10 * left_over seen.old.items + length visits.old.items) }
{
    if seen[name] {
        return Ok(());
    }
    seen[name] = true;
    let Some(i) = terms[name] else {
        return Ok(());
    };
    let Ok(()) = visits.push(Visit::Leave(i)) else {
        return Err(NoMemory);
    };
    let Flat::VarTerm(_, _, xs) = atoms.get(i) else {
        return Ok(());
    };
    enter_arguments(names, visits, xs)
}

// Goes along terms from each class, and lets it be done after its arguments.
fn descend(
    alloc: Global,
    names: &[usize],
    terms: &[Option<usize>],
    done: &mut Vec<bool>,
    atoms: &Basic,
) -> Result<(), NoMemory>
    requires names { AreNames names.now }
    requires terms { length terms.now ≡ length names.now }
    requires places { HavePlaces (length atoms.now) terms.now }
    requires size { length done.old.items ≡ length names.now }
    requires over { BasicOver (length names.now) atoms.now }
    ensures size { length done.new.items ≡ length names.now }
    ensures kept { AreClasses names.now atoms.now → IsGrounded names.now atoms.now done.old.items → IsGrounded names.now atoms.now done.new.items }
{
    let Ok(mut seen) = vec![in alloc; false; names.len()] else {
        return Err(NoMemory);
    };
    let mut visits = all_classes(alloc, names.len(), atoms.len())?;
    while let Some(visit) = visits.pop() {
        match visit {
            Visit::Enter(name) => enter(names, terms, atoms, &mut seen, &mut visits, name)?,
            Visit::Leave(i) => {
                let _ = ground(names, done, atoms.get(i));
            }
        }
    }
    Ok(())
}

// For each name, whether no walk along terms from its class comes round. The walks settle all classes; the passes then
// find that none changes.
pub(crate) fn grounded(
    alloc: Global,
    names: &[usize],
    terms: &[Option<usize>],
    atoms: &Basic,
) -> Result<Vec<bool>, NoMemory>
    requires names { AreNames names.now }
    requires terms { length terms.now ≡ length names.now }
    requires places { HavePlaces (length atoms.now) terms.now }
    requires over { BasicOver (length names.now) atoms.now }
    ensures size { IfOk result (λ done. length done.items ≡ length names.now) }
    ensures grounded { IfOk result (λ done. AreClasses names.now atoms.now → IsFinished names.now atoms.now done.items) }
{
    let mut done = without_terms(alloc, names, atoms)?;
    descend(alloc, names, terms, &mut done, atoms)?;
    let mut changed = true;
    while changed {
        changed = ground_all(names, &mut done, atoms);
    }
    Ok(done)
}
