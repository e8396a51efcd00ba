//! The atoms that are added to a base, read off the names of the classes.
ghost use Rattle.std.specs.Prelude.{◌≡◌, ℕ, ◌<◌, List, length, map, IfOk, OnOk, IsTrue, MatchBool, ◌↔◌, All, Contains, Bool};
ghost use Rattle.flat_form.specs.declared.atom.Flat.{Flat};
ghost use Rattle.flat_form.specs.Classes.{Unsolvable};
ghost use Rattle.flat_form.specs.Meanings.{HasNone};
ghost use Rattle.flat_form.specs.Numbering.{AtomOver, BasicOver};
ghost use Rattle.flat_form.specs.Solved.{IsOpen, IsDirect};
ghost use Rattle.flat_form.specs.Added.{IsAdded};
ghost use Rattle.basic_solver.specs.Names.{name_in};
ghost use Rattle.basic_solver.specs.Flags.{AreNames, AreClasses};
ghost use Rattle.basic_solver.specs.Outcomes.{AreLeads, with_lead, IsFiniteDone, IsEquation, IsTermFor, IsTermLine, IsFiniteLine, with_found, AreTables, IsLine, IsListed, IsOutcome};
ghost use Rattle.basic_solver.specs.Terms.{AreTerms, HavePlaces};
ghost use Rattle.basic_solver.specs.Bases.{with_bound, AreBound, with_said, AreSaid, AreSized};

use crate::bases::{bound_by, leads_of, said_by};
use crate::closing::close;
use crate::grounding::grounded;
use crate::names::apart;
use crate::reaching::reached;
use crate::terms::{term_of, terms_of};
use flat_form::{Args, Basic, Flat};
use std::alloc::Global;
use tree_model::NoMemory;

// The names of the arguments.
fn heads(alloc: Global, names: &[usize], xs: &Args) -> Result<Args, NoMemory>
    requires within { All (λ x. x < length names.now) xs.now }
    ensures { IfOk result (λ heads. heads ≡ map (name_in names.now) xs.now) }
{
    let mut heads = Args::new(alloc);
    for i in 0..xs.len() {
        heads.push(names[*xs.get(i)])?;
    }
    Ok(heads)
}

// The equation with the atom's term, where it is one of the class that has this name.
fn term_at(alloc: Global, names: &[usize], atom: &Flat, v: usize) -> Result<Option<Flat>, NoMemory>
    requires over { AtomOver (length names.now) atom.now }
    ensures { IfOk result (λ found. IsTermFor names.now atom.now v found) }
{
    match atom {
        Flat::VarVar(_, _) => Ok(None),
        Flat::VarTerm(u, symbol, xs) => {
            if names[*u] != v {
                return Ok(None);
            }
            let arguments = heads(alloc, names, xs)?;
            Ok(Some(Flat::VarTerm(v, *symbol, arguments)))
        }
        Flat::Finite(_) => Ok(None),
    }
}

// The equation with a term of the class that has this name.
fn term_line(
    alloc: Global,
    names: &[usize],
    terms: &[Option<usize>],
    atoms: &Basic,
    v: usize,
) -> Result<Option<Flat>, NoMemory>
    requires terms { AreTerms names.now atoms.now terms.now }
    requires within { v < length names.now }
    requires over { BasicOver (length names.now) atoms.now }
    ensures { IfOk result (λ found. IsTermLine names.now atoms.now v found) }
{
    match term_of(terms, atoms, v) {
        Some(term) => term_at(alloc, names, term, v),
        None => Ok(None),
    }
}

// That the variable is finite, where its class is reached and the base does not say so.
fn finite_line(marks: &[bool], said: &[bool], v: usize) -> Option<Flat>
    requires marks { v < length marks.now }
    requires said { v < length said.now }
    ensures { (names : List ℕ) → (base : List Flat) → AreSaid names base said.now → IsFiniteLine names marks.now base v result }
{
    if marks[v] && !said[v] {
        Some(Flat::Finite(v))
    } else {
        None
    }
}

// What is noted of names and variables, for the atoms that are added.
#[derive(Drop)]
struct Notes {
    bound: Vec<bool>,
    said: Vec<bool>,
    marks: Vec<bool>,
    terms: Vec<Option<usize>>,
}

// The atom that is added for the variable.
fn line(
    alloc: Global,
    names: &[usize],
    notes: &Notes,
    atoms: &Basic,
    v: usize,
) -> Result<Option<Flat>, NoMemory>
    requires size { AreSized (length names.now) notes.now }
    requires terms { AreTerms names.now atoms.now notes.now.terms.items }
    requires within { v < length names.now }
    requires over { BasicOver (length names.now) atoms.now }
    ensures { IfOk result (λ found. (leads : List Bool) (base : List Flat) → AreTables leads names.now notes.now.marks.items base atoms.now
        → AreBound base notes.now.bound.items → AreSaid names.now base notes.now.said.items → IsLine base atoms.now v found) }
{
    if notes.bound[v] {
        return Ok(None);
    }
    let head = names[v];
    if head != v {
        return Ok(Some(Flat::VarVar(v, head)));
    }
    match term_line(alloc, names, notes.terms.as_slice(), atoms, v)? {
        Some(found) => Ok(Some(found)),
        None => Ok(finite_line(notes.marks.as_slice(), notes.said.as_slice(), v)),
    }
}

// The atom, where there is one, stands last.
fn push_found(lines: &mut Basic, found: Option<Flat>) -> Result<(), NoMemory>
    ensures { OnOk result (lines.new ≡ with_found lines.old found) }
{
    match found {
        Some(atom) => lines.push(atom),
        None => Ok(()),
    }
}

// The atoms that are added, in ascending order of their variables.
fn lines(alloc: Global, names: &[usize], notes: &Notes, atoms: &Basic) -> Result<Basic, NoMemory>
    requires size { AreSized (length names.now) notes.now }
    requires terms { AreTerms names.now atoms.now notes.now.terms.items }
    requires over { BasicOver (length names.now) atoms.now }
    ensures { IfOk result (λ lines. (leads : List Bool) (base : List Flat) → AreTables leads names.now notes.now.marks.items base atoms.now
        → AreBound base notes.now.bound.items → AreSaid names.now base notes.now.said.items
        → IsListed (length names.now) base atoms.now lines) }
{
    let mut lines = Basic::with_capacity(alloc, atoms.len())?;
    for v in 0..names.len() {
        let found = line(alloc, names, notes, atoms, v)?;
        push_found(&mut lines, found)?;
    }
    Ok(lines)
}

// Whether a finite atom's class is done.
fn is_finite_done(names: &[usize], done: &[bool], atom: &Flat) -> bool
    requires names { AreNames names.now }
    requires size { length done.now ≡ length names.now }
    requires over { AtomOver (length names.now) atom.now }
    ensures { IsTrue result ↔ IsFiniteDone names.now done.now atom.now }
{
    match atom {
        Flat::VarVar(_, _) => true,
        Flat::VarTerm(_, _, _) => true,
        Flat::Finite(u) => {
            let name = names[*u];
            done[name]
        }
    }
}

// Whether the class of each finite atom is done.
fn are_finite(names: &[usize], done: &[bool], atoms: &Basic) -> bool
    requires names { AreNames names.now }
    requires size { length done.now ≡ length names.now }
    requires over { BasicOver (length names.now) atoms.now }
    ensures { IsTrue result ↔ All (IsFiniteDone names.now done.now) atoms.now }
{
    for i in 0..atoms.len() {
        if !is_finite_done(names, done, atoms.get(i)) {
            return false;
        }
    }
    true
}

// Whether the atom is an equation.
fn is_equation(atom: &Flat) -> bool
    ensures { IsTrue result ↔ IsEquation atom.now }
{
    match atom {
        Flat::VarVar(_, _) => true,
        Flat::VarTerm(_, _, _) => true,
        Flat::Finite(_) => false,
    }
}

// Whether each of the atoms is one.
fn are_equations(atoms: &Basic) -> bool
    ensures { IsTrue result ↔ All IsEquation atoms.now }
{
    for i in 0..atoms.len() {
        if !is_equation(atoms.get(i)) {
            return false;
        }
    }
    true
}

// Whether no walk from a finite atom comes round, so that atoms without a clash have a solution.
fn end_all(
    alloc: Global,
    names: &[usize],
    terms: &[Option<usize>],
    atoms: &Basic,
) -> Result<bool, NoMemory>
    requires names { AreNames names.now }
    requires terms { length terms.now ≡ length names.now }
    requires places { HavePlaces (length atoms.now) terms.now }
    requires over { BasicOver (length names.now) atoms.now }
    ensures { IfOk result (λ all. AreClasses names.now atoms.now → MatchBool all (¬ Unsolvable atoms.now) (HasNone atoms.now)) }
{
    if are_equations(atoms) {
        return Ok(true);
    }
    let done = grounded(alloc, names, terms, atoms)?;
    Ok(are_finite(names, done.as_slice(), atoms))
}

/// What the atoms add to the base, which is among them. None where they have no solution.
pub fn added(
    alloc: Global,
    count: usize,
    base: &Basic,
    atoms: &Basic,
) -> Result<Option<Basic>, NoMemory>
    requires over { BasicOver count atoms.now }
    requires base_over { BasicOver count base.now }
    requires among { (atom : Flat) → Contains base.now atom → Contains atoms.now atom }
    requires direct { IsDirect base.now }
    ensures { IfOk result (λ found. IsOutcome base.now atoms.now found) }
{
    let leads = leads_of(alloc, count, base)?;
    let mut names = apart(alloc, count)?;
    if !close(alloc, leads.as_slice(), &mut names, atoms)? {
        return Ok(None);
    }
    let terms = terms_of(alloc, names.as_slice(), atoms)?;
    if !end_all(alloc, names.as_slice(), terms.as_slice(), atoms)? {
        return Ok(None);
    }
    let marks = reached(alloc, names.as_slice(), terms.as_slice(), atoms)?;
    let bound = bound_by(alloc, count, base)?;
    let said = said_by(alloc, names.as_slice(), base)?;
    let notes = Notes {
        bound,
        said,
        marks,
        terms,
    };
    let lines = lines(alloc, names.as_slice(), &notes, atoms)?;
    Ok(Some(lines))
}
