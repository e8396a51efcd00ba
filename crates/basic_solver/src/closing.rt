//! The classes of atoms: names that follow every atom, so long as no two terms clash.
ghost use Rattle.std.specs.Prelude.{◌≡◌, ℕ, ◌<◌, List, length, slice_index, IfOk, MatchBool, MatchOption, All, Contains};
ghost use Rattle.flat_form.specs.Meanings.{HasNone};
ghost use Rattle.flat_form.specs.declared.atom.Flat.{Flat};
ghost use Rattle.flat_form.specs.Numbering.{AtomOver, BasicOver};
ghost use Rattle.flat_facts.specs.Names.{IsClosed};
ghost use Rattle.basic_solver.specs.Names.{name_in, IsNaming, IsSound, weight, IsEquated, IsFollowed};
ghost use Rattle.basic_solver.specs.Flags.{AllAgree};
ghost use Rattle.basic_solver.specs.Terms.{HavePlaces, FollowsNoted, IsServed};
ghost use Rattle.basic_solver.specs.Twins.{FollowTwins};
ghost use Rattle.basic_solver.specs.Rounds.{IsRound};
ghost use Rattle.basic_solver.specs.Outcomes.{AreClassNames};

use crate::bases::leads_of;
use crate::clashing::all_agree;
use crate::names::{apart, are_alike, join, join_all};
use crate::terms::{term_of, terms_of};
use crate::twins::twins_of;
use flat_form::{Basic, Flat};
use std::alloc::Global;
use tree_model::NoMemory;

// Where the atom equates two variables, they get one name. Whether they had two.
fn equate(leads: &[bool], names: &mut Vec<usize>, atom: &Flat) -> bool
    requires naming { IsNaming leads.now names.old.items }
    requires over { AtomOver (length leads.now) atom.now }
    ensures naming { IsNaming leads.now names.new.items }
    ensures sound { (atoms : List Flat) → Contains atoms atom.now → IsSound atoms names.old.items → IsSound atoms names.new.items }
    ensures told { MatchBool result (weight leads.now names.new.items < weight leads.now names.old.items)
        ((names.new.items ≡ names.old.items) × IsEquated names.old.items atom.now) }
{
    match atom {
        Flat::VarVar(u, v) => join(leads, names, *u, *v),
        Flat::VarTerm(_, _, _) => false,
        Flat::Finite(_) => false,
    }
}

// Two terms with one symbol: where their variables have one name, their arguments get one, and the other way round.
// Whether a name changed.
fn follow(leads: &[bool], names: &mut Vec<usize>, a: &Flat, b: &Flat) -> bool
    requires naming { IsNaming leads.now names.old.items }
    requires left { AtomOver (length leads.now) a.now }
    requires right { AtomOver (length leads.now) b.now }
    ensures naming { IsNaming leads.now names.new.items }
    ensures sound { (atoms : List Flat) → Contains atoms a.now → Contains atoms b.now → IsSound atoms names.old.items → IsSound atoms names.new.items }
    ensures told { MatchBool result (weight leads.now names.new.items < weight leads.now names.old.items)
        ((names.new.items ≡ names.old.items) × IsFollowed names.old.items a.now b.now) }
{
    let Flat::VarTerm(u, symbol, xs) = a else {
        return false;
    };
    let Flat::VarTerm(v, other, ys) = b else {
        return false;
    };
    if *symbol != *other || xs.len() != ys.len() {
        return false;
    }
    if names[*u] == names[*v] {
        return join_all(leads, names, xs, ys);
    }
    if are_alike(names, xs, ys) {
        return join(leads, names, *u, *v);
    }
    false
}

// Lets the names follow the atom and the term that is noted for its class. Whether a name changed.
fn follow_noted(
    leads: &[bool],
    names: &mut Vec<usize>,
    terms: &[Option<usize>],
    atoms: &Basic,
    atom: &Flat,
) -> bool
    requires naming { IsNaming leads.now names.old.items }
    requires size { length terms.now ≡ length leads.now }
    requires places { HavePlaces (length atoms.now) terms.now }
    requires over { BasicOver (length leads.now) atoms.now }
    requires one { Contains atoms.now atom.now }
    ensures naming { IsNaming leads.now names.new.items }
    ensures sound { IsSound atoms.now names.old.items → IsSound atoms.now names.new.items }
    ensures told { MatchBool result (weight leads.now names.new.items < weight leads.now names.old.items)
        ((names.new.items ≡ names.old.items) × FollowsNoted names.old.items terms.now atoms.now atom.now) }
{
    let Flat::VarTerm(u, _, _) = atom else {
        return false;
    };
    match term_of(terms, atoms, names[*u]) {
        Some(term) => follow(leads, names, atom, term),
        None => false,
    }
}

// Lets the names follow the atom alone, and then with the term that is noted for its class. Whether a name changed.
fn serve(
    leads: &[bool],
    names: &mut Vec<usize>,
    terms: &[Option<usize>],
    atoms: &Basic,
    atom: &Flat,
) -> bool
    requires naming { IsNaming leads.now names.old.items }
    requires size { length terms.now ≡ length leads.now }
    requires places { HavePlaces (length atoms.now) terms.now }
    requires over { BasicOver (length leads.now) atoms.now }
    requires one { Contains atoms.now atom.now }
    ensures naming { IsNaming leads.now names.new.items }
    ensures sound { IsSound atoms.now names.old.items → IsSound atoms.now names.new.items }
    ensures told { MatchBool result (weight leads.now names.new.items < weight leads.now names.old.items)
        ((names.new.items ≡ names.old.items) × IsServed names.old.items terms.now atoms.now atom.now) }
{
    let mut changed = equate(leads, names, atom);
    if follow_noted(leads, names, terms, atoms, atom) {
        changed = true;
    }
    changed
}

// Does so for each atom. Whether a name changed.
fn serve_all(leads: &[bool], names: &mut Vec<usize>, terms: &[Option<usize>], atoms: &Basic) -> bool
    requires naming { IsNaming leads.now names.old.items }
    requires size { length terms.now ≡ length leads.now }
    requires places { HavePlaces (length atoms.now) terms.now }
    requires over { BasicOver (length leads.now) atoms.now }
    ensures naming { IsNaming leads.now names.new.items }
    ensures sound { IsSound atoms.now names.old.items → IsSound atoms.now names.new.items }
    ensures told { MatchBool result (weight leads.now names.new.items < weight leads.now names.old.items)
        ((names.new.items ≡ names.old.items) × All (IsServed names.old.items terms.now atoms.now) atoms.now) }
{
    let mut changed = false;
    for i in 0..atoms.len() {
        if serve(leads, names, terms, atoms, atoms.get(i)) {
            changed = true;
        }
    }
    changed
}

// Lets the names follow each atom and its twin. Whether a name changed.
fn follow_twins(leads: &[bool], names: &mut Vec<usize>, twins: &[usize], atoms: &Basic) -> bool
    requires naming { IsNaming leads.now names.old.items }
    requires size { length twins.now ≡ length atoms.now }
    requires within { (k : ℕ) → k < length atoms.now → slice_index twins.now k < length atoms.now }
    requires over { BasicOver (length leads.now) atoms.now }
    ensures naming { IsNaming leads.now names.new.items }
    ensures sound { IsSound atoms.now names.old.items → IsSound atoms.now names.new.items }
    ensures told { MatchBool result (weight leads.now names.new.items < weight leads.now names.old.items)
        ((names.new.items ≡ names.old.items) × FollowTwins names.old.items twins.now atoms.now (length atoms.now)) }
{
    let mut changed = false;
    for i in 0..atoms.len() {
        if follow(leads, names, atoms.get(i), atoms.get(twins[i])) {
            changed = true;
        }
    }
    changed
}

// What came of letting the names follow all atoms once.
#[derive(Clone, Copy, Debug, PartialEq, Eq, Drop)]
enum Round {
    // Two terms of one class clash.
    Clashes,
    // A name changed.
    Changes,
    // No name had to change.
    Stays,
}

// Lets the names follow all atoms once, where none clash.
fn take_round(
    alloc: Global,
    leads: &[bool],
    names: &mut Vec<usize>,
    atoms: &Basic,
) -> Result<Round, NoMemory>
    requires naming { IsNaming leads.now names.old.items }
    requires over { BasicOver (length leads.now) atoms.now }
    ensures naming { IsNaming leads.now names.new.items }
    ensures sound { IsSound atoms.now names.old.items → IsSound atoms.now names.new.items }
    ensures round { IfOk result (IsRound leads.now atoms.now names.old.items names.new.items) }
{
    let terms = terms_of(alloc, names, atoms)?;
    if !all_agree(names, terms.as_slice(), atoms) {
        return Ok(Round::Clashes);
    }
    if serve_all(leads, names, terms.as_slice(), atoms) {
        return Ok(Round::Changes);
    }
    let twins = twins_of(alloc, names, atoms)?;
    if follow_twins(leads, names, twins.as_slice(), atoms) {
        return Ok(Round::Changes);
    }
    Ok(Round::Stays)
}

// Lets the names follow all atoms, until nothing changes or two terms clash. Whether no two terms clash.
pub(crate) fn close(
    alloc: Global,
    leads: &[bool],
    names: &mut Vec<usize>,
    atoms: &Basic,
) -> Result<bool, NoMemory>
    requires naming { IsNaming leads.now names.old.items }
    requires over { BasicOver (length leads.now) atoms.now }
    ensures naming { IsNaming leads.now names.new.items }
    ensures sound { IsSound atoms.now names.old.items → IsSound atoms.now names.new.items }
    ensures closed { IfOk result (λ closed. MatchBool closed (IsClosed atoms.now (name_in names.new.items) × AllAgree names.new.items atoms.now)
        (¬ AllAgree names.new.items atoms.now)) }
{
    loop {
        match take_round(alloc, leads, names, atoms)? {
            Round::Clashes => return Ok(false),
            Round::Changes => {}
            Round::Stays => return Ok(true),
        }
    }
}

/// For each variable below `count` a number, the same for two variables exactly where the atoms put them in one class.
/// None where two terms of one class clash, so that the atoms have no solution.
pub fn classes(alloc: Global, count: usize, atoms: &Basic) -> Result<Option<Vec<usize>>, NoMemory>
    requires { BasicOver count atoms.now }
    ensures { IfOk result (λ found. MatchOption found (HasNone atoms.now) (λ names. AreClassNames count atoms.now names.items)) }
{
    let none = Basic::new(alloc);
    let leads = leads_of(alloc, count, &none)?;
    let mut names = apart(alloc, count)?;
    if !close(alloc, leads.as_slice(), &mut names, atoms)? {
        return Ok(None);
    }
    Ok(Some(names))
}
