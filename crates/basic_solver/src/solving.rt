//! Questions about lists of atoms: their solved form, whether they can be solved, and whether an atom says more.
ghost use Rattle.std.specs.Prelude.{◌≡◌, ℕ, ◌<◌, ◌≤◌, List, [], ◌∷◌, ◌++◌, length, take, IfOk, OnOk, OnErr, IsTrue, ◌↔◌};
ghost use Rattle.flat_form.specs.Numbering.{AtomOver, BasicOver};
ghost use Rattle.basic_solver.specs.Stores.{atoms_of, with_atom, IsVerdict, SaysMore, IsFormFor, IsExtraFor};

use crate::Scope;
use crate::listing::added;
use flat_form::{Basic, Flat};
use lists::Copied;
use std::alloc::Global;
use tree_model::NoMemory;

// Puts copies of the atoms behind the others.
pub(crate) fn copy_onto(alloc: Global, atoms: &mut Basic, more: &Basic) -> Result<(), NoMemory>
    ensures { OnOk result (atoms.new ≡ atoms.old ++ more.now) }
{
    for i in 0..more.len() {
        let atom = more.get(i).copy(alloc)?;
        atoms.push(atom)?;
    }
    Ok(())
}

// The atoms, and this one last.
pub(crate) fn appended(alloc: Global, atoms: &Basic, atom: &Flat) -> Result<Basic, NoMemory>
    ensures { IfOk result (λ all. all ≡ atoms.now ++ atom.now ∷ []) }
{
    let mut all = atoms.copy(alloc)?;
    let last = atom.copy(alloc)?;
    all.push(last)?;
    Ok(all)
}

// The atoms of so many scopes, from the lowest on.
pub(crate) fn gather(alloc: Global, scopes: &[Scope], count: usize) -> Result<Basic, NoMemory>
    requires { count ≤ length scopes.now }
    ensures { IfOk result (λ atoms. atoms ≡ atoms_of (take count scopes.now)) }
{
    let mut atoms = Basic::new(alloc);
    for i in 0..count {
        copy_onto(alloc, &mut atoms, &scopes[i].atoms)?;
    }
    Ok(atoms)
}

// The solved form of the atoms, where they have a solution, else no atoms.
pub(crate) fn solved(alloc: Global, count: usize, atoms: &Basic) -> Result<Basic, NoMemory>
    requires { BasicOver count atoms.now }
    ensures { IfOk result (λ form. IsFormFor count atoms.now form) }
{
    let none = Basic::new(alloc);
    match added(alloc, count, &none, atoms)? {
        Some(form) => Ok(form),
        None => Ok(none),
    }
}

// Whether the atoms have a solution.
pub(crate) fn is_solvable(alloc: Global, count: usize, atoms: &Basic) -> Result<bool, NoMemory>
    requires { BasicOver count atoms.now }
    ensures { IfOk result (IsVerdict atoms.now) }
{
    let none = Basic::new(alloc);
    match added(alloc, count, &none, atoms)? {
        Some(_) => Ok(true),
        None => Ok(false),
    }
}

// Whether there are no atoms.
fn is_empty(list: &Basic) -> bool
    ensures { IsTrue result ↔ (list.now ≡ []) }
{
    list.len() == 0
}

// Whether the atom says more than the atoms.
pub(crate) fn says_more(
    alloc: Global,
    count: usize,
    atoms: &Basic,
    atom: &Flat,
) -> Result<bool, NoMemory>
    requires over { BasicOver count atoms.now }
    requires one { AtomOver count atom.now }
    ensures { IfOk result (SaysMore atoms.now atom.now) }
{
    let form = solved(alloc, count, atoms)?;
    let all = appended(alloc, &form, atom)?;
    match added(alloc, count, &form, &all)? {
        Some(extra) => Ok(!is_empty(&extra)),
        None => Ok(true),
    }
}

// What further atoms add to the solved form of those below.
pub(crate) fn extra_of(
    alloc: Global,
    count: usize,
    lower: &Basic,
    top: &Basic,
) -> Result<Basic, NoMemory>
    requires lower { BasicOver count lower.now }
    requires top { BasicOver count top.now }
    ensures over { IfOk result (BasicOver count) }
    ensures extra { IfOk result (IsExtraFor lower.now top.now) }
{
    let form = solved(alloc, count, lower)?;
    let mut all = form.copy(alloc)?;
    copy_onto(alloc, &mut all, top)?;
    match added(alloc, count, &form, &all)? {
        Some(extra) => Ok(extra),
        None => Ok(form),
    }
}

// Puts the atom last into the top scope.
pub(crate) fn keep(scopes: &mut Vec<Scope>, atom: Flat) -> Result<(), NoMemory>
    requires { 0 < length scopes.old.items }
    ensures ok { OnOk result (scopes.new.items ≡ with_atom atom scopes.old.items) }
    ensures err { OnErr result (scopes.new.items ≡ scopes.old.items) }
{
    let last = scopes.len() - 1;
    scopes[last].atoms.push(atom)
}
