//! Whether a cube can hold together with the atoms of a store. Each question is asked in a scope of its own.
ghost use Rattle.std.specs.Prelude.{◌≡◌, ◌+◌, ◌<◌, ◌≤◌, [], length, IfOk, All};
ghost use Rattle.flat_form.specs.Numbering.{BasicOver, PartOver, IsWellNumbered};
ghost use Rattle.basic_solver.specs.Stores.{atoms_of, open_in, below, top_of};
ghost use Rattle.kept_cubes.specs.Asking.{IsOverSame, AreAsserted, IsSaidBelow, FailsSomewhere, EachFailsSomewhere, HoldsTogether};

use basic_solver::{Asserted, Store};
use flat_form::{Cube, Flat, Part, variable};
use lists::NoMemory;
use std::alloc::Global;

// Asserts the atoms, in order, up to the first that clashes. Whether none does.
fn assert_all(store: &mut Store, atoms: &[Flat]) -> Result<bool, NoMemory>
    requires some { 0 < length store.old.scopes }
    requires over { BasicOver (open_in store.old.scopes) atoms.now }
    ensures lower { IsOverSame store.old.scopes store.new.scopes }
    ensures answer { IfOk result (AreAsserted store.old.scopes atoms.now store.new.scopes) }
{
    for atom in atoms {
        match store.assert(atom)? {
            Asserted::Clash => return Ok(false),
            Asserted::Kept { .. } => {}
        }
    }
    Ok(true)
}

// Whether one of the atoms stands for one of the first m variables.
fn is_said_below(m: usize, atoms: &[Flat]) -> bool
    ensures { IsSaidBelow m atoms.now result }
{
    for atom in atoms {
        if variable(atom) < m {
            return true;
        }
    }
    false
}

// Whether the atoms cannot hold beside those below the top scope, which has none, or say something of the first m
// variables.
fn fails_in_top(
    alloc: Global,
    store: &mut Store,
    m: usize,
    atoms: &[Flat],
) -> Result<bool, NoMemory>
    requires scopes { 1 < length store.old.scopes }
    requires empty { top_of store.old.scopes ≡ [] }
    requires over { BasicOver (open_in store.old.scopes) atoms.now }
    ensures lower { IsOverSame store.old.scopes store.new.scopes }
    ensures answer { IfOk result (FailsSomewhere m (atoms_of (below store.old.scopes)) atoms.now) }
{
    if !assert_all(store, atoms)? {
        return Ok(true);
    }
    let extra = store.extra(alloc)?;
    Ok(is_said_below(m, extra.as_slice()))
}

// Whether the part fails somewhere beside the atoms of the store, which has m variables.
fn fails_somewhere(
    alloc: Global,
    store: &mut Store,
    m: usize,
    part: &Part,
) -> Result<bool, NoMemory>
    requires some { 0 < length store.old.scopes }
    requires counted { m ≡ open_in store.old.scopes }
    requires over { PartOver m part.now }
    ensures stays { store.new.scopes ≡ store.old.scopes }
    ensures answer { IfOk result (FailsSomewhere m (atoms_of store.old.scopes) part.now.basic) }
{
    store.push(part.inner)?;
    let found = fails_in_top(alloc, store, m, part.basic.as_slice());
    store.pop();
    found
}

// Whether each of the parts does.
fn all_fail(alloc: Global, store: &mut Store, m: usize, parts: &[Part]) -> Result<bool, NoMemory>
    requires some { 0 < length store.old.scopes }
    requires counted { m ≡ open_in store.old.scopes }
    requires over { All (PartOver m) parts.now }
    ensures stays { store.new.scopes ≡ store.old.scopes }
    ensures answer { IfOk result (EachFailsSomewhere m (atoms_of store.old.scopes) parts.now) }
{
    for part in parts {
        if !fails_somewhere(alloc, store, m, part)? {
            return Ok(false);
        }
    }
    Ok(true)
}

// Whether the cube, over m variables with its outer ones, can hold together with the atoms of the store. Its basic goes
// into the top scope.
fn holds_in_top(alloc: Global, store: &mut Store, m: usize, c: &Cube) -> Result<bool, NoMemory>
    requires some { 0 < length store.old.scopes }
    requires counted { m ≡ open_in store.old.scopes }
    requires variables { m ≡ c.now.free + c.now.outer }
    requires over { IsWellNumbered c.now }
    ensures lower { IsOverSame store.old.scopes store.new.scopes }
    ensures answer { IfOk result (HoldsTogether (atoms_of store.old.scopes) c.now) }
{
    if !assert_all(store, c.basic.as_slice())? {
        return Ok(false);
    }
    // What a store holds has a solution, over its variables: this call says so.
    store.basic(alloc)?;
    all_fail(alloc, store, m, c.parts.as_slice())
}

/// Whether the cube can hold together with the atoms of the open scopes, whose variables are the first of its free ones.
/// The scopes are as before, also after want of memory.
pub fn holds_together(
    alloc: Global,
    store: &mut Store,
    count: usize,
    c: &Cube,
) -> Result<bool, NoMemory>
    requires some { 0 < length store.old.scopes }
    requires counted { count ≡ open_in store.old.scopes }
    requires over { IsWellNumbered c.now }
    requires free { count ≤ c.now.free }
    ensures stays { store.new.scopes ≡ store.old.scopes }
    ensures answer { IfOk result (HoldsTogether (atoms_of store.old.scopes) c.now) }
{
    let Some(m) = c.free.checked_add(c.outer) else {
        return Err(NoMemory);
    };
    store.push(m - count)?;
    let found = holds_in_top(alloc, store, m, c);
    store.pop();
    found
}
