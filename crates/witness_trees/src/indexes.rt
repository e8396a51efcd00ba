//! Indexes that are not used, and which variable takes which.
ghost use Rattle.std.specs.Prelude.{◌≡◌, ◌==◌, ℕ, ◌<◌, not, false, length, filter, get_or, slice_index, slice_index_or, IfOk, All};
ghost use Rattle.std.specs.List.{range_with_len, list_any};
ghost use Rattle.lists.specs.Distinct.{IsDistinct};
ghost use Rattle.flat_form.specs.Orders.{place_of};
ghost use Rattle.flat_form.specs.Solved.{Ascends};
ghost use Rattle.reachability.specs.Places.{ArePlaces};
ghost use Rattle.witness_trees.specs.Fresh.{defines, unused};

use flat_form::{Basic, Flat};
use lists::NoMemory;
use reachability::atom_of;
use std::alloc::Global;

// Whether each number below `size` is used.
fn are_used(alloc: Global, used: &[u64], size: usize) -> Result<Vec<bool>, NoMemory>
    ensures size { IfOk result (λ flags. length flags.items ≡ size) }
    ensures each { IfOk result (λ flags. (k : ℕ) → k < size → slice_index_or flags.items k false ≡ list_any (λ u. u == k) used.now) }
{
    let mut flags = vec![in alloc; false; size]?;
    for &k in used {
        if k < size as u64 {
            flags[k as usize] = true;
        }
    }
    Ok(flags)
}

/// The first `count` numbers that are not used.
pub(crate) fn first_unused(alloc: Global, used: &[u64], count: usize) -> Result<Vec<u64>, NoMemory>
    ensures { IfOk result (λ free. free.items ≡ unused used.now count) }
{
    let Some(size) = count.checked_add(used.len()) else {
        return Err(NoMemory);
    };
    let flags = are_used(alloc, used, size)?;
    let mut free = Vec::new(alloc);
    for k in 0..size {
        if !flags[k] {
            free.push(k as u64)?;
        }
    }
    free.truncate(count);
    Ok(free)
}

// Whether the variable is left of no equation.
fn is_open(places: &[Option<usize>], atoms: &Basic, v: usize) -> bool
    requires within { v < length places.now }
    requires places { ArePlaces (length atoms.now) atoms.now places.now }
    requires ascending { Ascends atoms.now }
    ensures { result ≡ not (list_any (defines v) atoms.now) }
{
    match atom_of(places, atoms, v) {
        Some(Flat::Finite(_)) => true,
        Some(_) => false,
        None => true,
    }
}

/// The variables that are left of no equation, in ascending order.
pub(crate) fn all_open(
    alloc: Global,
    places: &[Option<usize>],
    atoms: &Basic,
) -> Result<Vec<usize>, NoMemory>
    requires places { ArePlaces (length atoms.now) atoms.now places.now }
    requires ascending { Ascends atoms.now }
    ensures { IfOk result (λ opens. opens.items ≡ filter (λ v. not (list_any (defines v) atoms.now)) (range_with_len 0 (length places.now))) }
{
    let mut opens = Vec::new(alloc);
    for v in 0..places.len() {
        if is_open(places, atoms, v) {
            opens.push(v)?;
        }
    }
    Ok(opens)
}

/// The index of each variable: the one that stands at its place among the open ones, and 0 where it is not open.
pub(crate) fn index_table(
    alloc: Global,
    count: usize,
    opens: &[usize],
    free: &[u64],
) -> Result<Vec<u64>, NoMemory>
    requires size { length free.now ≡ length opens.now }
    requires within { All (λ v. v < count) opens.now }
    requires distinct { IsDistinct opens.now }
    ensures size { IfOk result (λ indexes. length indexes.items ≡ count) }
    ensures each { IfOk result (λ indexes. (v : ℕ) → v < count → slice_index indexes.items v ≡ get_or free.now (place_of opens.now v) 0) }
{
    let mut indexes = vec![in alloc; 0; count]?;
    for i in 0..opens.len() {
        indexes[opens[i]] = free[i];
    }
    Ok(indexes)
}
