//! Atoms with new numbers, read off in the new order, so that nothing is sorted.
ghost use Rattle.std.specs.Prelude.{◌≡◌, ℕ, ◌<◌, ◌≤◌, ◌+◌, ◌⊎◌, List, length, map, slice_index, IfOk, OnOk, All, Contains};
ghost use Rattle.flat_form.specs.declared.atom.Flat.{Flat};
ghost use Rattle.flat_form.specs.Numbering.{AtomOver, BasicOver};
ghost use Rattle.flat_form.specs.Parts.{renumbered};
ghost use Rattle.flat_form.specs.Solved.{variable_of, Ascends};
ghost use Rattle.numbering.specs.Listing.{AreNumbers, ListsAt, IsListedTo};
ghost use Rattle.reachability.specs.Places.{ArePlaces};
ghost use Rattle.flat_form.specs.Orders.{new_number, IsRenumbering};
ghost use Rattle.lists.specs.Distinct.{IsDistinct};

use flat_form::{Args, Basic, Flat};
use lists::NoMemory;
use reachability::{atom_of, places_of};
use std::alloc::Global;

// The numbers of variables that are not in the order.
fn unmet(alloc: Global, first: usize, count: usize, other: usize) -> Result<Vec<usize>, NoMemory>
    ensures size { IfOk result (λ numbers. length numbers.items ≡ count) }
    ensures low { IfOk result (λ numbers. (v : ℕ) → v < first → v < count → slice_index numbers.items v ≡ v) }
    ensures others { IfOk result (λ numbers. (v : ℕ) → first ≤ v → v < count → slice_index numbers.items v ≡ other) }
{
    let mut numbers = vec![in alloc; other; count]?;
    for v in 0..count {
        if v < first {
            numbers[v] = v;
        }
    }
    Ok(numbers)
}

/// The new number of each variable below `count`, by an order of variables from `first` on.
pub fn numbers_of(
    alloc: Global,
    first: usize,
    count: usize,
    order: &[usize],
) -> Result<Vec<usize>, NoMemory>
    requires distinct { IsDistinct order.now }
    requires within { All (λ v. (first ≤ v) × (v < count)) order.now }
    ensures { IfOk result (λ numbers. AreNumbers first count order.now numbers.items) }
{
    let Some(other) = first.checked_add(order.len()) else {
        return Err(NoMemory);
    };
    let mut numbers = unmet(alloc, first, count, other)?;
    for i in 0..order.len() {
        numbers[order[i]] = first + i;
    }
    Ok(numbers)
}

// The numbers of the variables.
fn renumbered_args(alloc: Global, numbers: &[usize], xs: &[usize]) -> Result<Args, NoMemory>
    requires within { All (λ x. x < length numbers.now) xs.now }
    ensures { IfOk result (λ ys. ys ≡ map (λ v. slice_index numbers.now v) xs.now) }
{
    let mut ys = Args::new(alloc);
    for &x in xs {
        ys.push(numbers[x])?;
    }
    Ok(ys)
}

// The atom with new numbers.
fn renumbered_atom(alloc: Global, numbers: &[usize], atom: &Flat) -> Result<Flat, NoMemory>
    requires over { AtomOver (length numbers.now) atom.now }
    ensures { IfOk result (λ new. new ≡ renumbered (λ v. slice_index numbers.now v) atom.now) }
{
    match atom {
        Flat::VarVar(u, v) => Ok(Flat::VarVar(numbers[*u], numbers[*v])),
        Flat::VarTerm(u, symbol, xs) => {
            let ys = renumbered_args(alloc, numbers, xs.as_slice())?;
            Ok(Flat::VarTerm(numbers[*u], *symbol, ys))
        }
        Flat::Finite(u) => Ok(Flat::Finite(numbers[*u])),
    }
}

// Lists the atom of the variable, where it has one.
fn list_at(
    alloc: Global,
    numbers: &[usize],
    places: &[Option<usize>],
    atoms: &Basic,
    list: &mut Basic,
    u: usize,
) -> Result<(), NoMemory>
    requires size { length places.now ≡ length numbers.now }
    requires places { ArePlaces (length atoms.now) atoms.now places.now }
    requires over { BasicOver (length numbers.now) atoms.now }
    requires within { u < length numbers.now }
    ensures { OnOk result (ListsAt (λ v. slice_index numbers.now v) atoms.now u list.old list.new) }
{
    match atom_of(places, atoms, u) {
        Some(atom) => {
            let item = renumbered_atom(alloc, numbers, atom)?;
            list.push(item)
        }
        None => Ok(()),
    }
}

// Lists the atoms of the variables below first.
fn list_first(
    alloc: Global,
    first: usize,
    numbers: &[usize],
    places: &[Option<usize>],
    atoms: &Basic,
) -> Result<Basic, NoMemory>
    requires size { length places.now ≡ length numbers.now }
    requires places { ArePlaces (length atoms.now) atoms.now places.now }
    requires ascending { Ascends atoms.now }
    requires over { BasicOver (length numbers.now) atoms.now }
    requires within { first ≤ length numbers.now }
    ensures { IfOk result (λ list. (order : List ℕ) → AreNumbers first (length numbers.now) order numbers.now
        → IsListedTo first (length numbers.now) order first atoms.now list) }
{
    let mut list = Basic::with_capacity(alloc, atoms.len())?;
    for u in 0..first {
        list_at(alloc, numbers, places, atoms, &mut list, u)?;
    }
    Ok(list)
}

// Lists the atoms of the variables of the order.
fn list_met(
    alloc: Global,
    first: usize,
    order: &[usize],
    numbers: &[usize],
    places: &[Option<usize>],
    atoms: &Basic,
    list: &mut Basic,
) -> Result<(), NoMemory>
    requires size { length places.now ≡ length numbers.now }
    requires places { ArePlaces (length atoms.now) atoms.now places.now }
    requires ascending { Ascends atoms.now }
    requires over { BasicOver (length numbers.now) atoms.now }
    requires distinct { IsDistinct order.now }
    requires within { All (λ v. (first ≤ v) × (v < length numbers.now)) order.now }
    requires numbers { AreNumbers first (length numbers.now) order.now numbers.now }
    requires listed { IsListedTo first (length numbers.now) order.now first atoms.now list.old }
    ensures { OnOk result (IsListedTo first (length numbers.now) order.now (first + length order.now) atoms.now list.new) }
{
    for i in 0..order.len() {
        list_at(alloc, numbers, places, atoms, list, order[i])?;
    }
    Ok(())
}

/// The atoms of the variables below `first` and of those of the order, with new numbers.
pub fn number_all(
    alloc: Global,
    first: usize,
    count: usize,
    order: &[usize],
    atoms: &Basic,
) -> Result<Basic, NoMemory>
    requires ascending { Ascends atoms.now }
    requires over { BasicOver count atoms.now }
    requires low { first ≤ count }
    requires distinct { IsDistinct order.now }
    requires within { All (λ v. (first ≤ v) × (v < count)) order.now }
    ensures { IfOk result (λ list. IsRenumbering (new_number first count order.now)
        (λ atom. (variable_of atom < first) ⊎ Contains order.now (variable_of atom)) atoms.now list) }
{
    let places = places_of(alloc, count, atoms)?;
    let numbers = numbers_of(alloc, first, count, order)?;
    let mut list = list_first(alloc, first, numbers.as_slice(), places.as_slice(), atoms)?;
    list_met(
        alloc,
        first,
        order,
        numbers.as_slice(),
        places.as_slice(),
        atoms,
        &mut list,
    )?;
    Ok(list)
}
