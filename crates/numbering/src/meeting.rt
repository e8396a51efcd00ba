//! The order in which a walk by breadth along terms meets variables. The order is its own queue.
ghost use Rattle.std.specs.Prelude.{◌≡◌, ◌<◌, ◌≤◌, ◌+◌, [], length, IfOk, OnOk, All};
ghost use Rattle.flat_form.specs.Numbering.{BasicOver};
ghost use Rattle.flat_form.specs.Solved.{Ascends};
ghost use Rattle.reachability.specs.Places.{ArePlaces};
ghost use Rattle.numbering.specs.Meeting.{IsState, Enters, EntersAll, Visits, IsMeeting, IsMet};

use flat_form::Basic;
use lists::{List, NoMemory};
use reachability::{places_of, term_of};
use std::alloc::Global;

// Puts the variable last, unless it is below first or was met.
fn enter(
    first: usize,
    seen: &mut Vec<bool>,
    order: &mut List<usize>,
    x: usize,
) -> Result<(), NoMemory>
    requires within { x < length seen.old.items }
    requires state { IsState seen.old.items order.old }
    ensures size { length seen.new.items ≡ length seen.old.items }
    ensures state { OnOk result (IsState seen.new.items order.new) }
    ensures enters { OnOk result (Enters first x order.old order.new) }
{
    if x < first {
        return Ok(());
    }
    if seen[x] {
        return Ok(());
    }
    order.push(x)?;
    seen[x] = true;
    Ok(())
}

// Does so for each of the variables.
fn enter_all(
    first: usize,
    seen: &mut Vec<bool>,
    order: &mut List<usize>,
    xs: &[usize],
) -> Result<(), NoMemory>
    requires within { All (λ x. x < length seen.old.items) xs.now }
    requires state { IsState seen.old.items order.old }
    ensures size { length seen.new.items ≡ length seen.old.items }
    ensures state { OnOk result (IsState seen.new.items order.new) }
    ensures enters { OnOk result (EntersAll first xs.now order.old (length xs.now) order.new) }
{
    for &x in xs {
        enter(first, seen, order, x)?;
    }
    Ok(())
}

// Does so for the arguments of the variable's term.
fn visit(
    first: usize,
    places: &[Option<usize>],
    atoms: &Basic,
    seen: &mut Vec<bool>,
    order: &mut List<usize>,
    u: usize,
) -> Result<(), NoMemory>
    requires size { length places.now ≡ length seen.old.items }
    requires places { ArePlaces (length atoms.now) atoms.now places.now }
    requires ascending { Ascends atoms.now }
    requires over { BasicOver (length seen.old.items) atoms.now }
    requires within { u < length seen.old.items }
    requires state { IsState seen.old.items order.old }
    ensures size { length seen.new.items ≡ length seen.old.items }
    ensures state { OnOk result (IsState seen.new.items order.new) }
    ensures visits { OnOk result (Visits first atoms.now u order.old order.new) }
{
    match term_of(places, atoms, u) {
        Some(xs) => enter_all(first, seen, order, xs),
        None => Ok(()),
    }
}

// Visits the variables below first.
fn visit_first(
    first: usize,
    places: &[Option<usize>],
    atoms: &Basic,
    seen: &mut Vec<bool>,
    order: &mut List<usize>,
) -> Result<(), NoMemory>
    requires size { length places.now ≡ length seen.old.items }
    requires places { ArePlaces (length atoms.now) atoms.now places.now }
    requires ascending { Ascends atoms.now }
    requires over { BasicOver (length seen.old.items) atoms.now }
    requires within { first ≤ length seen.old.items }
    requires state { IsState seen.old.items order.old }
    requires meeting { IsMeeting first (length seen.old.items) atoms.now order.old 0 0 }
    ensures size { length seen.new.items ≡ length seen.old.items }
    ensures state { OnOk result (IsState seen.new.items order.new) }
    ensures meeting { OnOk result (IsMeeting first (length seen.old.items) atoms.now order.new first 0) }
{
    for u in 0..first {
        visit(first, places, atoms, seen, order, u)?;
    }
    Ok(())
}

// Visits the variables of the order.
fn visit_met(
    first: usize,
    places: &[Option<usize>],
    atoms: &Basic,
    seen: &mut Vec<bool>,
    order: &mut List<usize>,
) -> Result<(), NoMemory>
    requires size { length places.now ≡ length seen.old.items }
    requires places { ArePlaces (length atoms.now) atoms.now places.now }
    requires ascending { Ascends atoms.now }
    requires over { BasicOver (length seen.old.items) atoms.now }
    requires within { first ≤ length seen.old.items }
    requires state { IsState seen.old.items order.old }
    requires meeting { IsMeeting first (length seen.old.items) atoms.now order.old first 0 }
    ensures meeting { OnOk result (IsMeeting first (length seen.old.items) atoms.now order.new (first + length order.new) 0) }
{
    let mut i = 0;
    while i < order.len() {
        visit(first, places, atoms, seen, order, *order.get(i))?;
        i += 1;
    }
    Ok(())
}

/// The variables from `first` on that are reached along terms from those below it, in the order in which they are met.
pub fn met(
    alloc: Global,
    first: usize,
    count: usize,
    atoms: &Basic,
) -> Result<List<usize>, NoMemory>
    requires ascending { Ascends atoms.now }
    requires over { BasicOver count atoms.now }
    requires within { first ≤ count }
    ensures { IfOk result (IsMet first count atoms.now) }
{
    let places = places_of(alloc, count, atoms)?;
    let mut seen = vec![in alloc; false; count]?;
    let mut order = List::new(alloc);
    visit_first(first, places.as_slice(), atoms, &mut seen, &mut order)?;
    visit_met(first, places.as_slice(), atoms, &mut seen, &mut order)?;
    Ok(order)
}
