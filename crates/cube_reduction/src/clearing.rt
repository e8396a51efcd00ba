//! Idle variables go, with the parts that mention them; the others are numbered by first occurrence, and the parts are
//! settled again.
ghost use Rattle.std.specs.Prelude.{◌≡◌, ◌+◌, ◌<◌, ◌≤◌, ◌++◌, ◌↔◌, [], ℕ, map, length, IfOk, IsTrue, All, Contains};
ghost use Rattle.lists.specs.Distinct.{IsDistinct};
ghost use Rattle.flat_form.specs.declared.atom.Flat.{Flat};
ghost use Rattle.flat_form.specs.Orders.{new_number, renumbered_part};
ghost use Rattle.flat_form.specs.Solved.{variable_of, Ascends};
ghost use Rattle.flat_form.specs.Steps.{Mentions, WithoutIdle, Settles, IsCleared};
ghost use Rattle.cube_reduction.specs.Ordering.{WasGrouped, IsOrdered, KeepsNumbers};

use crate::numbers::Numbers;
use crate::over::{Over, copy_onto};
use crate::settling::all_settled;
use flat_form::{Basic, Cube, Flat, Part, Parts, is_same_basic, variable};
use lists::{Copied, List, NoMemory};
use numbering::{finish, met, number_all};
use reachability::mentions;
use std::alloc::Global;

// Whether the variable is one of these.
fn is_one_of(vs: &[usize], v: usize) -> bool
    ensures { IsTrue result ↔ Contains vs.now v }
{
    for &w in vs {
        if w == v {
            return true;
        }
    }
    false
}

// Whether one of the variables stands in the part.
fn mentions_some(vs: &[usize], part: &Part) -> bool
    ensures { IsTrue result ↔ ((v : ℕ) × Contains vs.now v × Mentions part.now v) }
{
    for &v in vs {
        if mentions(part, v) {
            return true;
        }
    }
    false
}

// The parts in which none of the variables stands.
fn busy(alloc: Global, idle: &[usize], parts: &[Part]) -> Result<Parts, NoMemory>
    ensures { IfOk result (WithoutIdle idle.now parts.now) }
{
    let mut busy = Parts::new(alloc);
    for part in parts {
        if !mentions_some(idle, part) {
            busy.push(part.copy(alloc)?)?;
        }
    }
    Ok(busy)
}

// A basic without idle variables, and the outer variables in their new order.
#[derive(Debug, Drop)]
pub(crate) struct Ordered {
    pub(crate) order: List<usize>,
    pub(crate) basic: Basic,
}

// The atoms of the variables that are none of these.
fn atoms_without(alloc: Global, vs: &[usize], atoms: &[Flat]) -> Result<Basic, NoMemory>
    requires ascending { Ascends atoms.now }
    ensures ascending { IfOk result Ascends }
    ensures is { IfOk result (λ found. (atom : Flat) → Contains found atom ↔ (Contains atoms.now atom × (¬ Contains vs.now (variable_of atom)))) }
{
    let mut found = Basic::new(alloc);
    for atom in atoms {
        if !is_one_of(vs, variable(atom)) {
            found.push(atom.copy(alloc)?)?;
        }
    }
    Ok(found)
}

// The cube's basic without its idle variables, the others numbered by first occurrence.
pub(crate) fn in_order(
    alloc: Global,
    mid: &Cube,
    scope: usize,
    idle: &[usize],
) -> Result<Ordered, NoMemory>
    requires scope { scope ≡ mid.now.free + mid.now.outer }
    requires grouped { WasGrouped mid.now idle.now }
    ensures { IfOk result (λ found. IsOrdered mid.now idle.now found.order found.basic) }
{
    let rest = atoms_without(alloc, idle, mid.basic.as_slice())?;
    let order = met(alloc, mid.free, scope, &rest)?;
    let basic = number_all(alloc, mid.free, scope, order.as_slice(), &rest)?;
    Ok(Ordered { order, basic })
}

// Whether no variable is idle, and the basic and each variable stay as they are.
pub(crate) fn keeps_numbers(
    alloc: Global,
    mid: &Cube,
    scope: usize,
    idle: &[usize],
    ordered: &Ordered,
) -> Result<bool, NoMemory>
    requires scope { scope ≡ mid.now.free + mid.now.outer }
    requires grouped { WasGrouped mid.now idle.now }
    requires ordered { IsOrdered mid.now idle.now ordered.now.order ordered.now.basic }
    ensures { IfOk result (λ same. IsTrue same → KeepsNumbers mid.now idle.now ordered.now.order ordered.now.basic) }
{
    if idle.len() != 0 || !is_same_basic(&mid.basic, &ordered.basic) {
        return Ok(false);
    }
    let numbers = Numbers::new(alloc, mid.free, scope, ordered.order.as_slice())?;
    Ok(numbers.keep_all())
}

// The parts, with the variables of the order numbered first and the idle ones next.
fn renumbered(
    alloc: Global,
    free: usize,
    scope: usize,
    order: &[usize],
    idle: &[usize],
    parts: Parts,
) -> Result<Parts, NoMemory>
    requires low { free ≤ scope }
    requires distinct { IsDistinct (order.now ++ idle.now) }
    requires within { All (λ v. (free ≤ v) × (v < scope)) (order.now ++ idle.now) }
    ensures { IfOk result (λ new. new ≡ map (renumbered_part (new_number free scope (order.now ++ idle.now)) (length idle.now)) parts) }
{
    let mut all = List::new(alloc);
    copy_onto(alloc, &mut all, order)?;
    copy_onto(alloc, &mut all, idle)?;
    let numbers = Numbers::new(alloc, free, scope, all.as_slice())?;
    numbers.of_parts(alloc, idle.len(), &Basic::new(alloc), parts)
}

// The grouped cube with its settled parts, without its idle variables.
pub(crate) fn cleared(
    alloc: Global,
    mid: &Cube,
    scope: usize,
    idle: &[usize],
    ordered: Ordered,
    first: &[Part],
) -> Result<Cube, NoMemory>
    requires scope { scope ≡ mid.now.free + mid.now.outer }
    requires grouped { WasGrouped mid.now idle.now }
    requires ordered { IsOrdered mid.now idle.now ordered.order ordered.basic }
    requires settled { Settles (mid.now.free + mid.now.outer) mid.now.basic mid.now.parts first.now }
    ensures { IfOk result (IsCleared mid.now idle.now first.now) }
{
    let busy = busy(alloc, idle, first)?;
    let Ordered { order, basic } = ordered;
    let Some(count) = mid.free.checked_add(order.len()) else {
        return Err(NoMemory);
    };
    let moved = renumbered(alloc, mid.free, scope, order.as_slice(), idle, busy)?;
    let over = Over { count, base: basic };
    let second = all_settled(alloc, &over, moved.as_slice())?;
    let parts = finish(alloc, count, second.as_slice())?;
    Ok(Cube {
        free: mid.free,
        outer: order.len(),
        basic: over.base,
        parts,
    })
}
