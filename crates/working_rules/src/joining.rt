//! What the lists of the parts of a branch come to.
ghost use Rattle.std.specs.Prelude.{ℕ, ◌≡◌, ◌+◌, ◌<◌, ◌≤◌, List, [], ◌∷◌, length, true, false, IfOk};
ghost use Rattle.flat_form.specs.declared.atom.Flat.{Flat};
ghost use Rattle.flat_form.specs.declared.cube.Cube.{Cube};
ghost use Rattle.flat_form.specs.Normals.{norm, none};
ghost use Rattle.flat_form.specs.Numbering.{BasicOver, CubesOver};
ghost use Rattle.step_facts.specs.Lists.{TakesSteps, IsAnd, IsClosed, IsPlain};
ghost use Rattle.node_facts.specs.Agreement.{HasList};
ghost use Rattle.node_facts.specs.Branches.{size, is_waiting, is_ready, BranchOver, BranchesOver};
ghost use Rattle.working_rules.specs.Forests.{branch_at};
ghost use Rattle.working_rules.specs.Joining.{parts_in, IsJoinedWith};

use crate::{Arena, Slot};
use cube_reduction::reduce;
use flat_form::{Basic, Cube, Cubes, Parts};
use lists::{Copied, NoMemory};
use normal_form::{and, exists, not};
use std::alloc::Global;

/// The list of the atoms alone, over so many variables.
pub(crate) fn first_list(alloc: Global, count: usize, basic: &Basic) -> Result<Cubes, NoMemory>
    requires { BasicOver count basic.now }
    ensures over { IfOk result (CubesOver count) }
    ensures first { IfOk result (TakesSteps [] (record { free = count; outer = 0; basic = basic.now; parts = [] } ∷ [])) }
{
    let raw = Cube {
        free: count,
        outer: 0,
        basic: basic.copy(alloc)?,
        parts: Parts::new(alloc),
    };
    let mut out = Cubes::new(alloc);
    match reduce(alloc, &raw)? {
        Some(cube) => {
            out.push(cube)?;
            Ok(out)
        }
        None => Ok(out),
    }
}

/// The list that says that no values of the last `bound` variables make a cube hold. It is over the `free` others.
pub(crate) fn closed_list(
    alloc: Global,
    free: usize,
    bound: usize,
    cubes: &Cubes,
) -> Result<Cubes, NoMemory>
    requires { CubesOver (free + bound) cubes.now }
    ensures over { IfOk result (CubesOver free) }
    ensures closed { IfOk result (IsClosed free bound cubes.now) }
{
    let shut = exists(alloc, bound, cubes)?;
    Ok(not(alloc, free, &shut)?)
}

// The list of a branch without parts, over so many variables.
fn plain_list(alloc: Global, free: usize, slot: &Slot) -> Result<Cubes, NoMemory>
    requires { BasicOver (free + slot.now.bound) slot.now.basic }
    ensures over { IfOk result (CubesOver free) }
    ensures plain { IfOk result (IsPlain free (norm slot.now.bound slot.now.basic none)) }
{
    let Some(count) = free.checked_add(slot.bound) else {
        return Err(NoMemory);
    };
    let first = first_list(alloc, count, &slot.basic)?;
    Ok(closed_list(alloc, free, slot.bound, &first)?)
}

// The list joined with that of the branch at this place, which does not wait.
fn join_part(
    alloc: Global,
    arena: &Arena,
    part: usize,
    count: usize,
    all: &Cubes,
) -> Result<Cubes, NoMemory>
    requires within { part < size arena.now }
    requires done { is_waiting (branch_at part arena.now) ≡ false }
    requires part { BranchOver count (branch_at part arena.now) }
    requires all { CubesOver count all.now }
    ensures over { IfOk result (CubesOver count) }
    ensures joined { IfOk result (λ next. (list : List Cube) × HasList count (branch_at part arena.now) list × IsAnd all.now list next) }
{
    let slot = arena.slot(part);
    match &slot.list {
        Some(list) => Ok(and(alloc, all, list)?),
        None => {
            let list = plain_list(alloc, count, slot)?;
            Ok(and(alloc, all, &list)?)
        }
    }
}

/// The list joined with those of the parts of the branch at this place, which is ready.
pub(crate) fn join_parts(
    alloc: Global,
    arena: &Arena,
    place: usize,
    count: usize,
    first: Cubes,
) -> Result<Cubes, NoMemory>
    requires within { place < size arena.now }
    requires ready { is_ready (branch_at place arena.now) ≡ true }
    requires parts { BranchesOver count (parts_in (branch_at place arena.now)) }
    requires first { CubesOver count first }
    ensures over { IfOk result (CubesOver count) }
    ensures joined { IfOk result (IsJoinedWith count first (parts_in (branch_at place arena.now))) }
{
    let end = arena.slot(place).end;
    let mut all = first;
    let mut part = place + 1;
    while part < end {
        all = join_part(alloc, arena, part, count, &all)?;
        part = arena.slot(part).end;
    }
    Ok(all)
}
