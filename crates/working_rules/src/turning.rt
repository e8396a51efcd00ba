//! The list that a turn gives a branch.
ghost use Rattle.std.specs.Prelude.{ℕ, ◌≡◌, ◌+◌, ◌<◌, ◌≤◌, List, length, true, IfOk};
ghost use Rattle.flat_form.specs.declared.atom.Flat.{Flat};
ghost use Rattle.flat_form.specs.Numbering.{CubesOver};
ghost use Rattle.node_facts.specs.Branches.{size, is_ready, BranchOver};
ghost use Rattle.node_facts.specs.Nested.{Keeps};
ghost use Rattle.working_rules.specs.Forests.{branch_at};
ghost use Rattle.working_rules.specs.Joining.{IsWorkedOff, IsListAt};
ghost use Rattle.working_rules.specs.Rounds.{StandAbove, AreInScopes};
ghost use Rattle.working_rules.specs.State.{IsOpening};

use crate::Arena;
use crate::joining::{closed_list, first_list, join_parts};
use crate::round::{Round, close, open_round};
use basic_solver::Store;
use flat_form::Cubes;
use kept_cubes::keep;
use lists::NoMemory;
use std::alloc::Global;

// Those of the cubes that can hold together with the atoms round.
fn keep_beside(
    alloc: Global,
    store: &mut Store,
    round: &Round,
    cubes: &Cubes,
) -> Result<Cubes, NoMemory>
    requires some { 0 < length store.old.scopes }
    requires so_far { (under : List Flat) × AreInScopes under round.now.variables store.old.scopes round.now.is_solvable }
    requires over { (n : ℕ) × (round.now.variables ≤ n) × CubesOver n cubes.now }
    ensures stays { store.new.scopes ≡ store.old.scopes }
    ensures kept { IfOk result (λ kept. (under : List Flat) → AreInScopes under round.now.variables store.old.scopes round.now.is_solvable → Keeps under cubes.now kept) }
{
    if !round.is_solvable {
        return Ok(Cubes::new(alloc));
    }
    Ok(keep(alloc, store, round.variables, cubes)?)
}

// What the lists of the parts of the branch at this place come to, under the atoms round it, which are in the store.
fn list_under(
    alloc: Global,
    arena: &Arena,
    store: &mut Store,
    place: usize,
    round: &Round,
) -> Result<Cubes, NoMemory>
    requires some { 0 < length store.old.scopes }
    requires so_far { (under : List Flat) × AreInScopes under round.now.variables store.old.scopes round.now.is_solvable }
    requires within { place < size arena.now }
    requires ready { is_ready (branch_at place arena.now) ≡ true }
    requires over { BranchOver round.now.variables (branch_at place arena.now) }
    ensures stays { store.new.scopes ≡ store.old.scopes }
    ensures list { IfOk result (λ out. (under : List Flat) → AreInScopes under round.now.variables store.old.scopes round.now.is_solvable
        → IsWorkedOff round.now.variables under (branch_at place arena.now) out) }
{
    let slot = arena.slot(place);
    let Some(count) = round.variables.checked_add(slot.bound) else {
        return Err(NoMemory);
    };
    let first = first_list(alloc, count, &slot.basic)?;
    let all = join_parts(alloc, arena, place, count, first)?;
    let kept = keep_beside(alloc, store, round, &all)?;
    let closed = closed_list(alloc, round.variables, slot.bound, &kept)?;
    Ok(keep_beside(alloc, store, round, &closed)?)
}

// The same, once the atoms round it are in the store.
fn list_in_round(
    alloc: Global,
    arena: &Arena,
    store: &mut Store,
    place: usize,
    round: &mut Round,
) -> Result<Cubes, NoMemory>
    requires within { place < size arena.now }
    requires ready { is_ready (branch_at place arena.now) ≡ true }
    requires over { BranchOver round.old.variables arena.now }
    requires opening { IsOpening round.old.variables store.old }
    requires count { round.old.scopes ≡ 0 }
    requires solvable { round.old.is_solvable ≡ true }
    ensures above { StandAbove store.old.scopes round.new.scopes store.new.scopes }
    ensures list { IfOk result (IsListAt round.old.variables arena.now place) }
{
    open_round(arena, store, place, round)?;
    Ok(list_under(alloc, arena, store, place, round)?)
}

/// The list that a turn gives the branch at this place, which is ready. The scopes are as before, also after want of
/// memory.
pub(crate) fn list_at(
    alloc: Global,
    arena: &Arena,
    store: &mut Store,
    free: usize,
    place: usize,
) -> Result<Cubes, NoMemory>
    requires within { place < size arena.now }
    requires ready { is_ready (branch_at place arena.now) ≡ true }
    requires over { BranchOver free arena.now }
    requires opening { IsOpening free store.old }
    ensures stays { store.new.scopes ≡ store.old.scopes }
    ensures list { IfOk result (IsListAt free arena.now place) }
{
    let mut round = Round {
        scopes: 0,
        variables: free,
        is_solvable: true,
    };
    let list = list_in_round(alloc, arena, store, place, &mut round);
    close(store, round.scopes);
    list
}
