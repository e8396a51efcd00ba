//! The atoms round a branch, in scopes of a store.
ghost use Rattle.std.specs.Prelude.{ℕ, ◌≡◌, ◌+◌, ◌^◌, ◌<◌, ◌≤◌, ◌++◌, List, length, true, OnOk, IfOk};
ghost use Rattle.flat_form.specs.declared.atom.Flat.{Flat};
ghost use Rattle.flat_form.specs.Numbering.{BasicOver};
ghost use Rattle.basic_solver.specs.declared.scope.Scope.{Scope};
ghost use Rattle.basic_solver.specs.Stores.{open_in};
ghost use Rattle.kept_cubes.specs.Asking.{IsOverSame, AreAsserted};
ghost use Rattle.node_facts.specs.Branches.{size, BranchOver};
ghost use Rattle.working_rules.specs.Rounds.{lowered, StandAbove, AreInScopes, IsRoundOf};
ghost use Rattle.working_rules.specs.State.{IsOpening};

use crate::{Arena, Slot};
use basic_solver::{Asserted, Store};
use flat_form::Flat;
use lists::NoMemory;

/// How many scopes were opened for the branches round one, how many variables there are, and whether the atoms have a
/// solution. Where they have none, the last of them are not asserted.
#[derive(Drop)]
pub(crate) struct Round {
    pub(crate) scopes: usize,
    pub(crate) variables: usize,
    pub(crate) is_solvable: bool,
}

// Asserts the atoms, in order, up to the first that clashes. Whether none does.
fn assert_all(store: &mut Store, atoms: &[Flat]) -> Result<bool, NoMemory>
    requires some { 0 < length store.old.scopes }
    requires over { BasicOver (open_in store.old.scopes) atoms.now }
    ensures lower { IsOverSame store.old.scopes store.new.scopes }
    ensures answer { IfOk result (AreAsserted store.old.scopes atoms.now store.new.scopes) }
{
    for atom in atoms {
        match store.assert(atom)? {
            Asserted::Clash => return Ok(false),
            Asserted::Kept { .. } => {}
        }
    }
    Ok(true)
}

// Opens a scope for the bound variables of a branch and asserts its atoms there, if all before have a solution.
fn enter(store: &mut Store, slot: &Slot, round: &mut Round) -> Result<(), NoMemory>
    requires some { 0 < length store.old.scopes }
    requires room { round.old.scopes + 1 < 2 ^ 64 }
    requires so_far { (atoms : List Flat) × AreInScopes atoms round.old.variables store.old.scopes round.old.is_solvable }
    requires over { BasicOver (round.old.variables + slot.now.bound) slot.now.basic }
    ensures count { round.new.scopes ≤ round.old.scopes + 1 }
    ensures above { (lowest : List Scope) → StandAbove lowest round.old.scopes store.old.scopes → StandAbove lowest round.new.scopes store.new.scopes }
    ensures variables { OnOk result (round.new.variables ≡ round.old.variables + slot.now.bound) }
    ensures asserted { OnOk result ((atoms : List Flat) → AreInScopes atoms round.old.variables store.old.scopes round.old.is_solvable
        → AreInScopes (atoms ++ slot.now.basic) round.new.variables store.new.scopes round.new.is_solvable) }
{
    let Some(variables) = round.variables.checked_add(slot.bound) else {
        return Err(NoMemory);
    };
    round.variables = variables;
    if !round.is_solvable {
        return Ok(());
    }
    store.push(slot.bound)?;
    round.scopes += 1;
    round.is_solvable = assert_all(store, slot.basic.as_slice())?;
    Ok(())
}

/// Opens a scope for each branch round the one at this place, from the root on, and asserts its atoms there, up to the
/// first that clashes.
pub(crate) fn open_round(
    arena: &Arena,
    store: &mut Store,
    place: usize,
    round: &mut Round,
) -> Result<(), NoMemory>
    requires within { place < size arena.now }
    requires over { BranchOver round.old.variables arena.now }
    requires opening { IsOpening round.old.variables store.old }
    requires count { round.old.scopes ≡ 0 }
    requires solvable { round.old.is_solvable ≡ true }
    ensures above { StandAbove store.old.scopes round.new.scopes store.new.scopes }
    ensures opened { OnOk result (IsRoundOf round.old.variables arena.now place round.new.variables store.new.scopes round.new.is_solvable) }
{
    let mut at = 0;
    while at < place {
        let slot = arena.slot(at);
        if slot.end > place {
            enter(store, slot, round)?;
            at += 1;
        } else {
            at = slot.end;
        }
    }
    Ok(())
}

/// Gives up the last so many scopes. It takes no memory.
pub(crate) fn close(store: &mut Store, count: usize)
    requires { count < length store.old.scopes }
    ensures { store.new.scopes ≡ lowered count store.old.scopes }
{
    let mut left = count;
    while left > 0 {
        store.pop();
        left -= 1;
    }
}
