//! A machine that solves a negated conjunction branch by branch, in any order.
ghost use Rattle.std.specs.Prelude.{◌≡◌, ◌+◌, ◌<◌, ◌↔◌, [], length, Some, IfOk, OnOk, OnErr};
ghost use Rattle.tree_model.specs.Signatures.{Signature};
ghost use Rattle.tree_model.specs.Valuations.{Valuation};
ghost use Rattle.flat_form.specs.Fitting.{NormFits};
ghost use Rattle.flat_form.specs.Meanings.{SomeHolds, NormHolds};
ghost use Rattle.flat_form.specs.Normals.{norm_of};
ghost use Rattle.flat_form.specs.Numbering.{NormOver};
ghost use Rattle.node_facts.specs.Branches.{norm_in, unturned, ready_places, waiting, with_parts, BranchHolds};
ghost use Rattle.node_facts.specs.Nested.{IsNestedList};
ghost use Rattle.working_rules.specs.Forests.{list_in};
ghost use Rattle.working_rules.specs.State.{IsOpening, Turned};

use crate::Arena;
use crate::turning::list_at;
use basic_solver::Store;
use flat_form::{Cubes, Normal};
use lists::NoMemory;
use std::alloc::Global;
use std::marker::Model;

/// A tree of branches that is being solved, and the store on which it is.
#[derive(Drop)]
pub struct Machine {
    alloc: Global,
    free: usize,
    arena: Arena,
    store: Store,
    turns: u64,
}

impl Model for Machine {
    ghost use Rattle.working_rules.specs.Codes.{state_code};
    ghost use Rattle.working_rules.specs.Machines.{IsMachine};
    ghost use Rattle.working_rules.specs.State.{State};

    ghost Value = { State };

    ghost coded = { state_code };

    ghost view = { λ m. record { free = m.free; root = m.arena; store = m.store; turns = m.turns } };

    ghost invariant = { λ m. IsMachine (record { free = m.free; root = m.arena; store = m.store; turns = m.turns }) };
}

impl Machine {
    /// A machine for a negated conjunction over `free` variables, before the first turn. It has at least one part.
    pub fn new(alloc: Global, free: usize, n: &Normal) -> Result<Machine, NoMemory>
        requires over { NormOver free (norm_of n.now) }
        requires parts { 0 < with_parts (norm_of n.now) }
        ensures free { IfOk result (λ machine. machine.free ≡ free) }
        ensures unturned { IfOk result (λ machine. machine.root ≡ unturned (norm_of n.now)) }
        ensures turns { IfOk result (λ machine. machine.turns ≡ 0) }
        ensures opening { IfOk result (λ machine. IsOpening free machine.store) }
        ensures means { IfOk result (λ machine. (σ : Signature) (e : Valuation σ) → BranchHolds free e machine.root ↔ NormHolds free e (norm_of n.now)) }
    {
        let arena = Arena::plant(alloc, n)?;
        let store = Store::new(alloc, free)?;
        Ok(Machine {
            alloc,
            free,
            arena,
            store,
            turns: 0,
        })
    }

    /// How many branches are ready. It takes no memory.
    pub fn ready(&self) -> usize
        ensures count { result ≡ length (ready_places 0 self.now.root) }
        ensures none { (result ≡ 0) ↔ (waiting self.now.root ≡ 0) }
    {
        self.arena.ready()
    }

    /// Works off the ready branch with this number, in the order of places. The store has its opening contents again, also
    /// after want of memory.
    pub fn turn(&mut self, pick: usize) -> Result<(), NoMemory>
        requires { pick < length (ready_places 0 self.old.root) }
        ensures turned { OnOk result (Turned self.old pick self.new) }
        ensures whole { OnOk result ((σ : Signature) (e : Valuation σ) → NormFits σ (norm_in self.old.root)
            → BranchHolds self.old.free e self.old.root ↔ BranchHolds self.new.free e self.new.root) }
        ensures norm { norm_in self.new.root ≡ norm_in self.old.root }
        ensures free { self.new.free ≡ self.old.free }
        ensures opening { IsOpening self.new.free self.new.store }
        ensures err { OnErr result ((self.new.root ≡ self.old.root) × (self.new.turns ≡ self.old.turns)) }
    {
        let Some(turns) = self.turns.checked_add(1) else {
            return Err(NoMemory);
        };
        let place = self.arena.ready_place(pick);
        let list = list_at(self.alloc, &self.arena, &mut self.store, self.free, place)?;
        self.arena.put_list(place, list);
        self.turns = turns;
        Ok(())
    }

    /// The store. It takes no memory.
    pub fn store(&self) -> &Store
        ensures { result.now ≡ self.now.store }
    {
        &self.store
    }

    /// How many turns were made. It takes no memory.
    pub fn turns(&self) -> u64
        ensures count { result ≡ self.now.turns }
        ensures sum { result + waiting self.now.root ≡ with_parts (norm_in self.now.root) }
    {
        self.turns
    }

    /// The list of the root, once no branch is ready. It takes no memory.
    pub fn into_cubes(self) -> Cubes
        requires { length (ready_places 0 self.root) ≡ 0 }
        ensures root { list_in self.root ≡ Some result }
        ensures nested { (σ : Signature) → NormFits σ (norm_in self.root) → IsNestedList self.free (norm_in self.root) result }
        ensures state { (σ : Signature) (e : Valuation σ) → SomeHolds e result ↔ BranchHolds self.free e self.root }
        ensures means { (σ : Signature) (e : Valuation σ) → NormFits σ (norm_in self.root) → SomeHolds e result ↔ NormHolds self.free e (norm_in self.root) }
    {
        match self.arena.into_list() {
            Some(list) => list,
            None => unreachable!(),
        }
    }
}
