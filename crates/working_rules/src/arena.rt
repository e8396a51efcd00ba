//! A tree of branches, in one list of slots.
ghost use Rattle.std.specs.Prelude.{◌≡◌, ◌<◌, ◌↔◌, length, slice_get, Some, IfOk};
ghost use Rattle.flat_form.specs.Normals.{norm_of};
ghost use Rattle.node_facts.specs.Branches.{unturned, size, is_waiting, is_ready, ready_places, waiting};
ghost use Rattle.node_facts.specs.Places.{listed};
ghost use Rattle.working_rules.specs.Forests.{branch_at, list_in};
ghost use Rattle.working_rules.specs.Slots.{slot_of};

use crate::Slot;
use crate::planting::plant;
use flat_form::{Cubes, Normal};
use lists::NoMemory;
use std::alloc::Global;
use std::marker::Model;

/// A tree of branches, each with its list once it has one.
#[derive(Drop)]
pub struct Arena {
    slots: Vec<Slot>,
}

impl Model for Arena {
    ghost use Rattle.node_facts.specs.Branches.{Branch};
    ghost use Rattle.working_rules.specs.Codes.{branch_code};
    ghost use Rattle.working_rules.specs.Slots.{root_in, IsTree};

    ghost Value = { Branch };

    ghost coded = { branch_code };

    ghost view = { λ arena. root_in arena.slots.items };

    ghost invariant = { λ arena. IsTree arena.slots.items };
}

impl Arena {
    /// The tree of a negated conjunction, in which no branch has a list.
    pub fn plant(alloc: Global, n: &Normal) -> Result<Arena, NoMemory>
        ensures { IfOk result (λ arena. arena ≡ unturned (norm_of n.now)) }
    {
        let mut slots = Vec::new(alloc);
        plant(alloc, &mut slots, n)?;
        Ok(Arena { slots })
    }

    /// How many branches there are. It takes no memory.
    pub fn len(&self) -> usize
        ensures { result ≡ size self.now }
    {
        self.slots.len()
    }

    /// What is noted of the branch at place i, where the root stands at place 0. It takes no memory.
    pub fn slot(&self, i: usize) -> &Slot
        requires { i < size self.now }
        ensures { result.now ≡ slot_of i (branch_at i self.now) }
    {
        &self.slots[i]
    }

    // The branch at place i has parts and no list.
    fn is_waiting(&self, i: usize) -> bool
        requires { i < size self.now }
        ensures { result ≡ is_waiting (branch_at i self.now) }
    {
        let slot = self.slot(i);
        slot.parts > 0 && slot.list.is_none()
    }

    // It waits, and none of its parts does.
    fn is_ready(&self, i: usize) -> bool
        requires { i < size self.now }
        ensures { result ≡ is_ready (branch_at i self.now) }
    {
        if !self.is_waiting(i) {
            return false;
        }
        let end = self.slot(i).end;
        let mut part = i + 1;
        while part < end {
            if self.is_waiting(part) {
                return false;
            }
            part = self.slot(part).end;
        }
        true
    }

    /// How many branches are ready: they have parts and no list, and none of their parts is so. It takes no memory.
    pub fn ready(&self) -> usize
        ensures count { result ≡ length (ready_places 0 self.now) }
        ensures none { (result ≡ 0) ↔ (waiting self.now ≡ 0) }
    {
        let mut count = 0;
        for i in 0..self.len() {
            if self.is_ready(i) {
                count += 1;
            }
        }
        count
    }

    /// The place of the ready branch with this number, in the order of places. It takes no memory.
    pub fn ready_place(&self, pick: usize) -> usize
        requires { pick < length (ready_places 0 self.now) }
        ensures place { slice_get (ready_places 0 self.now) pick ≡ Some result }
        ensures within { result < size self.now }
    {
        let mut left = pick;
        for i in 0..self.len() {
            if self.is_ready(i) {
                if left == 0 {
                    return i;
                }
                left -= 1;
            }
        }
        unreachable!()
    }

    /// Puts the list at the branch at place i, in place of the one there, if any. It takes no memory.
    pub fn put_list(&mut self, i: usize, list: Cubes)
        requires { i < size self.old }
        ensures { self.new ≡ listed i list self.old }
    {
        self.slots[i].list = Some(list);
    }

    /// The list of the root, if it has one. It takes no memory.
    pub fn into_list(self) -> Option<Cubes>
        ensures { result ≡ list_in self }
    {
        let mut slots = self.slots;
        slots.swap_remove(0).list
    }
}
