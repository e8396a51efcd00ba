//! A negated conjunction as a list of slots.
ghost use Rattle.std.specs.Prelude.{◌≡◌, ◌++◌, length, OnOk};
ghost use Rattle.flat_form.specs.Normals.{norm_of, norms_of};
ghost use Rattle.node_facts.specs.Branches.{unturned, all_unturned};
ghost use Rattle.working_rules.specs.Slots.{slots_of, all_slots_of};

use crate::Slot;
use flat_form::{Normal, Normals};
use lists::{Copied, NoMemory};
use std::alloc::Global;

// Puts the slots of a negated conjunction last.
#[cycle(plant)]
pub(crate) fn plant(alloc: Global, slots: &mut Vec<Slot>, n: &Normal) -> Result<(), NoMemory>
    ensures { OnOk result (slots.new.items ≡ slots.old.items ++ slots_of (length slots.old.items) (unturned (norm_of n.now))) }
{
    let at = slots.len();
    let slot = Slot {
        bound: n.bound,
        basic: n.basic.copy(alloc)?,
        parts: n.parts.len(),
        end: at,
        list: None,
    };
    slots.push(slot)?;
    plant_parts(alloc, slots, &n.parts)?;
    slots[at].end = slots.len();
    Ok(())
}

// Puts those of its parts last.
#[cycle(plant)]
fn plant_parts(alloc: Global, slots: &mut Vec<Slot>, parts: &Normals) -> Result<(), NoMemory>
    ensures { OnOk result (slots.new.items ≡ slots.old.items ++ all_slots_of (length slots.old.items) (all_unturned (norms_of parts.now))) }
{
    for i in 0..parts.len() {
        plant(alloc, slots, parts.get(i))?;
    }
    Ok(())
}
