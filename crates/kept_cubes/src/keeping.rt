//! The cubes of a list that can hold together with the atoms of a store.
ghost use Rattle.std.specs.Prelude.{◌≡◌, ◌<◌, ◌≤◌, length, IfOk, All};
ghost use Rattle.flat_form.specs.Numbering.{IsWellNumbered};
ghost use Rattle.basic_solver.specs.Stores.{atoms_of, open_in};
ghost use Rattle.node_facts.specs.Nested.{Keeps};

use crate::holds_together;
use basic_solver::Store;
use flat_form::Cubes;
use lists::{Copied, NoMemory};
use std::alloc::Global;

/// The cubes that can hold together with the atoms of the open scopes, in order. The scopes are as before, also after want
/// of memory.
pub fn keep(
    alloc: Global,
    store: &mut Store,
    count: usize,
    cubes: &Cubes,
) -> Result<Cubes, NoMemory>
    requires some { 0 < length store.old.scopes }
    requires counted { count ≡ open_in store.old.scopes }
    requires over { All IsWellNumbered cubes.now }
    requires free { All (λ cube. count ≤ cube.free) cubes.now }
    ensures stays { store.new.scopes ≡ store.old.scopes }
    ensures kept { IfOk result (Keeps (atoms_of store.old.scopes) cubes.now) }
{
    let mut kept = Cubes::new(alloc);
    for cube in cubes.as_slice() {
        if holds_together(alloc, store, count, cube)? {
            kept.push(cube.copy(alloc)?)?;
        }
    }
    Ok(kept)
}
