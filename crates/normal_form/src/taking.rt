//! The steps, taken on raw cubes one after the other.
ghost use Rattle.std.specs.Prelude.{◌≡◌, ◌∷◌, [], ◌++◌, ℕ, map, slice_get, Some, All, Contains, IfOk, OnOk, IsTrue, ◌↔◌};
ghost use Rattle.flat_form.specs.declared.cube.Cube.{Cube};
ghost use Rattle.flat_form.specs.Numbering.{IsWellNumbered, CubesOver};
ghost use Rattle.flat_form.specs.Raws.{joined};
ghost use Rattle.normal_form.specs.Remembered.{KeepsAll};
ghost use Rattle.normal_form.specs.Taking.{Continues, KeepsOne};
ghost use Rattle.step_facts.specs.Lists.{TakesSteps};

use crate::memory::Memory;
use flat_form::{Cube, Cubes, is_same_cube};
use lists::{Copied, NoMemory};
use std::alloc::Global;

// Whether the cube is one of these.
fn is_among(cubes: &[Cube], cube: &Cube) -> bool
    ensures { IsTrue result ↔ Contains cubes.now cube.now }
{
    for other in cubes {
        if is_same_cube(other, cube) {
            return true;
        }
    }
    false
}

/// The cube stands last, unless it is one of those so far.
pub(crate) fn push_new(cubes: &mut Cubes, cube: Cube) -> Result<(), NoMemory>
    ensures { OnOk result (KeepsOne cubes.old cube cubes.new) }
{
    if is_among(cubes.as_slice(), &cube) {
        return Ok(());
    }
    cubes.push(cube)
}

// A copy of the cube stands last, unless it is one of those so far.
fn push_copy(alloc: Global, cubes: &mut Cubes, cube: &Cube) -> Result<(), NoMemory>
    ensures { OnOk result (KeepsOne cubes.old cube.now cubes.new) }
{
    if is_among(cubes.as_slice(), cube) {
        return Ok(());
    }
    cubes.push(cube.copy(alloc)?)
}

/// Takes the steps on the raw cube. What they come to stands last, unless it is one of those so far.
pub(crate) fn take(
    alloc: Global,
    memory: &mut Memory,
    out: &mut Cubes,
    raw: Cube,
) -> Result<(), NoMemory>
    requires over { IsWellNumbered raw }
    ensures over { OnOk result (CubesOver raw.free out.old → CubesOver raw.free out.new) }
    ensures takes { OnOk result (Continues out.old (raw ∷ []) out.new) }
{
    match memory.reduce(alloc, raw)? {
        Some(cube) => push_new(out, cube),
        None => Ok(()),
    }
}

/// Takes the steps on each of the raw cubes.
pub(crate) fn take_all(alloc: Global, memory: &mut Memory, raws: &[Cube]) -> Result<Cubes, NoMemory>
    requires over { All IsWellNumbered raws.now }
    ensures over { IfOk result (λ out. (n : ℕ) → CubesOver n raws.now → CubesOver n out) }
    ensures takes { IfOk result (TakesSteps [] raws.now) }
{
    let mut out = Cubes::new(alloc);
    for raw in raws {
        take(alloc, memory, &mut out, raw.copy(alloc)?)?;
    }
    Ok(out)
}

// Takes the steps on the join of the cube, which stands at a place of the memory, with the other.
fn take_join(
    alloc: Global,
    memory: &mut Memory,
    out: &mut Cubes,
    left: usize,
    one: &Cube,
    other: &Cube,
) -> Result<(), NoMemory>
    requires left { slice_get memory.old left ≡ Some one.now }
    requires over { IsWellNumbered (joined one.now other.now) }
    ensures kept { KeepsAll memory.old memory.new }
    ensures over { OnOk result (CubesOver one.now.free out.old → CubesOver one.now.free out.new) }
    ensures takes { OnOk result (Continues out.old (joined one.now other.now ∷ []) out.new) }
{
    let right = memory.place_of(alloc, other)?;
    match memory.join(alloc, left, one, right, other)? {
        Some(place) => push_copy(alloc, out, memory.get(place)),
        None => Ok(()),
    }
}

/// Takes the steps on the cube joined with each of the others.
pub(crate) fn take_joined(
    alloc: Global,
    memory: &mut Memory,
    out: &mut Cubes,
    one: &Cube,
    others: &[Cube],
) -> Result<(), NoMemory>
    requires one { IsWellNumbered one.now }
    requires others { CubesOver one.now.free others.now }
    ensures over { OnOk result (CubesOver one.now.free out.old → CubesOver one.now.free out.new) }
    ensures takes { OnOk result (Continues out.old (map (joined one.now) others.now) out.new) }
{
    let left = memory.place_of(alloc, one)?;
    for other in others {
        take_join(alloc, memory, out, left, one, other)?;
    }
    Ok(())
}
