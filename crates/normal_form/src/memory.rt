//! What joins of cubes came to, so that none is made twice.
ghost use Rattle.std.specs.Prelude.{◌≡◌, ◌<◌, length, slice_get, Some, IfSome, IfOk};
ghost use Rattle.flat_form.specs.Numbering.{IsWellNumbered};
ghost use Rattle.flat_form.specs.Raws.{joined};
ghost use Rattle.flat_form.specs.Steps.{Outcome};
ghost use Rattle.flat_form.specs.declared.cube.Cube.{Cube};
ghost use Rattle.normal_form.specs.Remembered.{KeepsAll, ComesTo, IsRight};

use crate::raws::join;
use cube_reduction::{digest_cube, reduce_by};
use flat_form::{Cube, Cubes, is_same_cube};
use lists::{Copied, List, NoMemory};
use std::alloc::Global;
use std::collections::HashMap;
use std::marker::Model;

// A join of two cubes, by their places, and the place of what the steps on it come to. None where they come to none.
#[derive(Clone, Copy, Debug, Drop)]
struct Join {
    left: usize,
    right: usize,
    outcome: Option<usize>,
}

/// Cubes, each at its place, what joins of them came to, and what their parts were settled to. Contracts see the cubes.
///
/// The tables say where to look, and what is found there is compared. So a join may be forgotten, but none is mistaken.
#[derive(Drop)]
pub(crate) struct Memory {
    cubes: Cubes,
    joins: List<Join>,
    by_digest: HashMap<u64, usize>,
    by_places: HashMap<(usize, usize), usize>,
    parts: cube_reduction::Memory,
}

impl Model for Memory {
    ghost use Rattle.std.specs.Prelude.{List, All};
    ghost use Rattle.flat_form.specs.declared.cube.Cube.{Cube};
    ghost use Rattle.normal_form.specs.Remembered.{IsRight};

    ghost Value = { List Cube };

    ghost view = { λ m. m.cubes };

    ghost invariant = { λ m. All (IsRight m.cubes) m.joins };
}

impl Memory {
    /// No cube is kept.
    pub(crate) fn new(alloc: Global) -> Memory {
        Memory {
            cubes: Cubes::new(alloc),
            joins: List::new(alloc),
            by_digest: HashMap::new(alloc),
            by_places: HashMap::new(alloc),
            parts: cube_reduction::Memory::new(alloc),
        }
    }

    /// The cube at this place.
    pub(crate) fn get(&self, place: usize) -> &Cube
        requires { place < length self.now }
        ensures { slice_get self.now place ≡ Some result.now }
    {
        self.cubes.get(place)
    }

    // The place of the cube, if the table leads there.
    fn place(&self, digest: u64, cube: &Cube) -> Option<usize>
        ensures { IfSome result (λ place. slice_get self.now place ≡ Some cube.now) }
    {
        let place = *self.by_digest.get(&digest)?;
        if place < self.cubes.len() && is_same_cube(self.cubes.get(place), cube) {
            Some(place)
        } else {
            None
        }
    }

    // Keeps the cube at a new place.
    fn keep_last(&mut self, digest: u64, cube: Cube) -> Result<usize, NoMemory>
        ensures kept { KeepsAll self.old self.new }
        ensures place { IfOk result (λ place. slice_get self.new place ≡ Some cube) }
    {
        let place = self.cubes.len();
        self.cubes.push(cube)?;
        self.by_digest.insert(digest, place)?;
        Ok(place)
    }

    /// Keeps a copy of the cube, and gives its place.
    pub(crate) fn place_of(&mut self, alloc: Global, cube: &Cube) -> Result<usize, NoMemory>
        ensures kept { KeepsAll self.old self.new }
        ensures place { IfOk result (λ place. slice_get self.new place ≡ Some cube.now) }
    {
        let digest = digest_cube(cube);
        if let Some(place) = self.place(digest, cube) {
            return Ok(place);
        }
        self.keep_last(digest, cube.copy(alloc)?)
    }

    // Keeps the cube, and gives its place.
    fn keep(&mut self, cube: Cube) -> Result<usize, NoMemory>
        ensures kept { KeepsAll self.old self.new }
        ensures place { IfOk result (λ place. slice_get self.new place ≡ Some cube) }
    {
        let digest = digest_cube(&cube);
        if let Some(place) = self.place(digest, &cube) {
            return Ok(place);
        }
        self.keep_last(digest, cube)
    }

    // What the join of the cubes at these places came to, if the table leads there.
    fn recall(&self, left: usize, right: usize) -> Option<Option<usize>>
        ensures { IfSome result (λ outcome. (one other : Cube) → slice_get self.now left ≡ Some one → slice_get self.now right ≡ Some other
            → ComesTo self.now (joined one other) outcome) }
    {
        let i = *self.by_places.get(&(left, right))?;
        if i >= self.joins.len() {
            return None;
        }
        let join = self.joins.get(i);
        if join.left == left && join.right == right {
            Some(join.outcome)
        } else {
            None
        }
    }

    // Notes what the join of the cubes at these places came to.
    fn note(&mut self, left: usize, right: usize, outcome: Option<usize>) -> Result<(), NoMemory>
        requires { IsRight self.old (record { left = left; right = right; outcome = outcome }) }
        ensures { self.new ≡ self.old }
    {
        let i = self.joins.len();
        self.joins.push(Join {
            left,
            right,
            outcome,
        })?;
        self.by_places.insert((left, right), i)?;
        Ok(())
    }

    /// What the steps on the raw cube come to.
    pub(crate) fn reduce(&mut self, alloc: Global, raw: Cube) -> Result<Option<Cube>, NoMemory>
        requires { IsWellNumbered raw }
        ensures kept { self.new ≡ self.old }
        ensures outcome { IfOk result (Outcome raw) }
        ensures over { IfOk result (λ found. IfSome found (λ cube. (cube.free ≡ raw.free) × IsWellNumbered cube)) }
    {
        reduce_by(alloc, &mut self.parts, raw)
    }

    /// The place of what the steps on the join of both cubes, which stand at these places, come to. None where they
    /// come to none.
    pub(crate) fn join(
        &mut self,
        alloc: Global,
        left: usize,
        one: &Cube,
        right: usize,
        other: &Cube,
    ) -> Result<Option<usize>, NoMemory>
        requires left { slice_get self.old left ≡ Some one.now }
        requires right { slice_get self.old right ≡ Some other.now }
        requires over { IsWellNumbered (joined one.now other.now) }
        ensures kept { KeepsAll self.old self.new }
        ensures outcome { IfOk result (ComesTo self.new (joined one.now other.now)) }
    {
        if let Some(outcome) = self.recall(left, right) {
            return Ok(outcome);
        }
        let raw = join(alloc, one, other)?;
        let outcome = match self.reduce(alloc, raw)? {
            Some(cube) => Some(self.keep(cube)?),
            None => None,
        };
        self.note(left, right, outcome)?;
        Ok(outcome)
    }
}
