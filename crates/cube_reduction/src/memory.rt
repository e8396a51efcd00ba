//! What became of parts, so that none is settled twice over one conjunction.
ghost use Rattle.std.specs.Prelude.{◌≡◌, List, slice_get, Some, IfOk, IfSome};
ghost use Rattle.flat_form.specs.declared.atom.Flat.{Flat};
ghost use Rattle.cube_reduction.specs.Fates.{Becomes};

use crate::digests::{digest_basic, digest_part};
use crate::fates::Fate;
use flat_form::{Basic, Part, is_same_basic, is_same_part};
use lists::{Copied, List, NoMemory};
use std::alloc::Global;
use std::collections::HashMap;
use std::marker::Model;

// A part over the first `count` variables and the conjunction at a place, and what became of it.
#[derive(Debug, Drop)]
struct Known {
    base: usize,
    count: usize,
    part: Part,
    fate: Fate,
}

/// Solved conjunctions, each at its place, and what became of parts over them. Contracts see the conjunctions.
///
/// The tables say where to look, and what is found there is compared. So a part may be forgotten, but none is mistaken.
#[derive(Drop)]
pub struct Memory {
    bases: List<Basic>,
    known: List<Known>,
    by_base: HashMap<u64, usize>,
    by_part: HashMap<(usize, usize, u64), usize>,
}

impl Model for Memory {
    ghost use Rattle.std.specs.Prelude.{List, All};
    ghost use Rattle.flat_form.specs.declared.atom.Flat.{Flat};
    ghost use Rattle.cube_reduction.specs.Remembered.{IsRight};

    ghost Value = { List (List Flat) };

    ghost view = { λ m. m.bases };

    ghost invariant = { λ m. All (IsRight m.bases) m.known };
}

impl Memory {
    /// Nothing is kept.
    pub fn new(alloc: Global) -> Memory {
        Memory {
            bases: List::new(alloc),
            known: List::new(alloc),
            by_base: HashMap::new(alloc),
            by_part: HashMap::new(alloc),
        }
    }

    // The place of the conjunction, if the table leads there.
    fn place(&self, digest: u64, base: &Basic) -> Option<usize>
        ensures { IfSome result (λ place. slice_get self.now place ≡ Some base.now) }
    {
        let place = *self.by_base.get(&digest)?;
        if place < self.bases.len() && is_same_basic(self.bases.get(place), base) {
            Some(place)
        } else {
            None
        }
    }

    /// Keeps a copy of the conjunction, and gives its place.
    pub(crate) fn place_of(&mut self, alloc: Global, base: &Basic) -> Result<usize, NoMemory>
        ensures { IfOk result (λ place. slice_get self.new place ≡ Some base.now) }
    {
        let digest = digest_basic(base);
        if let Some(place) = self.place(digest, base) {
            return Ok(place);
        }
        let place = self.bases.len();
        self.bases.push(base.copy(alloc)?)?;
        self.by_base.insert(digest, place)?;
        Ok(place)
    }

    /// What becomes of the part over the conjunction at this place, if the table leads there.
    pub(crate) fn recall(&self, place: usize, count: usize, part: &Part) -> Option<&Fate>
        ensures { IfSome result (λ fate. (base : List Flat) → slice_get self.now place ≡ Some base → Becomes count base part.now fate.now) }
    {
        let i = *self.by_part.get(&(place, count, digest_part(part)))?;
        if i >= self.known.len() {
            return None;
        }
        let known = self.known.get(i);
        if known.base == place && known.count == count && is_same_part(&known.part, part) {
            Some(&known.fate)
        } else {
            None
        }
    }

    /// Notes what becomes of the part over the conjunction at this place.
    pub(crate) fn note(
        &mut self,
        place: usize,
        count: usize,
        part: Part,
        fate: Fate,
    ) -> Result<(), NoMemory>
        requires { (base : List Flat) × (slice_get self.old place ≡ Some base) × Becomes count base part fate }
        ensures { self.new ≡ self.old }
    {
        let i = self.known.len();
        let key = (place, count, digest_part(&part));
        self.known.push(Known {
            base: place,
            count,
            part,
            fate,
        })?;
        self.by_part.insert(key, i)?;
        Ok(())
    }
}
