//! Variables in the order in which they are met, with the place of each.
ghost use Rattle.std.specs.Prelude.{◌≡◌, ◌<◌, ◌≤◌, [], ◌∷◌, length, slice_index, IfOk, MatchOption, All, Contains};
ghost use Rattle.flat_form.specs.Orders.{place_of};
ghost use Rattle.witness_trees.specs.Meeting.{AreEntered};

use std::alloc::Global;
use std::marker::Model;
use tree_model::{NoMemory, Places};

/// Variables in the order in which they were met. The table has the place of each that was met, and anything for others.
#[derive(Drop)]
pub(crate) struct Met {
    order: Vec<usize>,
    places: Vec<usize>,
}

impl Model for Met {
    ghost use Rattle.std.specs.Prelude.{length};
    ghost use Rattle.witness_trees.specs.Meeting.{Meeting, AreMet};

    ghost Value = { Meeting };

    ghost view = { λ m. record { order = m.order.items; count = length m.places.items } };

    ghost invariant = { λ m. AreMet m.order.items m.places.items };
}

impl Met {
    /// None of `count` variables was met.
    pub(crate) fn new(alloc: Global, count: usize) -> Result<Met, NoMemory>
        ensures order { IfOk result (λ met. met.order ≡ []) }
        ensures count { IfOk result (λ met. met.count ≡ count) }
    {
        Ok(Met {
            order: Vec::new(alloc),
            places: vec![in alloc; 0; count]?,
        })
    }

    /// How many were met.
    pub(crate) fn len(&self) -> usize
        ensures is { result ≡ length self.now.order }
        ensures most { length self.now.order ≤ self.now.count }
    {
        self.order.len()
    }

    /// The variable that was met as the i-th.
    pub(crate) fn get(&self, i: usize) -> usize
        requires { i < length self.now.order }
        ensures item { result ≡ slice_index self.now.order i }
        ensures within { result < self.now.count }
    {
        self.order[i]
    }

    // The place of a variable, where it was met.
    fn place(&self, v: usize) -> Option<usize>
        requires within { v < self.now.count }
        ensures { MatchOption result (¬ Contains self.now.order v) (λ place. Contains self.now.order v × (place ≡ place_of self.now.order v)) }
    {
        let place = self.places[v];
        if place >= self.order.len() {
            return None;
        }
        if self.order[place] == v {
            Some(place)
        } else {
            None
        }
    }

    // Meets a variable, and answers its place.
    fn enter(&mut self, v: usize) -> Result<usize, NoMemory>
        requires within { v < self.old.count }
        ensures count { self.new.count ≡ self.old.count }
        ensures entered { IfOk result (λ place. AreEntered self.old.order self.new.order (v ∷ []) (place ∷ [])) }
    {
        if let Some(place) = self.place(v) {
            return Ok(place);
        }
        let place = self.order.len();
        self.order.push(v)?;
        self.places[v] = place;
        Ok(place)
    }

    /// Meets variables one after the other, and answers their places.
    pub(crate) fn enter_all(&mut self, alloc: Global, vs: &[usize]) -> Result<Places, NoMemory>
        requires within { All (λ v. v < self.old.count) vs.now }
        ensures count { self.new.count ≡ self.old.count }
        ensures entered { IfOk result (AreEntered self.old.order self.new.order vs.now) }
    {
        let mut places = Places::new(alloc);
        for &v in vs {
            let place = self.enter(v)?;
            places.push(place)?;
        }
        Ok(places)
    }
}
