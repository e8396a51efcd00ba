//! The terms that use a variable, one after the other.
ghost use Rattle.std.specs.Prelude.{◌≡◌, [], ◌∷◌, length, MatchOption};
ghost use Rattle.std.specs.Iterator.{YieldsFirst, item_count};
ghost use Rattle.term_graph.specs.Fields.{fields, heads_of, mentions_of, used, round_of};
ghost use Rattle.term_graph.specs.Good.{IsGood};
ghost use Rattle.term_graph.specs.Walks.{IsOn, uses_left};
ghost use Rattle.std.specs.Prelude.{◌<◌, slice_index};

use crate::parts::{Cell, Parts, head_at};
use index_lists::Rings;
use std::marker::Model;

/// The terms that mention a variable of one class, once per mention. A contract sees those that are left.
#[derive(Drop)]
pub struct Uses<'a> {
    cells: &'a [Cell],
    rings: &'a Rings,
    head: usize,
    at: usize,
}

impl<'a> Model for Uses<'a> {
    ghost use Rattle.std.specs.Prelude.{◌≡◌, length, List, ℕ};

    ghost Value = { List ℕ };

    ghost use Rattle.term_graph.specs.Fields.{mentions_of};
    ghost use Rattle.term_graph.specs.Walks.{IsOn, uses_left};

    ghost view = { λ u. uses_left (mentions_of u.cells.now) u.rings.now u.head u.at };

    ghost invariant = { λ u. (length u.cells.now ≡ length u.rings.now) × IsOn u.rings.now u.head u.at };
}

impl<'a> Iterator for Uses<'a> {
    type Item = usize;

    ghost next_gives = { YieldsFirst (λ rest. rest) };

    ghost remaining = { item_count (λ rest. rest) };

    fn next(&mut self) -> Option<usize> {
        let (at, term) = next_mention(self.cells, self.rings, self.head, self.at);
        self.at = at;
        term
    }
}

// The next mention of the ring, and the place behind it.
fn next_mention(cells: &[Cell], rings: &Rings, head: usize, from: usize) -> (usize, Option<usize>)
    requires same { length cells.now ≡ length rings.now }
    requires on { IsOn rings.now head from }
    ensures on { IsOn rings.now head result.0 }
    ensures first { MatchOption result.1 ((uses_left (mentions_of cells.now) rings.now head from ≡ []) × (uses_left (mentions_of cells.now) rings.now head result.0 ≡ [])) (λ t. uses_left (mentions_of cells.now) rings.now head from ≡ t ∷ uses_left (mentions_of cells.now) rings.now head result.0) }
{
    let mut at = from;
    'walk: while at != head {
        let cell = cells[at];
        at = rings.next(at);
        if let Some(mention) = cell.mention {
            return (at, Some(mention.term));
        }
    }
    (at, None)
}

/// The terms that mention a variable with this root.
pub fn uses_of<'a>(parts: &'a Parts, class: usize) -> Uses<'a>
    requires good { IsGood (fields parts.now) }
    requires class_in { class < length parts.now.slots.items }
    ensures { result ≡ used (mentions_of parts.now.cells.items) (round_of parts.now.rings (slice_index (heads_of parts.now.slots.items) class)) }
{
    parts.rings.rounds();
    let head = head_at(&parts.slots, class);
    let at = parts.rings.next(head);
    Uses {
        cells: parts.cells.as_slice(),
        rings: &parts.rings,
        head,
        at,
    }
}
