//! One atom more over settled contents.
ghost use Rattle.std.specs.Prelude.{◌≡◌, ◌<◌, [], length, IfOk, OnErr, MatchBool, All};
ghost use Rattle.flat_form.specs.Numbering.{AtomOver};
ghost use Rattle.term_graph.specs.Contents.{Grows};
ghost use Rattle.congruence.specs.Asserted.{AreWalked, ComeRound, IsAsserted};
ghost use Rattle.congruence.specs.Begun.{IsLonger, RefutesAtom};
ghost use Rattle.congruence.specs.Turns.{AreOwners};

use crate::entering::enter;
use finiteness::{Outcome, spread};
use flat_form::Flat;
use lists::NoMemory;
use std::alloc::Global;
use term_graph::Graph;
use tree_model::Places;

// Walks from each of the variables. False where a walk comes round.
fn walk_all(alloc: Global, graph: &mut Graph, starts: &[usize]) -> Result<bool, NoMemory>
    requires { All (λ s. s < length graph.old.contents.bindings) starts.now }
    ensures grows { Grows graph.old graph.new }
    ensures walked { IfOk result (λ end. MatchBool end (AreWalked graph.old.contents graph.new.contents starts.now) (ComeRound graph.old.contents starts.now)) }
{
    for &s in starts {
        graph.well_formed();
        match spread(alloc, graph, s)? {
            Outcome::Done => {}
            Outcome::Loop(_) => return Ok(false),
        }
    }
    Ok(true)
}

// Enters the atom, and walks from what must be finite. False where the atoms can't be solved with this one.
fn settle(
    alloc: Global,
    graph: &mut Graph,
    owners: &mut Vec<usize>,
    atom: &Flat,
) -> Result<bool, NoMemory>
    requires over { AtomOver (length graph.old.contents.bindings) atom.now }
    requires owners { AreOwners graph.old.contents owners.old.items }
    ensures grows { Grows graph.old graph.new }
    ensures longer { IsLonger owners.old.items owners.new.items }
    ensures settled { IfOk result (λ kept. MatchBool kept (IsAsserted graph.old.contents graph.new.contents owners.old.items owners.new.items atom.now) (RefutesAtom graph.old.contents owners.old.items atom.now)) }
{
    graph.well_formed();
    let mut starts = Places::new(alloc);
    if !enter(alloc, graph, owners, &mut starts, atom)? {
        return Ok(false);
    }
    graph.well_formed();
    let ended = walk_all(alloc, graph, starts.as_slice())?;
    graph.well_formed();
    Ok(ended)
}

/// One atom more. False where the atoms that were settled can't be solved with this one; then, and where memory was wanting,
/// the graph and the owners of its terms are as before. Taking them back takes no memory.
pub fn assert(
    alloc: Global,
    graph: &mut Graph,
    owners: &mut Vec<usize>,
    atom: &Flat,
) -> Result<bool, NoMemory>
    requires over { AtomOver (length graph.old.contents.bindings) atom.now }
    requires owners { AreOwners graph.old.contents owners.old.items }
    ensures grows { Grows graph.old graph.new }
    ensures kept { IfOk result (λ kept. MatchBool kept (IsAsserted graph.old.contents graph.new.contents owners.old.items owners.new.items atom.now)
        (RefutesAtom graph.old.contents owners.old.items atom.now × (graph.new ≡ graph.old) × (owners.new.items ≡ owners.old.items))) }
    ensures err { OnErr result ((graph.new ≡ graph.old) × (owners.new.items ≡ owners.old.items)) }
{
    let before = graph.mark();
    let count = owners.len();
    let settled = settle(alloc, graph, owners, atom);
    if let Ok(true) = settled {
        return Ok(true);
    }
    graph.undo_to(before);
    owners.truncate(count);
    settled
}
