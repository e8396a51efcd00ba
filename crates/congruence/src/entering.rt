// An atom more, with all that it makes equal; marks of what must be finite are left to the walks that begin at `starts`.
ghost use Rattle.std.specs.Prelude.{◌≡◌, [], length, IfOk, MatchBool};
ghost use Rattle.flat_form.specs.Numbering.{AtomOver};
ghost use Rattle.term_graph.specs.Contents.{Grows};
ghost use Rattle.congruence.specs.Agenda.{idle};
ghost use Rattle.congruence.specs.Turns.{AreOwners};
ghost use Rattle.congruence.specs.Begun.{IsBegun, RefutesAtom, IsLonger};

use crate::agenda::Waiting;
use crate::beginning::begin;
use crate::closing::close;
use flat_form::Flat;
use lists::NoMemory;
use std::alloc::Global;
use term_graph::Graph;
use tree_model::Places;

// False where the atoms can't be solved with this one.
pub(crate) fn enter(
    alloc: Global,
    graph: &mut Graph,
    owners: &mut Vec<usize>,
    starts: &mut Places,
    atom: &Flat,
) -> Result<bool, NoMemory>
    requires over { AtomOver (length graph.old.contents.bindings) atom.now }
    requires owners { AreOwners graph.old.contents owners.old.items }
    requires none { starts.old ≡ [] }
    ensures grows { Grows graph.old graph.new }
    ensures longer { IsLonger owners.old.items owners.new.items }
    ensures entered { IfOk result (λ entered. MatchBool entered (IsBegun graph.old.contents graph.new.contents owners.old.items owners.new.items idle starts.new atom.now) (RefutesAtom graph.old.contents owners.old.items atom.now)) }
{
    graph.well_formed();
    let mut waiting = Waiting::new(alloc);
    if !begin(graph, owners, &mut waiting, starts, atom)? {
        return Ok(false);
    }
    graph.well_formed();
    if !close(alloc, graph, owners.as_slice(), &mut waiting, starts)? {
        return Ok(false);
    }
    Ok(true)
}
