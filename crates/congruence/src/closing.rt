// The agenda is worked off.
ghost use Rattle.std.specs.Prelude.{◌≡◌, ◌<◌, length, IfOk, MatchBool, ◌⊎◌};
ghost use Rattle.term_graph.specs.Contents.{IsGrown, Grows};
ghost use Rattle.congruence.specs.Agenda.{idle};
ghost use Rattle.congruence.specs.Turns.{IsTurn, RefutesBoth, AreInRange, AreOwners, LeadsOn, Refutes};

use crate::agenda::Waiting;
use crate::merging::merge;
use lists::NoMemory;
use std::alloc::Global;
use term_graph::Graph;
use tree_model::Places;

// The classes of two variables are made one, unless their terms differ.
fn turn(
    alloc: Global,
    graph: &mut Graph,
    waiting: &mut Waiting,
    starts: &mut Places,
    p: usize,
    q: usize,
) -> Result<bool, NoMemory>
    requires p_in { p < length graph.old.contents.bindings }
    requires q_in { q < length graph.old.contents.bindings }
    ensures grown { (graph.new ≡ graph.old) ⊎ IsGrown graph.old graph.new }
    ensures turned { IfOk result (λ on. MatchBool on (IsTurn graph.old.contents graph.new.contents waiting.old waiting.new starts.old starts.new p q) (RefutesBoth graph.old.contents waiting.old p q)) }
{
    graph.well_formed();
    let (a, b) = (graph.deref(p), graph.deref(q));
    if a == b {
        return Ok(true);
    }
    if !merge(alloc, graph, waiting, starts, a, b)? {
        return Ok(false);
    }
    Ok(true)
}

// Until nothing waits; false where the atoms can't be solved.
pub(crate) fn close(
    alloc: Global,
    graph: &mut Graph,
    owners: &[usize],
    waiting: &mut Waiting,
    starts: &mut Places,
) -> Result<bool, NoMemory>
    requires owners { AreOwners graph.old.contents owners.now }
    requires range { AreInRange graph.old.contents waiting.old }
    ensures grows { Grows graph.old graph.new }
    ensures closed { IfOk result (λ closed. MatchBool closed (LeadsOn owners.now graph.old.contents graph.new.contents waiting.old idle starts.old starts.new) (Refutes owners.now graph.old.contents waiting.old)) }
{
    graph.well_formed();
    'more: while let Some((p, q)) = waiting.next(owners) {
        graph.well_formed();
        if !turn(alloc, graph, waiting, starts, p, q)? {
            return Ok(false);
        }
    }
    Ok(true)
}
