//! Whether walks from a variable come round, and where they end.
ghost use Rattle.std.specs.Prelude.{◌≡◌, ℕ, ◌<◌, List, [], ◌∷◌, length, All, MatchBool, IfOk, OnOk, OnErr, ◌↔◌, ◌⊎◌, Contains};
ghost use Rattle.std.specs.List.Sorted.{IsStrictlyIncreasing};
ghost use Rattle.flat_form.specs.Solved.{IsSolved};
ghost use Rattle.flat_facts.specs.Spread.{ComesRound, IsLeastRound, IsLeaf};
ghost use Rattle.std.specs.Map.{keys_of};
ghost use Rattle.term_graph.specs.Contents.{Grows};
ghost use Rattle.settled_facts.specs.Settled.{name, IsFree, IsMarked, Firm};
ghost use Rattle.settled_facts.specs.Changes.{IsMoreMarked};
ghost use Rattle.settled_facts.specs.Forms.{equations_of};
ghost use Rattle.finiteness.specs.Outcomes as outcomes;
ghost use Rattle.finiteness.specs.Spreads.{IfLoop, IfLeaves};

use crate::leaves::leaves;
use crate::lookup::{target, term_place};
use crate::search::{Found, search};
use crate::visits::{Stage, class_at};
use crate::walks::{Walked, walk_from};
use flat_form::Basic;
use indexmap::IndexMap;
use std::alloc::Global;
use term_graph::{Bound, Graph};
use tree_model::{NoMemory, Places};

/// What the walks from a variable along the equations of a solved conjunction come to.
#[derive(Debug, Drop)]
pub enum ListSpread {
    /// None comes round. The variables without a term at which they end, in ascending order.
    Leaves(Places),
    /// Some come round. Their least path: numbers of arguments, up to where a variable is met again.
    Loop(Places),
}

// The list of one number.
fn only(alloc: Global, v: usize) -> Result<Places, NoMemory>
    ensures { IfOk result (λ places. places ≡ v ∷ []) }
{
    let mut places = Places::new(alloc);
    places.push(v)?;
    Ok(places)
}

/// Walks from v along the equations of a solved conjunction, variables taken up to its equations of variables. The path
/// of a loop is the least one in the order of the dictionary.
pub fn spread_list(alloc: Global, b: &Basic, v: usize) -> Result<ListSpread, NoMemory>
    requires { IsSolved b.now }
    ensures least { IfOk result (λ spread. IfLoop spread (IsLeastRound b.now v)) }
    ensures none { IfOk result (λ spread. IfLeaves spread (λ _. (path : List ℕ) → ¬ ComesRound b.now v path)) }
    ensures ascending { IfOk result (λ spread. IfLeaves spread IsStrictlyIncreasing) }
    ensures exact { IfOk result (λ spread. IfLeaves spread (λ list. (u : ℕ) → Contains list u ↔ IsLeaf b.now v u)) }
{
    let start = target(b, v);
    let Some(place) = term_place(b, start) else {
        return Ok(ListSpread::Leaves(only(alloc, start)?));
    };
    match search(alloc, b, place)? {
        Found::Round(path) => Ok(ListSpread::Loop(path)),
        Found::Met(marks) => Ok(ListSpread::Leaves(leaves(alloc, b, marks.as_slice())?)),
    }
}

/// What the walks from a variable along the terms of a graph come to.
#[derive(Debug, Drop)]
pub enum Outcome {
    /// None comes round, and the classes without a term at which they end are marked.
    Done,
    /// Some come round. Their least path: numbers of arguments, up to where a class is met again.
    Loop(Places),
}

// Whether the class has no term.
fn is_free(graph: &Graph, class: usize) -> bool
    requires { class < length graph.now.contents.bindings }
    ensures { MatchBool result (IsFree graph.now.contents class) (¬ IsFree graph.now.contents class) }
{
    match graph.binding(class) {
        Bound::Free => true,
        Bound::Variable(_) => false,
        Bound::Term(_) => false,
    }
}

// Marks those of the classes that have no term.
fn mark_leaves(graph: &mut Graph, visits: &IndexMap<usize, Stage>) -> Result<(), NoMemory>
    requires { All (λ class. class < length graph.old.contents.bindings) (keys_of visits.now.entries) }
    ensures rest { IsMoreMarked graph.old.contents graph.new.contents × (graph.new.contents.uses ≡ graph.old.contents.uses) }
    ensures grows { Grows graph.old graph.new }
    ensures marks { OnOk result ((u : ℕ) → IsMarked graph.new.contents u ↔ (IsMarked graph.old.contents u ⊎ (Contains (keys_of visits.now.entries) u × IsFree graph.old.contents u))) }
{
    graph.well_formed();
    for place in 0..visits.len() {
        let class = class_at(visits, place);
        if is_free(graph, class) {
            graph.mark_finite(class)?;
        }
    }
    Ok(())
}

/// Walks from the class of v along the arguments of terms. Where none comes round, the classes without a term that they
/// reach are marked; else the path of the loop is the least one in the order of the dictionary. Work goes with what is
/// reached, not with the graph.
pub fn spread(alloc: Global, graph: &mut Graph, v: usize) -> Result<Outcome, NoMemory>
    requires { v < length graph.old.contents.bindings }
    ensures loops { IfOk result (λ outcome. outcomes.IfLoop outcome (IsLeastRound (equations_of graph.old.contents) v)) }
    ensures kept { IfOk result (λ outcome. outcomes.IfLoop outcome (λ path. graph.new ≡ graph.old)) }
    ensures none { IfOk result (λ outcome. outcomes.IfDone outcome ((path : List ℕ) → ¬ ComesRound (equations_of graph.old.contents) v path)) }
    ensures marks { IfOk result (λ outcome. outcomes.IfDone outcome ((u : ℕ) → IsMarked graph.new.contents u ↔ (IsMarked graph.old.contents u ⊎ IsLeaf (equations_of graph.old.contents) v u))) }
    ensures firm { IfOk result (λ outcome. outcomes.IfDone outcome (Firm graph.new.contents (name graph.new.contents v))) }
    ensures rest { IsMoreMarked graph.old.contents graph.new.contents × (graph.new.contents.uses ≡ graph.old.contents.uses) }
    ensures grows { Grows graph.old graph.new }
    ensures err { OnErr result (graph.new ≡ graph.old) }
{
    graph.well_formed();
    let start = graph.deref(v);
    let visits = match walk_from(alloc, graph, start)? {
        Walked::Round(path) => return Ok(Outcome::Loop(path)),
        Walked::Ended(visits) => visits,
    };
    let before = graph.mark();
    match mark_leaves(graph, &visits) {
        Ok(()) => {
            graph.well_formed();
            Ok(Outcome::Done)
        }
        Err(NoMemory) => {
            graph.undo_to(before);
            Err(NoMemory)
        }
    }
}
