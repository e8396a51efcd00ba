// One merge of two classes.
ghost use Rattle.std.specs.Prelude.{◌≡◌, ◌≢◌, ℕ, ◌<◌, ◌≤◌, ◌+◌, None, length, IfOk, OnOk, MatchBool, ◌⊎◌};
ghost use Rattle.term_graph.specs.declared.bound.Bound.TheVariants.{Term};
ghost use Rattle.term_graph.specs.Contents.{binding_of, target_of, IsGrown};
ghost use Rattle.congruence.specs.Turns.{IsChoice, HaveOneShape, Differ, TermsWait, IsWatched, IsMergeStep, AreWatched};

use crate::agenda::Waiting;
use crate::noting::{leaders_of, link};
use lists::NoMemory;
use std::alloc::Global;
use term_graph::{Bound, Graph};
use tree_model::Places;

fn has_term(graph: &Graph, v: usize) -> bool
    requires { v < length graph.now.contents.bindings }
    ensures { MatchBool result ((t : ℕ) × (binding_of graph.now.contents.bindings v ≡ Term t)) ((t : ℕ) → ¬ (binding_of graph.now.contents.bindings v ≡ Term t)) }
{
    match graph.binding(v) {
        Bound::Term(_) => true,
        _ => false,
    }
}

// The one that goes, and the one that stays: a class without a term goes under one with a term, else the lighter
// one under the heavier.
fn choose(graph: &Graph, a: usize, b: usize) -> (usize, usize)
    requires a_in { a < length graph.now.contents.bindings }
    requires b_in { b < length graph.now.contents.bindings }
    ensures { IsChoice graph.now.contents a b result.0 result.1 }
{
    match (has_term(graph, a), has_term(graph, b)) {
        (true, false) => (b, a),
        (false, true) => (a, b),
        _ => {
            if graph.weight(a) < graph.weight(b) {
                (a, b)
            } else {
                (b, a)
            }
        }
    }
}

fn have_one_shape(graph: &Graph, t: usize, s: usize) -> bool
    requires t_in { t < length graph.now.contents.terms }
    requires s_in { s < length graph.now.contents.terms }
    ensures { MatchBool result (HaveOneShape graph.now.contents t s) (¬ HaveOneShape graph.now.contents t s) }
{
    graph.symbol(t) == graph.symbol(s) && graph.args(t).len() == graph.args(s).len()
}

// The arguments of the terms of both wait, where v has one; false where the terms differ.
fn pair_terms(graph: &Graph, waiting: &mut Waiting, v: usize, w: usize) -> Result<bool, NoMemory>
    requires v_in { v < length graph.now.contents.bindings }
    requires w_in { w < length graph.now.contents.bindings }
    requires chosen { (t : ℕ) → binding_of graph.now.contents.bindings v ≡ Term t → (s : ℕ) × (binding_of graph.now.contents.bindings w ≡ Term s) }
    ensures alike { IfOk result (λ paired. waiting.new.alike ≡ waiting.old.alike) }
    ensures few { IfOk result (λ paired. length waiting.new.equal ≤ length waiting.old.equal + 8) }
    ensures paired { IfOk result (λ paired. MatchBool paired (TermsWait graph.now.contents v w waiting.old.equal waiting.new.equal) (Differ graph.now.contents v w)) }
{
    graph.well_formed();
    let (Bound::Term(t), Bound::Term(s)) = (graph.binding(v), graph.binding(w)) else {
        return Ok(true);
    };
    if !have_one_shape(graph, t, s) {
        return Ok(false);
    }
    waiting.equate_all(graph.args(s).as_slice(), graph.args(t).as_slice())?;
    Ok(true)
}

// The walk begins at v, where it is free and has a mark.
pub(crate) fn watch(graph: &Graph, starts: &mut Places, v: usize) -> Result<(), NoMemory>
    requires { v < length graph.now.contents.bindings }
    ensures { OnOk result (IsWatched graph.now.contents v starts.old starts.new) }
{
    if has_term(graph, v) || !graph.finite(v) {
        return Ok(());
    }
    starts.push(v)
}

// The classes of two roots are made one, unless their terms differ.
pub(crate) fn merge(
    alloc: Global,
    graph: &mut Graph,
    waiting: &mut Waiting,
    starts: &mut Places,
    a: usize,
    b: usize,
) -> Result<bool, NoMemory>
    requires a_in { a < length graph.old.contents.bindings }
    requires b_in { b < length graph.old.contents.bindings }
    requires a_root { target_of graph.old.contents.bindings a ≡ None }
    requires b_root { target_of graph.old.contents.bindings b ≡ None }
    requires apart { a ≢ b }
    ensures grown { (graph.new ≡ graph.old) ⊎ IsGrown graph.old graph.new }
    ensures merged { IfOk result (λ merged. MatchBool merged (IsMergeStep graph.old.contents graph.new.contents waiting.old waiting.new a b) (Differ graph.old.contents a b ⊎ Differ graph.old.contents b a)) }
    ensures watched { IfOk result (λ merged. AreWatched graph.old.contents graph.new.contents starts.old starts.new) }
{
    let (v, w) = choose(graph, a, b);
    if !pair_terms(graph, waiting, v, w)? {
        return Ok(false);
    }
    watch(graph, starts, v)?;
    let notes = leaders_of(alloc, graph, v, w)?;
    graph.bind(v, Bound::Variable(w))?;
    link(graph, waiting, notes.as_slice())?;
    Ok(true)
}
