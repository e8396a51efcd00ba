//! Depth-first search along the terms of a graph, with a stack of its own.
ghost use Rattle.std.specs.Prelude.{◌≡◌, ◌<◌, length, map, None, IfOk, MatchBool, MatchOption};
ghost use Rattle.term_graph.specs.Contents.{target_of};
ghost use Rattle.finiteness.specs.declared.walks.Turn.{Turn};
ghost use Rattle.finiteness.specs.Stages.{IsDone, AllAreDone, IsNext};
ghost use Rattle.finiteness.specs.Walked.{IsWalked};

use crate::visits::{Stage, begin, finish, stage_at};
use indexmap::IndexMap;
use std::alloc::Global;
use term_graph::{Bound, Graph};
use tree_model::{NoMemory, Places};

/// A class, and the number of the argument of its term along which the walk leads.
#[derive(Clone, Copy, Debug, Drop)]
pub(crate) struct Turn {
    pub class: usize,
    pub argument: usize,
}

/// What a search finds.
#[derive(Drop)]
pub(crate) enum Walked {
    /// The path of the first walk that comes round.
    Round(Places),
    /// All walks end. The classes that they meet.
    Ended(IndexMap<usize, Stage>),
}

// Whether all walks from the class end.
fn is_done(visits: &IndexMap<usize, Stage>, class: usize) -> bool
    ensures { MatchBool result (IsDone visits.now.entries class) (¬ IsDone visits.now.entries class) }
{
    match stage_at(visits, class) {
        Some(Stage::Done) => true,
        Some(Stage::Open) => false,
        None => false,
    }
}

// The first argument, from the one at hand on, that is not done, and its class.
fn onward(graph: &Graph, visits: &IndexMap<usize, Stage>, at: Turn) -> Option<Turn>
    requires { at.class < length graph.now.contents.bindings }
    ensures { MatchOption result (AllAreDone graph.now.contents visits.now.entries at) (IsNext graph.now.contents visits.now.entries at) }
{
    graph.well_formed();
    let Bound::Term(term) = graph.binding(at.class) else {
        return None;
    };
    let args = graph.args(term);
    for argument in at.argument..args.len() {
        let class = graph.deref(*args.get(argument));
        if !is_done(visits, class) {
            return Some(Turn { class, argument });
        }
    }
    None
}

// The arguments along which the walk leads.
fn path(alloc: Global, walk: &[Turn]) -> Result<Places, NoMemory>
    ensures { IfOk result (λ path. path ≡ map (λ (turn : Turn). turn.argument) walk.now) }
{
    let mut path = Places::new(alloc);
    for turn in walk {
        path.push(turn.argument)?;
    }
    Ok(path)
}

/// Walks from the class, in the order of the dictionary.
pub(crate) fn walk_from(alloc: Global, graph: &Graph, start: usize) -> Result<Walked, NoMemory>
    requires within { start < length graph.now.contents.bindings }
    requires root { target_of graph.now.contents.bindings start ≡ None }
    ensures { IfOk result (IsWalked graph.now.contents start) }
{
    graph.well_formed();
    let mut visits = IndexMap::new(alloc);
    let mut walk = Vec::new(alloc);
    let mut top = Turn {
        class: start,
        argument: 0,
    };
    begin(&mut visits, start)?;
    'turns: loop {
        match onward(graph, &visits, top) {
            Some(next) => {
                let turn = Turn {
                    class: top.class,
                    argument: next.argument,
                };
                walk.push(turn)?;
                if stage_at(&visits, next.class).is_some() {
                    return Ok(Walked::Round(path(alloc, walk.as_slice())?));
                }
                begin(&mut visits, next.class)?;
                top = Turn {
                    class: next.class,
                    argument: 0,
                };
            }
            None => {
                finish(&mut visits, top.class);
                match walk.pop() {
                    Some(turn) => top = turn,
                    None => return Ok(Walked::Ended(visits)),
                }
            }
        }
    }
}
