// The terms whose keys a merge changes.
ghost use Rattle.std.specs.Prelude.{◌≡◌, ℕ, ◌<◌, ◌++◌, map, length, IfOk, OnOk, MatchOption, None};
ghost use Rattle.term_graph.specs.Contents.{IsWellFormed, IsLeader, root, term_at, target_of};
ghost use Rattle.congruence.specs.Merges.{redirected, Leads};
ghost use Rattle.congruence.specs.Turns.{AreNotes, IsNoteOf, AreInside, AreLinked, links_of};

use crate::agenda::Waiting;
use flat_form::Args;
use lists::NoMemory;
use std::alloc::Global;
use term_graph::Graph;

// A term that is the least with its key, and the least term with what its key will be.
#[derive(Clone, Copy)]
pub(crate) struct Note {
    term: usize,
    before: Option<usize>,
}

// The arguments of a term, with w for those whose root is v.
fn replaced(graph: &Graph, alloc: Global, t: usize, v: usize, w: usize) -> Result<Args, NoMemory>
    requires t_in { t < length graph.now.contents.terms }
    requires w_in { w < length graph.now.contents.bindings }
    requires w_root { target_of graph.now.contents.bindings w ≡ None }
    ensures { IfOk result (λ args. args ≡ map (redirected v w) (map (root graph.now.contents.bindings) (term_at graph.now.contents.terms t).args)) }
{
    graph.well_formed();
    let mut args = Args::new(alloc);
    let old = graph.args(t).as_slice();
    for i in 0..old.len() {
        let root = graph.deref(old[i]);
        args.push(if root == v { w } else { root })?;
    }
    Ok(args)
}

// The term, if it is the least with its key.
fn note_of(
    alloc: Global,
    graph: &Graph,
    t: usize,
    v: usize,
    w: usize,
) -> Result<Option<Note>, NoMemory>
    requires t_in { t < length graph.now.contents.terms }
    requires w_in { w < length graph.now.contents.bindings }
    requires w_root { target_of graph.now.contents.bindings w ≡ None }
    ensures { IfOk result (λ found. MatchOption found (¬ Leads graph.now.contents t t) (IsNoteOf graph.now.contents v w t)) }
{
    graph.well_formed();
    let symbol = *graph.symbol(t);
    let Some(least) = graph.find(symbol, graph.args(t).as_slice())? else {
        return Ok(None);
    };
    if least != t {
        return Ok(None);
    }
    let args = replaced(graph, alloc, t, v, w)?;
    let before = graph.find(symbol, args.as_slice())?;
    Ok(Some(Note { term: t, before }))
}

// Those of the leaders that mention the root v, which is to go under the root w.
pub(crate) fn leaders_of(
    alloc: Global,
    graph: &Graph,
    v: usize,
    w: usize,
) -> Result<Vec<Note>, NoMemory>
    requires v_in { v < length graph.now.contents.bindings }
    requires v_root { target_of graph.now.contents.bindings v ≡ None }
    requires w_in { w < length graph.now.contents.bindings }
    requires w_root { target_of graph.now.contents.bindings w ≡ None }
    ensures { IfOk result (λ notes. AreNotes graph.now.contents v w notes.items) }
{
    let users = graph.users(alloc, v)?;
    let mut notes = Vec::new(alloc);
    for t in users.as_slice() {
        match note_of(alloc, graph, *t, v, w)? {
            Some(note) => notes.push(note)?,
            None => {}
        }
    }
    Ok(notes)
}

// The term waits for this least one with its key; or is it, and then what was that before waits for it.
fn link_one(waiting: &mut Waiting, note: Note, found: Option<usize>) -> Result<(), NoMemory>
    ensures equal { OnOk result (waiting.new.equal ≡ waiting.old.equal) }
    ensures alike { OnOk result (waiting.new.alike ≡ waiting.old.alike ++ links_of note found) }
{
    let Some(least) = found else {
        return Ok(());
    };
    if least != note.term {
        return waiting.link(note.term, least);
    }
    match note.before {
        Some(before) => waiting.link(before, note.term),
        None => Ok(()),
    }
}

// After the merge each of them is linked with the least term that has its key now.
pub(crate) fn link(graph: &Graph, waiting: &mut Waiting, notes: &[Note]) -> Result<(), NoMemory>
    requires inside { AreInside graph.now.contents notes.now }
    ensures equal { OnOk result (waiting.new.equal ≡ waiting.old.equal) }
    ensures linked { OnOk result (AreLinked graph.now.contents waiting.old.alike waiting.new.alike notes.now) }
{
    graph.well_formed();
    for note in notes {
        let found = graph.find(*graph.symbol(note.term), graph.args(note.term).as_slice())?;
        link_one(waiting, *note, found)?;
    }
    Ok(())
}
