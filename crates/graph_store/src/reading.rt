//! All that the contents of a graph say, read off it.
ghost use Rattle.std.specs.Prelude.{◌≡◌, ◌<◌, length, map, IfOk, OnOk, All};
ghost use Rattle.settled_facts.specs.Settled.{name, IsFree};
ghost use Rattle.settled_facts.specs.Forms.{IsLeast, AreLeast, Says, IsReadOff};
ghost use Rattle.graph_store.specs.Lines.{IsTheOne, with_found};

use flat_form::{Args, Basic, Flat};
use lists::NoMemory;
use std::alloc::Global;
use term_graph::{Bound, Graph};

// The least variables with the names of the arguments, place by place.
fn least_of(alloc: Global, graph: &Graph, xs: &[usize]) -> Result<Args, NoMemory>
    requires within { All (λ x. x < length graph.now.contents.bindings) xs.now }
    ensures { IfOk result (λ least. AreLeast graph.now.contents (map (name graph.now.contents) xs.now) least) }
{
    graph.well_formed();
    let mut least = Args::new(alloc);
    for i in 0..xs.len() {
        least.push(graph.least(xs[i]))?;
    }
    Ok(least)
}

// That the least variable of a free root is finite, where the root is marked.
fn finite_line(graph: &Graph, v: usize, root: usize) -> Option<Flat>
    requires least { IsLeast graph.now.contents v v }
    requires root { root ≡ name graph.now.contents v }
    requires within { root < length graph.now.contents.bindings }
    requires free { IsFree graph.now.contents root }
    ensures { IsTheOne (Says graph.now.contents) v result }
{
    if graph.finite(root) {
        Some(Flat::Finite(v))
    } else {
        None
    }
}

// What is said of the least variable of a root.
fn root_line(alloc: Global, graph: &Graph, v: usize, root: usize) -> Result<Option<Flat>, NoMemory>
    requires least { IsLeast graph.now.contents v v }
    requires root { root ≡ name graph.now.contents v }
    requires within { root < length graph.now.contents.bindings }
    ensures { IfOk result (λ found. IsTheOne (Says graph.now.contents) v found) }
{
    graph.well_formed();
    match graph.binding(root) {
        Bound::Free => Ok(finite_line(graph, v, root)),
        Bound::Variable(_) => unreachable!(),
        Bound::Term(t) => {
            let least = least_of(alloc, graph, graph.args(t).as_slice())?;
            Ok(Some(Flat::VarTerm(v, *graph.symbol(t), least)))
        }
    }
}

// What is said of the variable.
fn line(alloc: Global, graph: &Graph, v: usize) -> Result<Option<Flat>, NoMemory>
    requires within { v < length graph.now.contents.bindings }
    ensures { IfOk result (λ found. IsTheOne (Says graph.now.contents) v found) }
{
    let least = graph.least(v);
    if least != v {
        return Ok(Some(Flat::VarVar(v, least)));
    }
    let root = graph.deref(v);
    let found = root_line(alloc, graph, v, root)?;
    Ok(found)
}

// The atom, where there is one, stands last.
fn push_found(form: &mut Basic, found: Option<Flat>) -> Result<(), NoMemory>
    ensures { OnOk result (form.new ≡ with_found form.old found) }
{
    match found {
        Some(atom) => form.push(atom),
        None => Ok(()),
    }
}

/// All that the contents say, in ascending order of variables: their solved form where they settle their atoms.
pub fn read_off(alloc: Global, graph: &Graph) -> Result<Basic, NoMemory>
    ensures { IfOk result (IsReadOff graph.now.contents) }
{
    graph.well_formed();
    let mut form = Basic::new(alloc);
    for v in 0..graph.variables() {
        let found = line(alloc, graph, v)?;
        push_found(&mut form, found)?;
    }
    Ok(form)
}
