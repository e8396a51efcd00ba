ghost use Rattle.std.specs.Prelude.{◌≡◌, ◌<◌, ◌≤◌, length, IfOk};

use super::*;
use crate::tests::{
    CONJUNCTIONS, COUNT, SPREADS, STARTS, conjunction, is_list, letters_at, variable,
};
use flat_form::{Basic, Flat};
use std::alloc::Global;
use std::test::*;
use term_graph::{Bound, Graph};
use tree_model::{NoMemory, Symbol};

// So many variables, free and without marks.
fn variables(alloc: Global, count: usize) -> Result<Graph, NoMemory> {
    let mut graph = Graph::new(alloc);
    for _ in 0..count {
        graph.add_variable()?;
    }
    Ok(graph)
}

// Binds one variable to another, where it may be.
fn equate(graph: &mut Graph, u: usize, r: usize) -> Result<bool, NoMemory> {
    if u >= graph.variables() || r >= graph.variables() {
        return Ok(false);
    }
    let Bound::Free = graph.binding(u) else {
        return Ok(false);
    };
    if graph.deref(r) == u {
        return Ok(false);
    }
    graph.bind(u, Bound::Variable(r))?;
    Ok(true)
}

// Binds the variable to the term, where it may be.
fn give(graph: &mut Graph, u: usize, symbol: Symbol, args: &[usize]) -> Result<bool, NoMemory> {
    let count = graph.variables();
    if u >= count || args.len() > 8 || !args.iter().all(|x| *x < count) {
        return Ok(false);
    }
    let t = graph.intern_term(symbol, args)?;
    if u >= graph.variables() || t >= graph.terms() {
        return Ok(false);
    }
    let Bound::Free = graph.binding(u) else {
        return Ok(false);
    };
    graph.bind(u, Bound::Term(t))?;
    Ok(true)
}

fn mark(graph: &mut Graph, u: usize) -> Result<bool, NoMemory> {
    if u >= graph.variables() {
        return Ok(false);
    }
    graph.mark_finite(u)?;
    Ok(true)
}

// Makes the graph say the atom, where it may.
fn say(graph: &mut Graph, atom: &Flat) -> Result<bool, NoMemory> {
    match atom {
        Flat::VarVar(u, r) => equate(graph, *u, *r),
        Flat::VarTerm(u, symbol, args) => give(graph, *u, *symbol, args.as_slice()),
        Flat::Finite(u) => mark(graph, *u),
    }
}

fn say_all(graph: &mut Graph, basic: &Basic) -> Result<bool, NoMemory> {
    for i in 0..basic.len() {
        if !say(graph, basic.get(i))? {
            return Ok(false);
        }
    }
    Ok(true)
}

// Whether the text says that the variable is finite.
fn is_said_finite(text: &[u8], u: usize) -> bool {
    for i in 0..text.len() / 5 {
        let letters = letters_at(text, i);
        if letters[0] == b'!' && variable(letters[1]) == u {
            return true;
        }
    }
    false
}

// Whether the marks are those that the text says, and besides those of these figures.
fn are_marks(graph: &Graph, text: &[u8], figures: &[u8]) -> bool {
    for u in 0..graph.variables() {
        let is_leaf = figures.iter().any(|figure| variable(*figure) == u);
        if graph.finite(u) != (is_leaf || is_said_finite(text, u)) {
            return false;
        }
    }
    true
}

// Whether the answer is as expected: `L` and the path of the loop, or `E` and the leaves.
fn is_told(outcome: &Outcome, graph: &Graph, text: &[u8], expected: &[u8]) -> bool {
    let Some((letter, figures)) = expected.split_first() else {
        return false;
    };
    match outcome {
        Outcome::Loop(path) => {
            *letter == b'L' && is_list(path, figures) && are_marks(graph, text, b"")
        }
        Outcome::Done => *letter == b'E' && are_marks(graph, text, figures),
    }
}

// Whether this is the spread over a graph of ten variables that says the text; and what was marked can be taken back.
fn is_graph_spread_so(
    alloc: Global,
    text: &[u8],
    v: usize,
    expected: &[u8],
) -> Result<bool, NoMemory> {
    let mut graph = variables(alloc, 10)?;
    if !say_all(&mut graph, &conjunction(alloc, text)?)? || v >= graph.variables() {
        return Ok(false);
    }
    let before = graph.mark();
    let outcome = spread(alloc, &mut graph, v)?;
    let is_right = is_told(&outcome, &graph, text, expected);
    graph.undo_to(before);
    Ok(is_right && are_marks(&graph, text, b""))
}

#[test]
fn two_terms_that_lead_to_each_other_are_a_loop(rt: HostRuntime) -> Result<(), Fail> {
    assert!(rt; is_graph_spread_so(rt.alloc(), b"f01..f10..", 0, b"L00")?);
    assert!(rt; is_graph_spread_so(rt.alloc(), b"f01..", 0, b"E1")?);
    Ok(())
}

#[test]
fn a_free_variable_is_its_own_leaf(rt: HostRuntime) -> Result<(), Fail> {
    assert!(rt; is_graph_spread_so(rt.alloc(), b"=10..", 1, b"E0")?);
    assert!(rt; is_graph_spread_so(rt.alloc(), b"!0...=10..", 1, b"E0")?);
    Ok(())
}

#[test]
fn spreads_over_graphs_are_those_of_all_walks(rt: HostRuntime) -> Result<(), Fail> {
    for i in 0..COUNT {
        let right = is_graph_spread_so(
            rt.alloc(),
            CONJUNCTIONS[i].as_bytes(),
            STARTS[i],
            SPREADS[i].as_bytes(),
        )?;
        assert!(rt; right, "case {i}");
    }
    Ok(())
}

// Each variable but the last over the next one, twice.
fn tower(alloc: Global, count: usize) -> Result<Graph, NoMemory>
    requires { count < 9000 }
{
    let mut graph = variables(alloc, count + 1)?;
    for v in 0..count {
        give(&mut graph, v, Symbol::Named(2), &[v + 1, v + 1])?;
    }
    Ok(graph)
}

#[test]
fn a_high_tower_of_shared_terms_is_walked_once(rt: HostRuntime) -> Result<(), Fail> {
    let mut graph = tower(rt.alloc(), 2000)?;
    assert!(rt; graph.variables() == 2001);
    let Outcome::Done = spread(rt.alloc(), &mut graph, 0)? else {
        return Err(Fail::from("no walk comes round"));
    };
    assert!(rt; graph.variables() == 2001);
    assert!(rt; graph.finite(2000) && !graph.finite(1999));
    Ok(())
}

// A term over eight variables.
fn fan(alloc: Global) -> Result<Graph, NoMemory> {
    let mut graph = variables(alloc, 9)?;
    give(&mut graph, 0, Symbol::Named(0), &[1, 2, 3, 4, 5, 6, 7, 8])?;
    Ok(graph)
}

// Tried with each allocation failing in turn: then the marks that were set are taken back.
#[test]
fn all_leaves_are_marked_or_none(rt: HostRuntime) -> Result<(), Fail> {
    let Ok(mut graph) = fan(rt.alloc()) else {
        return Ok(());
    };
    if graph.variables() != 9 {
        return Err(Fail::from("nine variables"));
    }
    match spread(rt.alloc(), &mut graph, 0) {
        Ok(Outcome::Done) => {
            assert!(rt; are_marks(&graph, b"", b"12345678"));
        }
        Ok(Outcome::Loop(_)) => return Err(Fail::from("no walk comes round")),
        Err(NoMemory) => {
            assert!(rt; are_marks(&graph, b"", b""));
        }
    }
    Ok(())
}
