use super::*;
use flat_form::{Args, Basic, Flat, is_same_basic};
use lists::NoMemory;
use std::alloc::Global;
use std::test::*;
use term_graph::{Bound, Graph};
use tree_model::Symbol;

const F: Symbol = Symbol::Named(0);

// So many variables.
fn fresh(alloc: Global, count: usize) -> Result<Graph, NoMemory> {
    let mut graph = Graph::new(alloc);
    for _ in 0..count {
        graph.add_variable()?;
    }
    Ok(graph)
}

// Binds the free variable v to the term of x.
fn apply(graph: &mut Graph, v: usize, x: usize) -> Result<(), Fail> {
    if x >= graph.variables() {
        return Err(Fail::from("no such variable"));
    }
    let t = graph.intern_term(F, &[x])?;
    if v >= graph.variables() || t >= graph.terms() {
        return Err(Fail::from("no such term"));
    }
    let Bound::Free = graph.binding(v) else {
        return Err(Fail::from("a variable is free"));
    };
    graph.bind(v, Bound::Term(t))?;
    Ok(())
}

// Binds the free variable v to the variable x.
fn join(graph: &mut Graph, v: usize, x: usize) -> Result<(), Fail> {
    if v >= graph.variables() || x >= graph.variables() {
        return Err(Fail::from("no such variable"));
    }
    let Bound::Free = graph.binding(v) else {
        return Err(Fail::from("a variable is free"));
    };
    if graph.deref(x) == v {
        return Err(Fail::from("two classes"));
    }
    graph.bind(v, Bound::Variable(x))?;
    Ok(())
}

// Marks the variable.
fn mark(graph: &mut Graph, v: usize) -> Result<(), Fail> {
    if v >= graph.variables() {
        return Err(Fail::from("no such variable"));
    }
    graph.mark_finite(v)?;
    Ok(())
}

// The variable is the term of x.
fn term(alloc: Global, v: usize, x: usize) -> Result<Flat, NoMemory> {
    let mut args = Args::new(alloc);
    args.push(x)?;
    Ok(Flat::VarTerm(v, F, args))
}

// A chain to a marked leaf, and a term of the class of two variables.
fn sample(alloc: Global) -> Result<Graph, Fail> {
    let mut graph = fresh(alloc, 6)?;
    apply(&mut graph, 0, 1)?;
    apply(&mut graph, 1, 2)?;
    mark(&mut graph, 2)?;
    join(&mut graph, 3, 4)?;
    apply(&mut graph, 5, 4)?;
    Ok(graph)
}

// What it says.
fn expected(alloc: Global) -> Result<Basic, NoMemory> {
    let mut form = Basic::new(alloc);
    form.push(term(alloc, 0, 1)?)?;
    form.push(term(alloc, 1, 2)?)?;
    form.push(Flat::Finite(2))?;
    form.push(Flat::VarVar(4, 3))?;
    form.push(term(alloc, 5, 3)?)?;
    Ok(form)
}

#[test]
fn a_graph_is_read_off(rt: HostRuntime) -> Result<(), Fail> {
    let graph = sample(rt.alloc())?;
    let form = read_off(rt.alloc(), &graph)?;
    let expected = expected(rt.alloc())?;
    assert!(rt; is_same_basic(&form, &expected));
    Ok(())
}
