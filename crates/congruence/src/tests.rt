ghost use Rattle.std.specs.Prelude.{◌≡◌, [], ◌∷◌, length, IfOk};
ghost use Rattle.tree_model.specs.declared.tree.Symbol.TheVariants.{Named};
ghost use Rattle.flat_form.specs.declared.atom.Flat.TheVariants.{VarTerm};
ghost use Rattle.flat_form.specs.Numbering.{AtomOver};
ghost use Rattle.congruence.specs.Turns.{AreOwners};

use super::*;
use crate::agenda::Waiting;
use crate::merging::merge;
use flat_form::{Args, Flat};
use lists::NoMemory;
use std::alloc::Global;
use std::test::*;
use term_graph::Graph;
use tree_model::{Places, Symbol};

// Two variables, and a term of each.
fn pair(alloc: Global) -> Result<Graph, NoMemory> {
    let mut graph = Graph::new(alloc);
    let x = graph.add_variable()?;
    let y = graph.add_variable()?;
    graph.intern_term(Symbol::Named(0), &[x])?;
    graph.intern_term(Symbol::Named(0), &[y])?;
    Ok(graph)
}

#[test]
fn laws_can_be_called(_rt: HostRuntime) {
    end_laws();
    merge_laws();
    start_laws();
    turn_laws();
}

#[test]
fn a_merge_joins_the_classes(rt: HostRuntime) -> Result<(), Fail> {
    let mut graph = pair(rt.alloc())?;
    let mut waiting = Waiting::new(rt.alloc());
    let mut starts = Places::new(rt.alloc());
    if graph.variables() != 2 {
        return Err(Fail::from("two variables"));
    }
    graph.well_formed();
    let (a, b) = (graph.deref(0), graph.deref(1));
    if a == b {
        return Err(Fail::from("two classes"));
    }
    assert!(rt; merge(rt.alloc(), &mut graph, &mut waiting, &mut starts, a, b)?);
    if graph.variables() != 2 {
        return Err(Fail::from("two variables"));
    }
    assert!(rt; graph.deref(0) == graph.deref(1));
    assert!(rt; starts.len() == 0);
    Ok(())
}

// Asserts the atom, which has to be kept.
fn keep(alloc: Global, graph: &mut Graph, owners: &mut Vec<usize>, atom: Flat) -> Result<(), Fail>
    requires over { AtomOver (length graph.old.contents.bindings) atom }
    requires owners { AreOwners graph.old.contents owners.old.items }
    ensures variables { IfOk result (λ done. length graph.new.contents.bindings ≡ length graph.old.contents.bindings) }
    ensures owners { IfOk result (λ done. AreOwners graph.new.contents owners.new.items) }
{
    if assert(alloc, graph, owners, &atom)? {
        Ok(())
    } else {
        Err(Fail::from("it was to be kept"))
    }
}

// Asserts the atom, which has to be refused.
fn refuse(alloc: Global, graph: &mut Graph, owners: &mut Vec<usize>, atom: Flat) -> Result<(), Fail>
    requires over { AtomOver (length graph.old.contents.bindings) atom }
    requires owners { AreOwners graph.old.contents owners.old.items }
    ensures graph { IfOk result (λ done. graph.new ≡ graph.old) }
    ensures owners { IfOk result (λ done. owners.new.items ≡ owners.old.items) }
{
    if assert(alloc, graph, owners, &atom)? {
        Err(Fail::from("it was to be refused"))
    } else {
        Ok(())
    }
}

// Three variables, and no owners.
fn three(alloc: Global) -> Result<Graph, NoMemory>
    ensures { IfOk result (λ graph. (length graph.contents.bindings ≡ 3) × (length graph.contents.terms ≡ 0)) }
{
    let mut graph = Graph::new(alloc);
    graph.add_variable()?;
    graph.add_variable()?;
    graph.add_variable()?;
    Ok(graph)
}

// The variable equals the first symbol of this variable.
fn successor(alloc: Global, u: usize, v: usize) -> Result<Flat, NoMemory>
    ensures { IfOk result (λ atom. atom ≡ VarTerm u (Named 0) (v ∷ [])) }
{
    let mut args = Args::new(alloc);
    args.push(v)?;
    Ok(Flat::VarTerm(u, Symbol::Named(0), args))
}

#[test]
fn equal_terms_have_equal_arguments(rt: HostRuntime) -> Result<(), Fail> {
    let mut graph = three(rt.alloc())?;
    let mut owners = Vec::new(rt.alloc());
    keep(
        rt.alloc(),
        &mut graph,
        &mut owners,
        successor(rt.alloc(), 0, 1)?,
    )?;
    keep(
        rt.alloc(),
        &mut graph,
        &mut owners,
        successor(rt.alloc(), 0, 2)?,
    )?;
    assert!(rt; graph.deref(1) == graph.deref(2));
    Ok(())
}

#[test]
fn what_must_be_finite_does_not_come_round(rt: HostRuntime) -> Result<(), Fail> {
    let mut graph = three(rt.alloc())?;
    let mut owners = Vec::new(rt.alloc());
    keep(rt.alloc(), &mut graph, &mut owners, Flat::Finite(0))?;
    keep(
        rt.alloc(),
        &mut graph,
        &mut owners,
        successor(rt.alloc(), 0, 1)?,
    )?;
    let leaf = graph.deref(1);
    assert!(rt; graph.finite(leaf));
    refuse(
        rt.alloc(),
        &mut graph,
        &mut owners,
        successor(rt.alloc(), 1, 0)?,
    )?;
    let still = graph.deref(1);
    assert!(rt; graph.finite(still));
    assert_eq!(rt; owners.len(), 1);
    Ok(())
}
