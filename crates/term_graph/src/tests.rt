ghost use Rattle.std.specs.Prelude.{◌≡◌, length, IfOk};

use super::*;
use lists::NoMemory;
use std::alloc::Global;
use std::test::*;
use tree_model::Symbol;

const F: Symbol = Symbol::Named(0);

// So many variables.
fn variables(alloc: Global, count: usize) -> Result<Graph, NoMemory> {
    let mut graph = Graph::new(alloc);
    for _ in 0..count {
        graph.add_variable()?;
    }
    Ok(graph)
}

// The term f(v), where there is this variable.
fn term_of(graph: &mut Graph, v: usize) -> Option<usize> {
    if v >= graph.variables() {
        return None;
    }
    graph.intern_term(F, &[v]).ok()
}

// Whether v, which is free, is bound to the term.
fn gets_term(graph: &mut Graph, v: usize, t: usize) -> bool {
    if v >= graph.variables() || t >= graph.terms() {
        return false;
    }
    match graph.binding(v) {
        Bound::Free => graph.bind(v, Bound::Term(t)).is_ok(),
        _ => false,
    }
}

// Whether v, which is a root, is bound to the variable x with another root.
fn goes_under(graph: &mut Graph, v: usize, x: usize) -> bool {
    if v >= graph.variables() || x >= graph.variables() || graph.deref(x) == v {
        return false;
    }
    match graph.binding(v) {
        Bound::Free => graph.bind(v, Bound::Variable(x)).is_ok(),
        Bound::Variable(_) => false,
        Bound::Term(_) => graph.bind(v, Bound::Variable(x)).is_ok(),
    }
}

// Whether v is marked now.
fn gets_mark(graph: &mut Graph, v: usize) -> bool {
    v < graph.variables() && graph.mark_finite(v).is_ok()
}

// Whether the graph is taken back to the mark.
fn goes_back(graph: &mut Graph, mark: Mark) -> bool {
    if mark.length > graph.mark().length {
        return false;
    }
    graph.undo_to(mark);
    true
}

// The first three uses of v.
fn uses(graph: &Graph, v: usize) -> (Option<usize>, Option<usize>, Option<usize>) {
    if v >= graph.variables() {
        return (None, None, None);
    }
    let mut uses = graph.uses(v);
    (uses.next(), uses.next(), uses.next())
}

// Whether the terms 0 and 1 are the uses of v, each once.
fn is_used_by_both(graph: &Graph, v: usize) -> bool {
    match uses(graph, v) {
        (Some(0), Some(1), None) => true,
        (Some(1), Some(0), None) => true,
        _ => false,
    }
}

// The least variable and the weight of the class.
fn measures(graph: &Graph, v: usize) -> Option<(usize, usize)> {
    if v >= graph.variables() {
        return None;
    }
    Some((graph.least(v), graph.weight(v)))
}

// What the moment did.
fn step(graph: &Graph, moment: usize) -> Option<Past> {
    if moment >= graph.mark().length {
        return None;
    }
    Some(graph.step(moment))
}

fn root_of(graph: &Graph, v: usize) -> Option<usize> {
    if v >= graph.variables() {
        return None;
    }
    Some(graph.deref(v))
}

fn bound_to(graph: &Graph, v: usize) -> Option<Bound> {
    if v >= graph.variables() {
        return None;
    }
    Some(graph.binding(v))
}

// Whether v is free, not marked, and without uses.
fn is_bare(graph: &Graph, v: usize) -> bool {
    if v >= graph.variables() {
        return false;
    }
    graph.binding(v) == Bound::Free && !graph.finite(v) && graph.uses(v).next().is_none()
}

#[test]
fn undo_takes_back_a_term_a_binding_and_a_mark(rt: HostRuntime) -> Result<(), Fail> {
    let mut graph = variables(rt.alloc(), 2)?;
    let mark = graph.mark();
    assert_eq!(rt; term_of(&mut graph, 1), Some(0));
    assert_eq!(rt; term_of(&mut graph, 1), Some(0));
    assert!(rt; gets_term(&mut graph, 0, 0));
    assert!(rt; gets_mark(&mut graph, 1));
    assert!(rt; !is_bare(&graph, 0) && !is_bare(&graph, 1));
    assert!(rt; goes_back(&mut graph, mark));
    assert!(rt; is_bare(&graph, 0) && is_bare(&graph, 1));
    assert!(rt; graph.variables() == 2 && graph.terms() == 0);
    Ok(())
}

// Four variables, the terms f(1) and f(3), and the length of the trail.
fn two_terms(alloc: Global) -> Result<(Graph, Mark), NoMemory> {
    let mut graph = variables(alloc, 4)?;
    let _one = term_of(&mut graph, 1);
    let _other = term_of(&mut graph, 3);
    let mark = graph.mark();
    Ok((graph, mark))
}

#[test]
fn terms_of_one_class_have_the_least_number(rt: HostRuntime) -> Result<(), Fail> {
    let (mut graph, _mark) = two_terms(rt.alloc())?;
    assert_eq!(rt; term_of(&mut graph, 1), Some(0));
    assert_eq!(rt; term_of(&mut graph, 3), Some(1));
    assert!(rt; goes_under(&mut graph, 1, 3));
    assert_eq!(rt; term_of(&mut graph, 1), Some(0));
    assert_eq!(rt; term_of(&mut graph, 3), Some(0));
    assert!(rt; is_used_by_both(&graph, 1));
    assert!(rt; is_used_by_both(&graph, 3));
    Ok(())
}

#[test]
fn undo_parts_terms_of_one_class(rt: HostRuntime) -> Result<(), Fail> {
    let (mut graph, mark) = two_terms(rt.alloc())?;
    assert!(rt; goes_under(&mut graph, 1, 3));
    assert_eq!(rt; term_of(&mut graph, 1), Some(0));
    assert!(rt; goes_back(&mut graph, mark));
    assert_eq!(rt; term_of(&mut graph, 3), Some(1));
    assert!(rt; uses(&graph, 1) == (Some(0), None, None));
    Ok(())
}

#[test]
fn a_class_with_a_term_goes_under_another(rt: HostRuntime) -> Result<(), Fail> {
    let mut graph = variables(rt.alloc(), 2)?;
    assert_eq!(rt; term_of(&mut graph, 0), Some(0));
    assert_eq!(rt; term_of(&mut graph, 1), Some(1));
    assert!(rt; gets_term(&mut graph, 0, 0));
    assert!(rt; gets_term(&mut graph, 1, 1));
    assert!(rt; goes_under(&mut graph, 1, 0));
    assert_eq!(rt; root_of(&graph, 1), Some(0));
    assert_eq!(rt; bound_to(&graph, 0), Some(Bound::Term(0)));
    Ok(())
}

#[test]
fn a_class_has_its_least_variable_and_its_weight(rt: HostRuntime) -> Result<(), Fail> {
    let (mut graph, mark) = two_terms(rt.alloc())?;
    assert!(rt; goes_under(&mut graph, 1, 3));
    assert_eq!(rt; measures(&graph, 3), Some((1, 4)));
    assert!(rt; goes_under(&mut graph, 0, 1));
    assert_eq!(rt; measures(&graph, 1), Some((0, 5)));
    assert_eq!(rt; measures(&graph, 2), Some((2, 1)));
    assert!(rt; goes_back(&mut graph, mark));
    assert_eq!(rt; measures(&graph, 3), Some((3, 2)));
    Ok(())
}

#[test]
fn a_moment_tells_what_was_done(rt: HostRuntime) -> Result<(), Fail> {
    let (mut graph, _mark) = two_terms(rt.alloc())?;
    assert!(rt; gets_term(&mut graph, 1, 0));
    assert!(rt; goes_under(&mut graph, 0, 3));
    assert!(rt; goes_under(&mut graph, 1, 0));
    assert!(rt; gets_mark(&mut graph, 2));
    assert!(rt; step(&graph, 3) == Some(Past::Added));
    assert!(rt; step(&graph, 5) == Some(Past::Interned));
    assert!(rt; step(&graph, 6) == Some(Past::Termed(1)));
    let joined = Past::Joined {
        variable: 1,
        root: 3,
        before: Bound::Term(0),
        least: 1,
        root_least: 0,
    };
    assert!(rt; step(&graph, 8) == Some(joined));
    assert!(rt; step(&graph, 9) == Some(Past::Marked(2)));
    assert!(rt; step(&graph, 10) == None);
    Ok(())
}

// The term f(0, 0).
fn double_term(graph: &mut Graph) -> Option<usize> {
    if graph.variables() == 0 {
        return None;
    }
    graph.intern_term(F, &[0, 0]).ok()
}

#[test]
fn a_term_is_used_once_for_each_mention(rt: HostRuntime) -> Result<(), Fail> {
    let mut graph = variables(rt.alloc(), 1)?;
    assert_eq!(rt; double_term(&mut graph), Some(0));
    assert!(rt; uses(&graph, 0) == (Some(0), Some(0), None));
    Ok(())
}
