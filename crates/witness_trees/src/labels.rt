//! The terms of the variables of a cube, with fresh ones for those that nothing determines.
ghost use Rattle.std.specs.Prelude.{◌≡◌, ℕ, ◌<◌, ◌≤◌, ◌+◌, length, map, slice_index, IfOk, All};
ghost use Rattle.std.specs.List.{range_with_len};
ghost use Rattle.tree_model.specs.Graphs.{ChildrenBelow};
ghost use Rattle.flat_form.specs.Numbering.{BasicOver};
ghost use Rattle.flat_form.specs.Solved.{Ascends};
ghost use Rattle.reachability.specs.Places.{ArePlaces};
ghost use Rattle.witness_trees.specs.Fresh.{representative, fresh_node, label_by, label};
ghost use Rattle.witness_trees.specs.Numbering.{AreLabels};

use crate::indexes::{all_open, first_unused, index_table};
use flat_form::{Basic, Cube, Flat};
use reachability::atom_of;
use std::alloc::Global;
use tree_model::{NoMemory, Node, Places, Symbol};

// The variable that v equals, or else v itself.
fn representative(places: &[Option<usize>], atoms: &Basic, v: usize) -> usize
    requires within { v < length places.now }
    requires places { ArePlaces (length atoms.now) atoms.now places.now }
    requires ascending { Ascends atoms.now }
    requires over { BasicOver (length places.now) atoms.now }
    ensures is { result ≡ representative atoms.now v }
    ensures below { result < length places.now }
{
    match atom_of(places, atoms, v) {
        Some(Flat::VarVar(_, r)) => *r,
        Some(Flat::VarTerm(_, _, _)) => v,
        Some(Flat::Finite(_)) => v,
        None => v,
    }
}

// What the variables equal.
fn representatives(
    alloc: Global,
    places: &[Option<usize>],
    atoms: &Basic,
    vs: &[usize],
) -> Result<Places, NoMemory>
    requires within { All (λ v. v < length places.now) vs.now }
    requires places { ArePlaces (length atoms.now) atoms.now places.now }
    requires ascending { Ascends atoms.now }
    requires over { BasicOver (length places.now) atoms.now }
    ensures are { IfOk result (λ out. out ≡ map (representative atoms.now) vs.now) }
    ensures below { IfOk result (All (λ v. v < length places.now)) }
{
    let mut out = Places::new(alloc);
    for &v in vs {
        out.push(representative(places, atoms, v))?;
    }
    Ok(out)
}

/// What the free variables equal, by rank.
pub(crate) fn tops(
    alloc: Global,
    places: &[Option<usize>],
    atoms: &Basic,
    free: usize,
) -> Result<Places, NoMemory>
    requires within { free ≤ length places.now }
    requires places { ArePlaces (length atoms.now) atoms.now places.now }
    requires ascending { Ascends atoms.now }
    requires over { BasicOver (length places.now) atoms.now }
    ensures are { IfOk result (λ out. out ≡ map (representative atoms.now) (range_with_len 0 free)) }
    ensures below { IfOk result (All (λ v. v < length places.now)) }
{
    let mut out = Places::new(alloc);
    for v in 0..free {
        out.push(representative(places, atoms, v))?;
    }
    Ok(out)
}

// The fresh term of a variable: without children where it is to be finite, else over itself.
fn fresh(alloc: Global, index: u64, v: usize, is_finite: bool) -> Result<Node, NoMemory>
    ensures { IfOk result (λ node. node ≡ fresh_node index v is_finite) }
{
    let mut children = Places::new(alloc);
    if !is_finite {
        children.push(v)?;
    }
    Ok(Node {
        symbol: Symbol::Further(index),
        children,
    })
}

// The term of v, with what its variables equal.
fn label_of(
    alloc: Global,
    places: &[Option<usize>],
    atoms: &Basic,
    indexes: &[u64],
    v: usize,
) -> Result<Node, NoMemory>
    requires within { v < length places.now }
    requires places { ArePlaces (length atoms.now) atoms.now places.now }
    requires ascending { Ascends atoms.now }
    requires over { BasicOver (length places.now) atoms.now }
    requires size { length indexes.now ≡ length places.now }
    ensures is { IfOk result (λ node. node ≡ label_by atoms.now (slice_index indexes.now v) v) }
    ensures below { IfOk result (ChildrenBelow (length places.now)) }
{
    match atom_of(places, atoms, v) {
        Some(Flat::VarTerm(_, symbol, xs)) => {
            let children = representatives(alloc, places, atoms, xs.as_slice())?;
            Ok(Node {
                symbol: *symbol,
                children,
            })
        }
        Some(Flat::Finite(_)) => fresh(alloc, indexes[v], v, true),
        Some(Flat::VarVar(_, r)) => fresh(alloc, indexes[v], *r, false),
        None => fresh(alloc, indexes[v], v, false),
    }
}

/// The terms of the variables of a cube.
pub(crate) fn labels(
    alloc: Global,
    c: &Cube,
    places: &[Option<usize>],
    used: &[u64],
) -> Result<Vec<Node>, NoMemory>
    requires size { length places.now ≡ c.now.free + c.now.outer }
    requires places { ArePlaces (length c.now.basic) c.now.basic places.now }
    requires ascending { Ascends c.now.basic }
    requires over { BasicOver (c.now.free + c.now.outer) c.now.basic }
    ensures size { IfOk result (λ labels. length labels.items ≡ length places.now) }
    ensures are { IfOk result (λ labels. AreLabels (label c.now used.now) labels.items) }
    ensures below { IfOk result (λ labels. All (ChildrenBelow (length places.now)) labels.items) }
{
    let opens = all_open(alloc, places, &c.basic)?;
    let free = first_unused(alloc, used, opens.len())?;
    let indexes = index_table(alloc, places.len(), opens.as_slice(), free.as_slice())?;
    let mut labels = Vec::new(alloc);
    for v in 0..places.len() {
        let label = label_of(alloc, places, &c.basic, indexes.as_slice(), v)?;
        labels.push(label)?;
    }
    Ok(labels)
}
