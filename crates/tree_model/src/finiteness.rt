//! Whether a tree is finite, by marks on the places from which only finitely many paths go on.
ghost use Rattle.std.specs.Prelude.{◌≡◌, ◌<◌, length, All, MatchBool, IsTrue, ◌↔◌, IfOk};
ghost use Rattle.tree_model.specs.Bounding.{IsMarked, HasUnmarked, AreBounded, IsAtRest};
ghost use Rattle.tree_model.specs.Comparing.{unmarked};
ghost use Rattle.tree_model.specs.Graphs.{ChildrenBelow};
ghost use Rattle.tree_model.specs.Trees.{IsFinite};

use crate::{NoMemory, Node, Places, Tree};
use std::alloc::Global;

// Whether all the places are marked.
fn all_marked(places: &Places, marks: &[bool]) -> bool
    requires { All (λ place. place < length marks.now) places.now }
    ensures { MatchBool result (All (IsMarked marks.now) places.now) (HasUnmarked marks.now places.now) }
{
    for &place in places.as_slice() {
        if !marks[place] {
            return false;
        }
    }
    true
}

// Marks, in one walk over the nodes, each one whose children are all marked. Whether it marked any.
fn mark_more(nodes: &[Node], marks: &mut [bool]) -> bool
    requires size { length marks.old ≡ length nodes.now }
    requires children { All (ChildrenBelow (length nodes.now)) nodes.now }
    ensures bounded { AreBounded nodes.now marks.old → AreBounded nodes.now marks.new }
    ensures more { MatchBool result (unmarked marks.new < unmarked marks.old) (IsAtRest nodes.now marks.new) }
{
    let mut more = false;
    for (i, node) in nodes.iter().enumerate() {
        if !marks[i] && all_marked(&node.children, marks) {
            marks[i] = true;
            more = true;
        }
    }
    more
}

/// Whether the tree is finite: whether some number exceeds the length of every path that reads a symbol. Walks over the
/// nodes mark each one whose children are marked, until a walk marks none, so the work grows at most with the number of
/// nodes times the number of their children.
pub fn is_finite(alloc: Global, a: &Tree) -> Result<bool, NoMemory>
    ensures { IfOk result (λ answer. IsTrue answer ↔ IsFinite a.now) }
{
    let nodes = a.nodes();
    let mut marks = vec![in alloc; false; nodes.len()]?;
    'walks: while mark_more(nodes, &mut marks) {}
    Ok(marks[a.root()])
}
