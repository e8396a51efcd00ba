//! The nodes that some reach, numbered by breadth. The order in which they are met is its own queue.
ghost use Rattle.std.specs.Prelude.{◌≡◌, ℕ, ◌<◌, length, slice_index, IfOk, All};
ghost use Rattle.tree_model.specs.declared.tree.Node.{Node};
ghost use Rattle.tree_model.specs.Graphs.{ChildrenBelow};
ghost use Rattle.witness_trees.specs.Breadth.{IsByBreadth};
ghost use Rattle.witness_trees.specs.Numbering.{AreLabels, IsNext};

use crate::meeting::Met;
use std::alloc::Global;
use tree_model::{Assignment, NoMemory, Node, Places};

// The node of the i-th that was met. Its children are met.
fn next_node(alloc: Global, labels: &[Node], met: &mut Met, i: usize) -> Result<Node, NoMemory>
    requires children { All (ChildrenBelow (length labels.now)) labels.now }
    requires count { met.old.count ≡ length labels.now }
    requires within { i < length met.old.order }
    ensures count { met.new.count ≡ met.old.count }
    ensures node { IfOk result (λ node. (label : ℕ → Node) → AreLabels label labels.now → IsNext (label (slice_index met.old.order i)) met.old.order met.new.order node) }
{
    let label = &labels[met.get(i)];
    let children = met.enter_all(alloc, label.children.as_slice())?;
    Ok(Node {
        symbol: label.symbol,
        children,
    })
}

/// The nodes that the tops reach, numbered as they are first met.
pub(crate) fn numbered(
    alloc: Global,
    labels: &[Node],
    tops: &Places,
) -> Result<Assignment, NoMemory>
    requires children { All (ChildrenBelow (length labels.now)) labels.now }
    requires tops { All (λ v. v < length labels.now) tops.now }
    ensures { IfOk result (λ a. (label : ℕ → Node) → AreLabels label labels.now → IsByBreadth label tops.now a) }
{
    let mut met = Met::new(alloc, labels.len())?;
    let roots = met.enter_all(alloc, tops.as_slice())?;
    let mut nodes = Vec::new(alloc);
    while nodes.len() < met.len() {
        let node = next_node(alloc, labels, &mut met, nodes.len())?;
        nodes.push(node)?;
    }
    match Assignment::new(nodes, roots) {
        Ok(assignment) => Ok(assignment),
        Err(_) => unreachable!(),
    }
}
