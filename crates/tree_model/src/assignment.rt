ghost use Rattle.std.specs.Prelude.{◌≡◌, ◌<◌, length, MatchResult, IfOk};
ghost use Rattle.tree_model.specs.Answers.{AreKept, AreRefused};
ghost use Rattle.tree_model.specs.Graphs.{AreInRange, tree_of};

use crate::tree::{all_below, first_stray};
use crate::{NoMemory, Node, Places, Tree, TreeError};
use lists::Copied;
use std::alloc::Global;
use std::marker::Model;

/// A rational tree for each variable: a list of nodes that all of them share, and the place of a root for each
/// variable, all places in range.
#[derive(Debug, Drop)]
pub struct Assignment {
    nodes: Vec<Node>,
    roots: Places,
}

impl Model for Assignment {
    ghost use Rattle.tree_model.specs.Graphs.{Forest, AreInRange};

    ghost Value = { Forest };

    ghost view = { λ a. record { nodes = a.nodes.items; roots = a.roots } };

    ghost invariant = { λ a. AreInRange a.nodes.items a.roots };
}

// An equal list of nodes.
fn copy_nodes(alloc: Global, nodes: &[Node]) -> Result<Vec<Node>, NoMemory>
    ensures { IfOk result (λ copy. copy.items ≡ nodes.now) }
{
    let mut copied = Vec::new(alloc);
    for node in nodes {
        let children = node.children.copy(alloc)?;
        let node = Node {
            symbol: node.symbol,
            children,
        };
        copied.push(node)?;
    }
    Ok(copied)
}

impl Assignment {
    /// Keeps the nodes and the roots, or says which place is the first out of range: of the children, or else a root.
    /// It takes no memory.
    pub fn new(nodes: Vec<Node>, roots: Places) -> Result<Assignment, TreeError>
        ensures { MatchResult result (λ assignment. AreKept nodes.items roots assignment) (λ error. AreRefused nodes.items roots error) }
    {
        if let Some(i) = first_stray(&nodes) {
            return Err(TreeError::Child(i));
        }
        if !all_below(&roots, nodes.len()) {
            return Err(TreeError::Root);
        }
        Ok(Assignment { nodes, roots })
    }

    /// The nodes. It takes no memory.
    pub fn nodes(&self) -> &[Node]
        ensures nodes { result.now ≡ self.now.nodes }
        ensures in_range { AreInRange self.now.nodes self.now.roots }
    {
        self.nodes.as_slice()
    }

    /// The place of the root of each variable. It takes no memory.
    pub fn roots(&self) -> &Places
        ensures roots { result.now ≡ self.now.roots }
        ensures in_range { AreInRange self.now.nodes self.now.roots }
    {
        &self.roots
    }

    /// The tree of this variable: a copy of all the nodes, with the variable's root.
    pub fn tree(&self, alloc: Global, variable: usize) -> Result<Tree, NoMemory>
        requires { variable < length self.now.roots }
        ensures { IfOk result (λ tree. tree ≡ tree_of self.now variable) }
    {
        let nodes = copy_nodes(alloc, self.nodes.as_slice())?;
        Ok(Tree::from_parts(nodes, *self.roots.get(variable)))
    }
}
