ghost use Rattle.std.specs.Prelude.{◌≡◌, List, ◌<◌, length, MatchResult, MatchOption, IsTrue, ◌↔◌, All};
ghost use Rattle.tree_model.specs.Answers.{symbol_read, IsKept, IsRefused, IsFirstStray};
ghost use Rattle.tree_model.specs.Graphs.{ChildrenBelow, IsInRange};
ghost use Rattle.tree_model.specs.Trees.{at};

use lists::List;
use std::marker::Model;

/// A list of places of nodes, or of numbers of variables.
pub type Places = List<usize>;

/// What a node of a tree is labelled with.
#[derive(Clone, Copy, Debug, PartialEq, Eq, Drop)]
pub enum Symbol {
    /// The name at this place of the signature.
    Named(usize),
    /// The further symbol `$k` with this k. With n children it is the one of n arguments.
    Further(u64),
}

/// A symbol and the places of its children, in the list that the node stands in.
#[derive(Debug, Drop)]
pub struct Node {
    pub symbol: Symbol,
    pub children: Places,
}

/// A rational tree: a list of nodes and the place of the root, all places in range. Different lists may be the same
/// tree.
#[derive(Debug, Drop)]
pub struct Tree {
    nodes: Vec<Node>,
    root: usize,
}

impl Model for Tree {
    ghost use Rattle.tree_model.specs.Graphs.{Graph, IsInRange};

    ghost Value = { Graph };

    ghost view = { λ t. record { nodes = t.nodes.items; root = t.root } };

    ghost invariant = { λ t. IsInRange t.nodes.items t.root };
}

/// Why nodes and a root are no tree.
#[derive(Clone, Copy, Debug, PartialEq, Eq, Drop)]
pub enum TreeError {
    /// The node at this place is the first that has a child out of range.
    Child(usize),
    /// All children are in range, and the root is not.
    Root,
}

// Whether each place is below the limit.
pub(crate) fn all_below(places: &Places, limit: usize) -> bool
    ensures { IsTrue result ↔ All (λ p. p < limit) places.now }
{
    for &place in places.as_slice() {
        if place >= limit {
            return false;
        }
    }
    true
}

// The first node that has a child out of range.
pub(crate) fn first_stray(nodes: &[Node]) -> Option<usize>
    ensures { MatchOption result (All (ChildrenBelow (length nodes.now)) nodes.now) (λ i. IsFirstStray nodes.now i) }
{
    for (i, node) in nodes.iter().enumerate() {
        if !all_below(&node.children, nodes.len()) {
            return Some(i);
        }
    }
    None
}

impl Tree {
    /// Keeps the nodes and the root, or says which place is the first out of range. It takes no memory.
    pub fn new(nodes: Vec<Node>, root: usize) -> Result<Tree, TreeError>
        ensures { MatchResult result (λ tree. IsKept nodes.items root tree) (λ error. IsRefused nodes.items root error) }
    {
        if let Some(i) = first_stray(&nodes) {
            return Err(TreeError::Child(i));
        }
        if root >= nodes.len() {
            return Err(TreeError::Root);
        }
        Ok(Tree { nodes, root })
    }

    /// The symbol and the number of children that are reached from the root along the path of child numbers. It is
    /// none where a number on the way is not below the number of children there. It takes no memory.
    pub fn at(&self, path: &[usize]) -> Option<(&Symbol, usize)>
        ensures { symbol_read result ≡ at self.now path.now }
    {
        let mut place = self.root;
        for &i in path {
            let node = &self.nodes[place];
            if i >= node.children.len() {
                return None;
            }
            place = *node.children.get(i);
        }
        let node = &self.nodes[place];
        Some((&node.symbol, node.children.len()))
    }
    // The tree of these nodes and this root, all places in range.
    pub(crate) fn from_parts(nodes: Vec<Node>, root: usize) -> Tree
        requires { IsInRange nodes.items root }
        ensures nodes { result.nodes ≡ nodes.items }
        ensures root { result.root ≡ root }
    {
        Tree { nodes, root }
    }

    // The nodes.
    pub(crate) fn nodes(&self) -> &[Node]
        ensures nodes { result.now ≡ self.now.nodes }
        ensures in_range { IsInRange self.now.nodes self.now.root }
    {
        self.nodes.as_slice()
    }

    // The place of the root.
    pub(crate) fn root(&self) -> usize
        ensures { result ≡ self.now.root }
    {
        self.root
    }
}
