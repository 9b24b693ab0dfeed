// The nodes of a decomposition tree.
ghost use Rattle.std.specs.Prelude.{◌≡◌, ◌<◌, ◌+◌, ◌++◌, [], ◌∷◌, drop, length, map, slice_get, Some, OnOk, OnErr};
ghost use Rattle.tree_type.specs.DecompositionTrees.{children_of, nodes_in, tree_of, trees_of, trees_from};
ghost use Rattle.tree_type.specs.NodeCounts.{node_count};

use cmr_base::{LineList, LineSet, Memory, Network, Position, Three, Two};
use std::alloc::Global;

/// A node: some lines of the matrix, and facts about the submatrix on these lines.
#[derive(Debug, Drop)]
#[cycle(tree)]
pub struct Node {
    pub lines: LineSet,
    pub kind: Kind,
}

/// The facts about the submatrix of a node.
#[derive(Debug, Drop)]
#[cycle(tree)]
pub enum Kind {
    Empty,
    Cycle {
        fault: LineSet,
    },
    Reduced {
        steps: LineList,
        child: Box<Node>,
    },
    OneSum {
        children: NodeList,
    },
    Network {
        net: Network,
    },
    Conetwork {
        net: Network,
    },
    R10,
    TwoSum {
        two: Two,
        one_child: Box<Node>,
        two_child: Box<Node>,
    },
    ThreeSum {
        three: Three,
        one_child: Box<Node>,
        two_child: Box<Node>,
    },
    Enumerated,
    Violator {
        fault: LineSet,
    },
    Undecided,
    /// The child describes the matrix after the pivot of the submatrix at this place.
    Pivoted {
        place: Position,
        child: Box<Node>,
    },
}

impl Node {
    /// The number of children.
    pub fn child_count(&self) -> usize
        ensures { result ≡ length (children_of (tree_of self.now)) }
    {
        match &self.kind {
            Kind::Reduced { .. } | Kind::Pivoted { .. } => 1,
            Kind::OneSum { children } => children.len(),
            Kind::TwoSum { .. } | Kind::ThreeSum { .. } => 2,
            Kind::Empty
            | Kind::Cycle { .. }
            | Kind::Network { .. }
            | Kind::Conetwork { .. }
            | Kind::R10
            | Kind::Enumerated
            | Kind::Violator { .. }
            | Kind::Undecided => 0,
        }
    }

    /// The child at a position, counted from 0.
    pub fn child(&self, index: usize) -> &Node
        requires { index < length (children_of (tree_of self.now)) }
        ensures child { slice_get (children_of (tree_of self.now)) index
            ≡ Some (tree_of result.now) }
        // It is the first of the children from this position on.
        ensures rest { drop index (children_of (tree_of self.now))
            ≡ tree_of result.now ∷ drop (index + 1) (children_of (tree_of self.now)) }
        // A walk from node to child ends.
        ensures fewer { node_count (tree_of result.now) < node_count (tree_of self.now) }
    {
        match &self.kind {
            Kind::Reduced { child, .. } | Kind::Pivoted { child, .. } => child,
            Kind::OneSum { children } => children.get(index),
            Kind::TwoSum {
                one_child,
                two_child,
                ..
            }
            | Kind::ThreeSum {
                one_child,
                two_child,
                ..
            } => { if index == 0 { one_child } else { two_child } }
            Kind::Empty
            | Kind::Cycle { .. }
            | Kind::Network { .. }
            | Kind::Conetwork { .. }
            | Kind::R10
            | Kind::Enumerated
            | Kind::Violator { .. }
            | Kind::Undecided => unreachable!(),
        }
    }
}

/// Nodes, in an order.
#[derive(Debug, Drop)]
#[cycle(tree)]
pub struct NodeList {
    items: Vec<Node>,
}

impl NodeList {
    /// The empty list.
    pub fn new(alloc: Global) -> Self
        ensures { nodes_in result ≡ [] }
    {
        NodeList {
            items: Vec::new(alloc),
        }
    }

    /// The list of these nodes.
    pub fn from_vec(items: Vec<Node>) -> Self
        ensures nodes { nodes_in result ≡ items.items }
        ensures trees { trees_of result ≡ trees_from (map tree_of items.items) }
    {
        NodeList { items }
    }

    /// Appends a node.
    pub fn push(&mut self, item: Node) -> Result<(), Memory>
        ensures ok { OnOk result (nodes_in self.new ≡ nodes_in self.old ++ item ∷ []) }
        ensures err { OnErr result (nodes_in self.new ≡ nodes_in self.old) }
    {
        self.items.push(item)?;
        Ok(())
    }

    /// The number of nodes.
    pub fn len(&self) -> usize
        ensures { result ≡ length (nodes_in self.now) }
    {
        self.items.len()
    }

    /// The node at a position, counted from 0.
    pub fn get(&self, index: usize) -> &Node
        requires { index < length (nodes_in self.now) }
        ensures { slice_get (nodes_in self.now) index ≡ Some result.now }
    {
        &self.items[index]
    }

    /// All nodes.
    pub fn as_slice(&self) -> &[Node]
        ensures items { result.now ≡ nodes_in self.now }
        ensures trees { trees_of self.now ≡ trees_from (map tree_of result.now) }
    {
        self.items.as_slice()
    }
}
