//! The edges that have been read from a graph text.
ghost use Rattle.std.specs.Prelude.{◌≡◌, OnOk};
ghost use Rattle.graph_text.specs.GraphReading.{ends, no_edges, with_edge};

use cmr_base::{ItemList, Memory, Pair};
use std::alloc::Global;

/// A node, and the byte at which its word begins.
#[derive(Clone, Copy, Debug)]
pub struct NodeWord {
    pub number: u32,
    pub place: usize,
}

/// The ends of an edge.
#[derive(Clone, Copy, Debug)]
pub struct Edge {
    pub tail: NodeWord,
    pub head: NodeWord,
}

/// The line that an edge represents.
#[derive(Clone, Copy, Debug, PartialEq, Eq)]
pub enum Element {
    Row,
    Column,
}

/// The edges of the rows and the edges of the columns, in their orders.
#[derive(Debug, Drop)]
pub struct Edges {
    pub rows: ItemList<Edge>,
    pub columns: ItemList<Edge>,
}

impl Edge {
    pub fn ends(&self) -> Pair
        ensures { result ≡ ends self.now }
    {
        Pair {
            tail: self.tail.number,
            head: self.head.number,
        }
    }
}

impl Edges {
    pub fn new(alloc: Global) -> Edges
        ensures { result ≡ no_edges }
    {
        Edges {
            rows: ItemList::new(alloc),
            columns: ItemList::new(alloc),
        }
    }

    pub fn push(&mut self, element: Element, edge: Edge) -> Result<(), Memory>
        ensures { OnOk result (self.new ≡ with_edge self.old element edge) }
    {
        match element {
            Element::Row => self.rows.push(edge),
            Element::Column => self.columns.push(edge),
        }
    }
}
