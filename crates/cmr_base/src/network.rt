use crate::ItemList;

/// Two nodes: the ends of an arc, or the first and the last node of a walk.
#[derive(Clone, Copy, Debug, PartialEq, Eq)]
pub struct Pair {
    pub tail: u32,
    pub head: u32,
}

/// Arcs or walks, in an order.
pub type PairList = ItemList<Pair>;

/// A directed tree and walks in it. The arcs represent the rows of a matrix, in their order, and each column has a
/// walk. If the matrix has m rows, the nodes are 0 to m.
#[derive(Debug, Drop)]
pub struct Network {
    pub arcs: PairList,
    pub walks: PairList,
}
