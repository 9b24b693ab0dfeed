use cmr_base::{LineSet, Step};
use tree_type::DecTree;

/// Why the submatrix of a part is totally unimodular. A marked line has the sign -1.
#[derive(Debug, Drop)]
pub enum PartReason {
    /// Signs of the rows: no column has more than two nonzeros, and two cancel.
    Columns(Vec<bool>),
    /// Signs of the columns: no row has more than two nonzeros, and two cancel.
    Rows(Vec<bool>),
    /// A decomposition tree, by the numbers of the part's own lines.
    Tree(DecTree),
}

/// Lines of a part, and why their submatrix is totally unimodular.
#[derive(Debug, Drop)]
pub struct PartEvidence {
    pub lines: LineSet,
    pub reason: PartReason,
}

/// Evidence that a matrix is totally unimodular: zero and unit lines are removed, one after another, and the lines that remain are in
/// parts without a nonzero between two of them.
#[derive(Debug, Drop)]
pub struct UnimodularityEvidence {
    pub steps: Vec<Step>,
    pub parts: Vec<PartEvidence>,
}
