// Paths from rows to their roots.
ghost use Rattle.std.specs.Prelude.{◌≡◌, ◌<◌, false, length, not, slice_index_or, slice_set};
ghost use Rattle.sparse_matrix.specs.SparseRows.{AreSparseRows};
ghost use Rattle.split_search.specs.RowForests.{Spans};
ghost use Rattle.split_search.specs.Paths.{TurnsPath, above_at, root_at};

use crate::forest::{Edge, Node};
use sparse_matrix::SparseMatrix;

// The column above a row that is no root.
fn above(nodes: &[Option<Node>], row: u32) -> Option<Edge>
    requires { row < length nodes.now }
    ensures { result ≡ above_at nodes.now row }
{
    match nodes[row as usize] {
        Some(node) => node.above,
        None => None,
    }
}

/// Marks a line, or takes its mark away.
pub fn turn(marks: &mut Vec<bool>, line: u32)
    requires { line < length marks.old.items }
    ensures { marks.new.items
        ≡ slice_set marks.old.items line (not (slice_index_or marks.old.items line false)) }
{
    marks[line as usize] = !marks[line as usize];
}

/// Turns the marks of the columns on the path from a row to its root. Returns the root.
pub fn turn_path(
    nodes: &[Option<Node>],
    _columns: &SparseMatrix,
    marks: &mut Vec<bool>,
    from: u32,
) -> u32
    requires shape { AreSparseRows _columns.now }
    requires spans { Spans _columns.now nodes.now }
    requires size { length marks.old.items ≡ length _columns.now.runs }
    requires from { from < _columns.now.width }
    ensures turns { TurnsPath _columns.now nodes.now marks.old.items marks.new.items from result }
    ensures root { result ≡ root_at nodes.now from }
{
    let mut row = from;
    'path: while let Some(edge) = above(nodes, row) {
        turn(marks, edge.column);
        row = edge.row;
    }
    row
}
