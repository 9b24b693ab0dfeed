ghost use Rattle.std.specs.Prelude.{◌≡◌, ◌<◌, ◌≤◌, ℕ, pos, length, slice_index_or, IfOk};
ghost use Rattle.cmr_base.specs.Matrix.{IsMatrix, IsEntry, entry, height};
ghost use Rattle.cmr_base.specs.RootedTrees.{AreEndsInRange, IsSpanning};
ghost use Rattle.cmr_base.specs.Trees.{IsDirectedPathOf, IsNetworkOf, Reproduces, head, tail};
ghost use Rattle.cmr_base.specs.WrittenColumns.{IsColumnWritten};

use crate::rooted_tree::{RootedTree, rooted};
use crate::{MAX_COLUMNS, MAX_ROWS, Matrix, Memory, Network, Pair};
use std::alloc::Global;

impl Network {
    /// The matrix of the tree and its walks: an entry is 1 if the path of its column uses the arc of its row forwards,
    /// -1 if the path uses the arc backwards, and 0 if the path does not use it.
    pub fn matrix(&self, alloc: Global, rows: u32, columns: u32) -> Result<Matrix, Memory>
        requires rows { rows ≤ MAX_ROWS }
        requires columns { columns ≤ MAX_COLUMNS }
        requires network { IsNetworkOf self.now rows columns }
        ensures shape { IfOk result IsMatrix }
        ensures rows { IfOk result (λ matrix. height matrix ≡ rows) }
        ensures columns { IfOk result (λ matrix. matrix.width ≡ columns) }
        ensures reproduced { IfOk result (λ matrix. Reproduces self.now matrix) }
    {
        let arcs = self.arcs.as_slice();
        let Some(tree) = rooted(alloc, arcs, rows)? else {
            unreachable!()
        };
        matrix_of_paths(alloc, &tree, arcs, self.walks.as_slice())
    }
}

fn matrix_of_paths(
    alloc: Global,
    tree: &RootedTree,
    arcs: &[Pair],
    walks: &[Pair],
) -> Result<Matrix, Memory>
    requires rows { length arcs.now ≤ MAX_ROWS }
    requires columns { length walks.now ≤ MAX_COLUMNS }
    requires tree { IsSpanning arcs.now tree.now.links.items tree.now.places.items }
    requires walks { AreEndsInRange walks.now (length arcs.now) }
    ensures shape { IfOk result IsMatrix }
    ensures rows { IfOk result (λ matrix. height matrix ≡ length arcs.now) }
    ensures columns { IfOk result (λ matrix. matrix.width ≡ length walks.now) }
    ensures paths { IfOk result (λ matrix. (column : ℕ) → column < length walks.now
        → IsDirectedPathOf arcs.now (length arcs.now) (λ row. entry matrix row column)
        (tail walks.now column) (head walks.now column)) }
{
    let mut matrix = Matrix::zero(alloc, arcs.len() as u32, walks.len() as u32)?;
    let mut directions = vec![in alloc; 0i8; arcs.len()]?;
    for column in 0..matrix.columns() {
        tree.write_path(arcs, walks[column as usize], &mut directions);
        write_column(&mut matrix, column, &directions);
        directions.fill(0);
    }
    Ok(matrix)
}

// Writes these entries into a column of zeros.
fn write_column(matrix: &mut Matrix, column: u32, entries: &[i8])
    requires shape { IsMatrix matrix.old }
    requires column { column < matrix.old.width }
    requires each { length entries.now ≡ height matrix.old }
    requires small { (row : ℕ) → IsEntry (slice_index_or entries.now row (pos 0)) }
    requires zeros { (row : ℕ) → entry matrix.old row column ≡ pos 0 }
    ensures { IsColumnWritten matrix.old matrix.new column entries.now (length entries.now) }
{
    for row in 0..matrix.rows() {
        let value = entries[row as usize];
        if value != 0 {
            matrix.set(row, column, value);
        }
    }
}
