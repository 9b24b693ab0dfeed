//! The matrix of a network, with the directions of its paths or without.
ghost use Rattle.std.specs.Prelude.{◌≡◌, ◌≤◌, ◌<◌, ◌*◌, ◌++◌, IfOk, OnOk, IsTrue, false, map};
ghost use Rattle.cmr_base.specs.LineSets.{first_lines};
ghost use Rattle.cmr_base.specs.Matrix.{IsMatrix, height};
ghost use Rattle.cmr_base.specs.MatrixSums.{filled};
ghost use Rattle.cmr_base.specs.Trees.{IsBinary, IsNetworkOf, Reproduces, ReproducesSupport};
ghost use Rattle.graph_text.specs.SupportMatrix.{one_at};

use cmr_base::{MAX_COLUMNS, MAX_ROWS, Matrix, Memory, Network};
use std::alloc::Global;

/// Makes the matrix of the paths between the ends of the walks, with a row for each arc. With `directed`, an entry is
/// 1 if the path uses the arc forwards and -1 if the path uses it backwards. Without `directed` it is 1 in both
/// cases.
pub fn matrix_of(
    alloc: Global,
    net: &Network,
    rows: u32,
    columns: u32,
    directed: bool,
) -> Result<Matrix, Memory>
    requires rows { rows ≤ MAX_ROWS }
    requires columns { columns ≤ MAX_COLUMNS }
    requires network { IsNetworkOf net.now rows columns }
    ensures shape { IfOk result IsMatrix }
    ensures rows { IfOk result (λ matrix. height matrix ≡ rows) }
    ensures columns { IfOk result (λ matrix. matrix.width ≡ columns) }
    ensures directed { IsTrue directed → IfOk result (λ matrix. Reproduces net.now matrix) }
    ensures binary { directed ≡ false → IfOk result IsBinary }
    ensures undirected { directed ≡ false
        → IfOk result (λ matrix. ReproducesSupport net.now matrix) }
{
    let matrix = net.matrix(alloc, rows, columns)?;
    if directed {
        Ok(matrix)
    } else {
        support_of(alloc, &matrix)
    }
}

// Makes the matrix of the same sizes with 1 at each nonzero.
fn support_of(alloc: Global, matrix: &Matrix) -> Result<Matrix, Memory>
    ensures { IfOk result (λ made. made ≡ filled (height matrix.now) matrix.now.width
        (one_at matrix.now)) }
{
    let size = matrix.rows() as usize * matrix.columns() as usize;
    let mut cells = Vec::with_capacity(alloc, size)?;
    for row in 0..matrix.rows() {
        push_support(&mut cells, matrix, row)?;
    }
    Matrix::from_cells(alloc, matrix.rows(), matrix.columns(), &cells)
}

fn push_support(cells: &mut Vec<i8>, matrix: &Matrix, row: u32) -> Result<(), Memory>
    requires { row < height matrix.now }
    ensures { OnOk result (cells.new.items
        ≡ cells.old.items ++ map (one_at matrix.now row) (first_lines matrix.now.width)) }
{
    for column in 0..matrix.columns() {
        cells.push(i8::from(matrix.is_nonzero(row, column)))?;
    }
    Ok(())
}
