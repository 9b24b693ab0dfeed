// A sparse matrix within the limits of `Matrix`, with all its entries.
ghost use Rattle.std.specs.Prelude.{◌≡◌, ◌<◌, ◌≤◌, ℕ, pos, length, IfOk};
ghost use Rattle.std.specs.List.{AllByRecursion};
ghost use Rattle.cmr_base.specs.declared.limits.TheConstants.{MAX_COLUMNS, MAX_ROWS};
ghost use Rattle.cmr_base.specs.Matrix.{entry, height};
ghost use Rattle.sparse_matrix.specs.SparseRows.{AreInDistinctLines, IsNonzeroWithin, matrix_of_runs};
ghost use Rattle.core_parts.specs.DenseRuns.{HasValues};

use cmr_base::{Matrix, Memory};
use sparse_matrix::{Nonzero, SparseMatrix};
use std::alloc::Global;

// Writes the nonzeros of a run into a zero row.
fn write_run(matrix: &mut Matrix, row: u32, run: &[Nonzero])
    requires row { row < height matrix.old }
    requires run { AllByRecursion (IsNonzeroWithin matrix.old.width) run.now }
    requires distinct { AreInDistinctLines run.now }
    requires zero { (column : ℕ) → entry matrix.old row column ≡ pos 0 }
    ensures { HasValues matrix.old row run.now matrix.new }
{
    for nonzero in run {
        let _height = matrix.rows();
        matrix.set(row, nonzero.line, nonzero.value);
    }
}

/// The same matrix as a `Matrix`.
pub fn dense(alloc: Global, sparse: &SparseMatrix) -> Result<Matrix, Memory>
    requires rows { length sparse.now.runs ≤ MAX_ROWS }
    requires columns { sparse.now.width ≤ MAX_COLUMNS }
    ensures { IfOk result (λ m. m ≡ matrix_of_runs sparse.now) }
{
    let mut matrix = Matrix::zero(alloc, sparse.rows(), sparse.columns())?;
    for row in 0..sparse.rows() {
        write_run(&mut matrix, row, sparse.row(row));
    }
    let _height = matrix.rows();
    Ok(matrix)
}
