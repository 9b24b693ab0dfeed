// Sums of entries.
ghost use Rattle.std.specs.Prelude.{◌≡◌, ◌<◌, ◌^◌, length};
ghost use Rattle.std.specs.List.{AllByRecursion};
ghost use Rattle.cmr_base.specs.LineSets.{AllBelow, submatrix_sum};
ghost use Rattle.cmr_base.specs.Sums.{sum_over};
ghost use Rattle.sparse_matrix.specs.SparseRows.{AreInDistinctLines, IsNonzeroWithin, matrix_of_runs, value_in};

use cmr_base::{Indices, LineSet};
use sparse_matrix::{Nonzero, SparseMatrix};
use tree_type::has_line;

// The sum of a row in some columns. The width of its matrix is only for the clauses.
fn row_sum(run: &[Nonzero], columns: &Indices, _width: u32) -> i64
    requires run { AllByRecursion (IsNonzeroWithin _width) run.now }
    requires distinct { AreInDistinctLines run.now }
    requires few { length run.now < 2 ^ 60 }
    ensures { result ≡ sum_over columns.now (value_in run.now) }
{
    let _count = columns.len();
    let mut sum = 0i64;
    for nonzero in run {
        if has_line(columns, nonzero.line) {
            sum += i64::from(nonzero.value);
        }
    }
    sum
}

/// The sum of the entries in some rows and columns.
pub fn sum_of(matrix: &SparseMatrix, lines: &LineSet) -> i64
    requires rows { AllBelow (length matrix.now.runs) lines.now.rows }
    requires columns { AllBelow matrix.now.width lines.now.columns }
    ensures { result ≡ submatrix_sum (matrix_of_runs matrix.now) lines.now.rows lines.now.columns }
{
    let _count = lines.columns.len();
    let width = matrix.columns();
    let mut sum = 0i64;
    for row in lines.rows.as_slice() {
        sum += row_sum(matrix.row(*row), &lines.columns, width);
    }
    sum
}
