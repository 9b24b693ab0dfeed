// Signs of the rows that cancel the columns.
ghost use Rattle.std.specs.Prelude.{◌≡◌, ◌<◌, ◌↔◌, IsTrue, IfSome, length, MatchOption};
ghost use Rattle.std.specs.List.{AllByRecursion};
ghost use Rattle.sparse_matrix.specs.SparseRows.{AreCrossed, IsNonzeroWithin, run_of};
ghost use Rattle.two_nonzeros.specs.Cancelling.{AreSplitBy, Cancels, sign_at};

use sparse_matrix::{Nonzero, SparseMatrix};

/// The first column whose nonzeros do not cancel, each times the sign of its row: a marked row has the sign -1. `columns` is the
/// transposed matrix. If there is none, the matrix is totally unimodular.
pub fn first_uncancelled(minus: &[bool], rows: &SparseMatrix, columns: &SparseMatrix) -> Option<u32>
    requires crossed { AreCrossed rows.now columns.now }
    requires count { length minus.now ≡ length rows.now.runs }
    ensures first { MatchOption result (AreSplitBy minus.now rows.now)
        (λ column. Cancels (sign_at minus.now) (run_of columns.now column) → ⊥) }
    ensures within { IfSome result (λ column. column < length columns.now.runs) }
{
    let _rows = rows.rows();
    for column in 0..columns.rows() {
        if !cancels(minus, columns.row(column)) {
            return Some(column);
        }
    }
    None
}

// Whether the column has at most one nonzero, or two that cancel.
fn cancels(minus: &[bool], column: &[Nonzero]) -> bool
    requires { AllByRecursion (IsNonzeroWithin (length minus.now)) column.now }
    ensures { IsTrue result ↔ Cancels (sign_at minus.now) column.now }
{
    match column {
        [] => true,
        [_] => true,
        [first, second] => {
            let are_alike = minus[first.line as usize] == minus[second.line as usize];
            if are_alike {
                first.value != second.value
            } else {
                first.value == second.value
            }
        }
        _ => false,
    }
}
