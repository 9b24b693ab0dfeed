// Whether the nonzeros of each row are consecutive and equal.
ghost use Rattle.std.specs.Prelude.{◌≡◌, ◌<◌, ◌≤◌, ◌↔◌, ℕ, IsTrue, length};
ghost use Rattle.std.specs.List.{AllByRecursion};
ghost use Rattle.cmr_base.specs.Signing.{IsSign};
ghost use Rattle.sparse_matrix.specs.SparseRows.{AreInDistinctLines, matrix_of_runs, value_in};
ghost use Rattle.interval_matrices.specs.Intervals.{HasIntervalRows, IsInterval};
ghost use Rattle.interval_matrices.specs.IntervalRuns.{AreCountedFrom, IsFirstLine, nonzero_at};

use sparse_matrix::{Nonzero, SparseMatrix};

// The least line of the nonzeros.
fn first_line(run: &[Nonzero]) -> u32
    requires { 0 < length run.now }
    ensures { IsFirstLine run.now result }
{
    let mut first = run[0].line;
    for nonzero in run {
        if nonzero.line < first {
            first = nonzero.line;
        }
    }
    first
}

// Whether the nonzeros have this value, in lines from the first on of which there are as many as nonzeros.
fn are_counted(run: &[Nonzero], first: u32, value: i8) -> bool
    requires { (k : ℕ) → k < length run.now → first ≤ (nonzero_at run.now k).line }
    ensures { IsTrue result ↔ AreCountedFrom first value run.now }
{
    for nonzero in run {
        if nonzero.value != value || (nonzero.line - first) as usize >= run.len() {
            return false;
        }
    }
    true
}

// Whether the nonzeros are consecutive and equal.
fn is_interval(run: &[Nonzero]) -> bool
    requires signs { AllByRecursion (λ x. IsSign x.value) run.now }
    requires distinct { AreInDistinctLines run.now }
    ensures { IsTrue result ↔ IsInterval (value_in run.now) }
{
    if run.is_empty() {
        return true;
    }
    are_counted(run, first_line(run), run[0].value)
}

/// Whether the nonzeros of each row are consecutive and equal.
pub fn has_interval_rows(matrix: &SparseMatrix) -> bool
    ensures { IsTrue result ↔ HasIntervalRows (matrix_of_runs matrix.now) }
{
    for row in 0..matrix.rows() {
        if !is_interval(matrix.row(row)) {
            return false;
        }
    }
    true
}
