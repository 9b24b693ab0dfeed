// Decides whether a matrix with a short side has no violator.
ghost use Rattle.std.specs.Prelude.{◌≤◌, ◌↔◌, min, IfOk, IsTrue};
ghost use Rattle.cmr_base.specs.Matrix.{height, IsMatrix};
ghost use Rattle.cmr_base.specs.Violator.{HasNoViolator};

use cmr_base::{MAX_LINES, Matrix, Memory, set_count, write_set};
use parity::ColumnSearch;
use std::alloc::Global;

/// Whether no submatrix is a violator. The check tries all sets of lines of the shorter side.
pub fn is_clean(alloc: Global, matrix: &Matrix) -> Result<bool, Memory>
    requires { min (height matrix.now) matrix.now.width ≤ MAX_LINES }
    ensures { IfOk result (λ yes. IsTrue yes ↔ HasNoViolator matrix.now) }
{
    if matrix.rows() <= matrix.columns() {
        is_clean_by_rows(alloc, matrix)
    } else {
        is_clean_by_columns(alloc, matrix)
    }
}

fn is_clean_by_columns(alloc: Global, matrix: &Matrix) -> Result<bool, Memory>
    requires few { matrix.now.width ≤ MAX_LINES }
    requires shape { IsMatrix matrix.now }
    ensures { IfOk result (λ yes. IsTrue yes ↔ HasNoViolator matrix.now) }
{
    let columns = matrix.transposed(alloc)?;
    is_clean_by_rows(alloc, &columns)
}

fn is_clean_by_rows(alloc: Global, matrix: &Matrix) -> Result<bool, Memory>
    requires { height matrix.now ≤ MAX_LINES }
    ensures { IfOk result (λ yes. IsTrue yes ↔ HasNoViolator matrix.now) }
{
    let count = matrix.rows();
    let mut search = ColumnSearch::new(alloc, matrix)?;
    let mut set = Vec::with_capacity(alloc, count as usize)?;
    for number in 0..set_count(count) {
        write_set(&mut set, count, number)?;
        if search.has(&set)? {
            return Ok(false);
        }
    }
    Ok(true)
}
