ghost use Rattle.std.specs.Prelude.{◌≡◌, IfOk};
ghost use Rattle.cmr_base.specs.LineSets.{IsRowSet, set_numbered};
ghost use Rattle.cmr_base.specs.Matrix.{height};

use cmr_base::{Indices, Matrix, Memory};
use std::alloc::Global;

/// Gives the row set with a number: it contains row r if and only if the number has the bit 2^r.
pub fn row_set(alloc: Global, matrix: &Matrix, number: u64) -> Result<Indices, Memory>
    ensures numbered { IfOk result (λ rows. rows ≡ set_numbered (height matrix.now) 0 number) }
    ensures row_set { IfOk result (IsRowSet matrix.now) }
{
    Indices::numbered(alloc, matrix.rows(), number)
}
