// The lines on the sides of a separation.
ghost use Rattle.std.specs.Prelude.{◌≡◌, IfOk};
ghost use Rattle.cmr_base.specs.Matrix.{IsMatrix};
ghost use Rattle.compose.specs.Arrangements.{sides_of};

use crate::OrderList;
use crate::line_lists::lines_on;
use cmr_base::{LineSet, Matrix, Memory};
use std::alloc::Global;

/// The rows and columns of both sides, each list increasing.
#[derive(Debug, Drop)]
pub struct Sides {
    pub rows_one: OrderList,
    pub columns_one: OrderList,
    pub rows_two: OrderList,
    pub columns_two: OrderList,
}

impl Sides {
    /// Gives side one the lines of the set, and side two the other lines.
    pub fn of(alloc: Global, matrix: &Matrix, one: &LineSet) -> Result<Sides, Memory>
        ensures sides { IfOk result (λ sides. sides ≡ sides_of matrix.now one.now) }
        ensures shape { IfOk result (λ _. IsMatrix matrix.now) }
    {
        let all = LineSet::all(alloc, matrix.rows(), matrix.columns())?;
        let rows = all.rows.as_slice();
        let columns = all.columns.as_slice();
        Ok(Sides {
            rows_one: lines_on(alloc, true, one.rows.as_slice(), rows)?,
            columns_one: lines_on(alloc, true, one.columns.as_slice(), columns)?,
            rows_two: lines_on(alloc, false, one.rows.as_slice(), rows)?,
            columns_two: lines_on(alloc, false, one.columns.as_slice(), columns)?,
        })
    }
}
