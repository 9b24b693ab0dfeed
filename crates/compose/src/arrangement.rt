ghost use Rattle.std.specs.Prelude.{◌≡◌, IfOk};
ghost use Rattle.compose.specs.Arrangements.{HasSignedLines, arranged};

use crate::signed_line::{SignedLineList, signed_submatrix};
use cmr_base::{ItemList, Matrix, Memory};
use std::alloc::Global;

/// Rows or columns, in an order.
pub type OrderList = ItemList<u32>;

/// Two matrices whose sum is a matrix with its rows and columns in an order.
#[derive(Debug, Drop)]
pub struct Arranged {
    pub first: Matrix,
    pub second: Matrix,
    pub rows: OrderList,
    pub columns: OrderList,
}

/// The lines of the two submatrices of a matrix, and an order of the lines of the matrix.
#[derive(Debug, Drop)]
pub struct Arrangement {
    pub first_rows: SignedLineList,
    pub first_columns: SignedLineList,
    pub second_rows: SignedLineList,
    pub second_columns: SignedLineList,
    pub rows: OrderList,
    pub columns: OrderList,
}

impl Arrangement {
    /// Makes the two matrices, with the order.
    pub fn of(self, alloc: Global, matrix: &Matrix) -> Result<Arranged, Memory>
        requires { HasSignedLines matrix.now self }
        ensures { IfOk result (λ both. both ≡ arranged matrix.now self) }
    {
        let first = signed_submatrix(
            alloc,
            matrix,
            self.first_rows.as_slice(),
            self.first_columns.as_slice(),
        )?;
        let second = signed_submatrix(
            alloc,
            matrix,
            self.second_rows.as_slice(),
            self.second_columns.as_slice(),
        )?;
        Ok(Arranged {
            first,
            second,
            rows: self.rows,
            columns: self.columns,
        })
    }
}
