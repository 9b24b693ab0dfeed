// Matrices of four blocks.
ghost use Rattle.std.specs.Prelude.{◌≡◌, ◌<◌, ◌≤◌, ◌+◌, ◌-◌, ◌++◌, map, IfOk, OnOk};
ghost use Rattle.cmr_base.specs.LineSets.{first_lines};
ghost use Rattle.cmr_base.specs.Matrix.{height, IsEntry, HasTernaryEntries, IsMatrix};
ghost use Rattle.cmr_base.specs.MatrixSums.{filled};
ghost use Rattle.sum_ops.specs.Plans.{FitsPlan, entries_of, lower_entry, rows_of_sum, columns_of};

use crate::spread::Spread;
use cmr_base::{MAX_COLUMNS, MAX_ROWS, Matrix, Memory, product};
use std::alloc::Global;

/// The block below the first matrix: zero, the product of column 0 of the second matrix with the next row of the
/// first matrix, or a block made from two columns and two rows.
#[derive(Clone, Copy, Debug)]
pub enum LowerBlock {
    Zero,
    Product,
    Spread(Spread),
}

/// The blocks of a sum: the first `rows` rows and `columns` columns of the first matrix, and the second matrix from
/// row `up` and column `left` on. The upper block is zero, or, if `upper` is true, the product of the next column of
/// the first matrix with row 0 of the second matrix.
#[derive(Clone, Copy, Debug)]
pub struct Plan {
    pub rows: u32,
    pub columns: u32,
    pub up: u32,
    pub left: u32,
    pub upper: bool,
    pub lower: LowerBlock,
}

impl Plan {
    /// Makes the matrix of the four blocks.
    pub fn sum(self, alloc: Global, first: &Matrix, second: &Matrix) -> Result<Matrix, Memory>
        requires fits { FitsPlan self first.now second.now }
        requires rows { rows_of_sum self second.now ≤ MAX_ROWS }
        requires columns { columns_of self second.now ≤ MAX_COLUMNS }
        ensures blocks { IfOk result (λ sum. sum ≡ filled (rows_of_sum self second.now)
            (columns_of self second.now) (entries_of self first.now second.now)) }
        ensures small { IfOk result HasTernaryEntries }
    {
        let rows = self.rows + (second.rows() - self.up);
        let columns = self.columns + (second.columns() - self.left);
        let mut cells = Vec::with_capacity(alloc, rows as usize * columns as usize)?;
        for row in 0..rows {
            self.push_row(first, second, row, columns, &mut cells)?;
        }
        Matrix::from_cells(alloc, rows, columns, &cells)
    }

    fn push_row(
        self,
        first: &Matrix,
        second: &Matrix,
        row: u32,
        columns: u32,
        cells: &mut Vec<i8>,
    ) -> Result<(), Memory>
        requires fits { FitsPlan self first.now second.now }
        requires second { IsMatrix second.now }
        requires row { row < rows_of_sum self second.now }
        requires columns { columns ≡ columns_of self second.now }
        ensures { OnOk result (cells.new.items
            ≡ cells.old.items
            ++ map (entries_of self first.now second.now row) (first_lines columns)) }
    {
        for column in 0..columns {
            cells.push(self.entry(first, second, row, column))?;
        }
        Ok(())
    }

    fn entry(self, first: &Matrix, second: &Matrix, row: u32, column: u32) -> i8
        requires fits { FitsPlan self first.now second.now }
        requires second { IsMatrix second.now }
        requires row { row < rows_of_sum self second.now }
        requires column { column < columns_of self second.now }
        ensures value { result ≡ entries_of self first.now second.now row column }
        ensures small { IsEntry result }
    {
        if row < self.rows {
            if column < self.columns {
                first.entry(row, column)
            } else if self.upper {
                product(
                    first.entry(row, self.columns),
                    second.entry(0, self.left + (column - self.columns)),
                )
            } else {
                0
            }
        } else if column >= self.columns {
            second.entry(
                self.up + (row - self.rows),
                self.left + (column - self.columns),
            )
        } else {
            self.lower_entry(first, second, self.up + (row - self.rows), column)
        }
    }

    fn lower_entry(self, first: &Matrix, second: &Matrix, row: u32, column: u32) -> i8
        requires fits { FitsPlan self first.now second.now }
        requires second { IsMatrix second.now }
        requires from { self.up ≤ row }
        requires row { row < height second.now }
        requires column { column < self.columns }
        ensures value { result ≡ lower_entry self.lower self.rows first.now second.now row column }
        ensures small { IsEntry result }
    {
        match self.lower {
            LowerBlock::Zero => 0,
            LowerBlock::Product => product(second.entry(row, 0), first.entry(self.rows, column)),
            LowerBlock::Spread(spread) => spread.entry(first, second, row, column),
        }
    }
}
