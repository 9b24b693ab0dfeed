ghost use Rattle.std.specs.Prelude.{◌≡◌, ◌≤◌, ◌≤ℤ◌, ◌<◌, pos, neg_ℤ, length};
ghost use Rattle.cmr_base.specs.LineSets.{AllBelow, submatrix_sum};
ghost use Rattle.cmr_base.specs.Matrix.{entry, height};
ghost use Rattle.cmr_base.specs.Sums.{sum_over};

use crate::{LineSet, MAX_COLUMNS, MAX_ROWS, Matrix};

impl Matrix {
    /// The sum of the entries of the submatrix on these lines.
    pub fn sum(&self, lines: &LineSet) -> i32
        requires rows { AllBelow (height self.now) lines.now.rows }
        requires columns { AllBelow self.now.width lines.now.columns }
        ensures { result ≡ submatrix_sum self.now lines.now.rows lines.now.columns }
    {
        let rows = lines.rows.as_slice();
        let columns = lines.columns.as_slice();
        prove!(rows.len() <= self.rows() as usize);
        prove!(columns.len() <= self.columns() as usize);
        self.sum_on(rows, columns)
    }

    /// The sum of the entries of the submatrix on these rows and columns.
    pub fn sum_on(&self, rows: &[u32], columns: &[u32]) -> i32
        requires rows { AllBelow (height self.now) rows.now }
        requires columns { AllBelow self.now.width columns.now }
        requires few_rows { length rows.now ≤ MAX_ROWS }
        requires few_columns { length columns.now ≤ MAX_COLUMNS }
        ensures { result ≡ submatrix_sum self.now rows.now columns.now }
    {
        let mut sum = 0i32;
        for row in rows {
            sum += self.row_sum(*row, columns);
        }
        sum
    }

    /// The sum of a row over the listed columns.
    pub fn row_sum(&self, row: u32, columns: &[u32]) -> i32
        requires row { row < height self.now }
        requires columns { AllBelow self.now.width columns.now }
        requires few { length columns.now ≤ MAX_COLUMNS }
        ensures sum { result ≡ sum_over columns.now (λ column. entry self.now row column) }
        ensures low { neg_ℤ (pos MAX_COLUMNS) ≤ℤ result }
        ensures high { result ≤ℤ pos MAX_COLUMNS }
    {
        let mut sum = 0i32;
        for column in columns {
            sum += i32::from(self.entry(row, *column));
        }
        sum
    }

    /// The sum of a column over the listed rows.
    pub fn column_sum(&self, rows: &[u32], column: u32) -> i32
        requires rows { AllBelow (height self.now) rows.now }
        requires column { column < self.now.width }
        requires few { length rows.now ≤ MAX_ROWS }
        ensures { result ≡ sum_over rows.now (λ row. entry self.now row column) }
    {
        let mut sum = 0i32;
        for row in rows {
            sum += i32::from(self.entry(*row, column));
        }
        sum
    }
}
