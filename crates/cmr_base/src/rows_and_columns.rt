ghost use Rattle.std.specs.Prelude.{◌≡◌, ◌≢◌, ◌<◌, true, false, pos, IfOk};
ghost use Rattle.cmr_base.specs.LineSets.{AllBelow, submatrix};
ghost use Rattle.cmr_base.specs.Matrix.{height, entry, transposed, IsMatrix, IsEntry};

use crate::{LineSet, Matrix, Memory};
use std::alloc::Global;
use std::marker::Model;

/// A matrix with its transposed matrix, so that columns can be read a word at a time, as rows can. Contracts see the
/// matrix. Threads may share it.
#[derive(Drop)]
pub struct RowsAndColumns<'a> {
    rows: &'a Matrix,
    columns: &'a Matrix,
}

impl<'a> Model for RowsAndColumns<'a> {
    ghost use Rattle.cmr_base.specs.Matrix.{Matrix};

    ghost Value = { Matrix };

    ghost use Rattle.cmr_base.specs.BothViews.{matrix_of, AreTransposed};

    ghost view = { matrix_of };

    ghost invariant = { AreTransposed };
}

impl<'a> RowsAndColumns<'a> {
    /// A matrix by its rows and by its columns, which are the rows of its transposed matrix.
    pub fn of(rows: &'a Matrix, columns: &'a Matrix) -> RowsAndColumns<'a>
        requires { columns.now ≡ transposed rows.now }
        ensures { result ≡ rows.entry.now }
    {
        let _rows = rows.rows();
        RowsAndColumns { rows, columns }
    }

    /// The transposed matrix: its rows are the columns.
    pub fn transposed(&self) -> RowsAndColumns<'a>
        ensures { result ≡ transposed self.now }
    {
        let _rows = self.rows.rows();
        RowsAndColumns {
            rows: self.columns,
            columns: self.rows,
        }
    }

    /// The transposed submatrix on these lines. It is a submatrix of the columns, so that no matrix is transposed.
    pub fn transposed_part(&self, alloc: Global, lines: &LineSet) -> Result<Matrix, Memory>
        requires rows { AllBelow (height self.now) lines.now.rows }
        requires columns { AllBelow self.now.width lines.now.columns }
        ensures { IfOk result (λ columns. columns ≡ transposed (submatrix self.now lines.now.rows
            lines.now.columns)) }
    {
        self.columns.part_on(alloc, &lines.columns, &lines.rows)
    }

    /// The number of rows.
    pub fn rows(&self) -> u32
        ensures rows { result ≡ height self.now }
        ensures shape { IsMatrix self.now }
    {
        self.rows.rows()
    }

    /// The number of columns.
    pub fn columns(&self) -> u32
        ensures columns { result ≡ self.now.width }
        ensures shape { IsMatrix self.now }
    {
        self.rows.columns()
    }

    /// The entry in a row and a column.
    pub fn entry(&self, row: u32, column: u32) -> i8
        requires row { row < height self.now }
        requires column { column < self.now.width }
        ensures value { result ≡ entry self.now row column }
        ensures small { IsEntry result }
    {
        self.rows.entry(row, column)
    }

    /// Whether the entry in a row and a column is not 0.
    pub fn is_nonzero(&self, row: u32, column: u32) -> bool
        requires row { row < height self.now }
        requires column { column < self.now.width }
        ensures yes { result ≡ true → entry self.now row column ≢ pos 0 }
        ensures no { result ≡ false → entry self.now row column ≡ pos 0 }
    {
        self.rows.entry(row, column) != 0
    }

    /// The matrix by its rows.
    pub fn by_rows(&self) -> &Matrix
        ensures matrix { result.now ≡ self.now }
        ensures shape { IsMatrix self.now }
    {
        let _rows = self.rows.rows();
        self.rows
    }

    /// The matrix by its columns.
    pub fn by_columns(&self) -> &Matrix
        ensures matrix { result.now ≡ transposed self.now }
        ensures shape { IsMatrix self.now }
    {
        let _rows = self.rows.rows();
        self.columns
    }
}

fn is_shared<T: Send + Sync>(_value: &T) {}

// This function proves that threads may share both.
fn both_are_shared(both: &RowsAndColumns<'_>) {
    is_shared(both);
}
