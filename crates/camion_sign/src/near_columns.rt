// First columns of a row that have no fault, because each later column of the row shares an earlier row with them.
ghost use Rattle.std.specs.Prelude.{◌≡◌, ◌<◌, ◌≤◌, ◌+◌, ℕ, IfOk, IsTrue};
ghost use Rattle.cmr_base.specs.Matrix.{height, IsMatrix};
ghost use Rattle.cmr_base.specs.ColumnSets.{has_column};
ghost use Rattle.camion_sign.specs.FaultLines.{HasNoFaultAt};
ghost use Rattle.camion_sign.specs.NearColumns.{AllShareEarlier, AreWaiting, HasNearRoom, KnowsNear};
ghost use Rattle.camion_sign.specs.RowSigns.{AgreesBefore};

use crate::line_words::row_words;
use crate::reach::{Start, is_touched};
use crate::row_signs::agrees_with_earlier;
use cmr_base::columns::count_columns;
use cmr_base::{BitSet, MAX_COLUMNS, Memory, RowsAndColumns};
use std::alloc::Global;

// Rows with fewer nonzeros are not compared with the rows before them: their walks are few.
const MANY: u32 = 8;

/// What is known of a row without walks. If the row agrees with each earlier row up to a sign, then no two columns that share
/// an earlier row have a fault in it.
#[derive(Drop)]
pub struct NearColumns {
    // Whether the row agrees with each earlier row, up to the sign of the row.
    agrees: bool,
    /// The later columns of the row that some earlier row meets.
    pub waiting: BitSet,
    // The columns that share an earlier row with a column.
    near: BitSet,
}

impl NearColumns {
    /// Room for the rows of a matrix with `columns` columns.
    pub fn new(alloc: Global, columns: u32) -> Result<NearColumns, Memory>
        requires { columns ≤ MAX_COLUMNS }
        ensures waiting { IfOk result (λ sets. sets.waiting.size ≡ columns) }
        ensures near { IfOk result (λ sets. sets.near.size ≡ columns) }
    {
        Ok(NearColumns {
            agrees: false,
            waiting: BitSet::new(alloc, columns)?,
            near: BitSet::new(alloc, columns)?,
        })
    }

    /// Begins a row. All its columns are later columns.
    pub fn begin(&mut self, matrix: &RowsAndColumns<'_>, row: u32)
        requires row { row < height matrix.now }
        requires room { HasNearRoom matrix.now self.old }
        ensures { KnowsNear matrix.now row 0 self.new }
    {
        let agrees = agrees_if_many(matrix, row);
        self.agrees = agrees;
        self.waiting.clear();
        add_touched(matrix, row, &mut self.waiting);
    }

    /// Whether it is known that no last column has a fault with this first column. If not, a walk decides it. The columns
    /// after the first are the later columns from now on.
    pub fn has_no_fault(&mut self, matrix: &RowsAndColumns<'_>, start: Start) -> bool
        requires row { start.row < height matrix.now }
        requires column { start.column < matrix.now.width }
        requires knows { KnowsNear matrix.now start.row start.column self.old }
        ensures none { IsTrue result
            → (y : ℕ) → HasNoFaultAt matrix.now start.row start.column y }
        ensures knows { KnowsNear matrix.now start.row (start.column + 1) self.new }
    {
        self.waiting.remove(start.column);
        self.agrees && are_near(matrix, start, &self.waiting, &mut self.near)
    }
}

// Whether a row with many nonzeros agrees with each earlier row, up to the sign of the row.
fn agrees_if_many(matrix: &RowsAndColumns<'_>, row: u32) -> bool
    requires row { row < height matrix.now }
    requires shape { IsMatrix matrix.now }
    ensures { IsTrue result → AgreesBefore matrix.now row }
{
    if count_columns(row_words(matrix, row)) < MANY {
        return false;
    }
    agrees_with_earlier(matrix.by_rows(), row)
}

// Adds the columns of a row that some earlier row meets.
fn add_touched(matrix: &RowsAndColumns<'_>, row: u32, columns: &mut BitSet)
    requires row { row < height matrix.now }
    requires shape { IsMatrix matrix.now }
    requires size { columns.old.size ≡ matrix.now.width }
    ensures size { columns.new.size ≡ columns.old.size }
    ensures waits { AreWaiting matrix.now row 0 (has_column columns.new.words) }
{
    let mut from = 0;
    while let Some(column) = matrix.by_rows().next_nonzero(row, from) {
        if is_touched(matrix, row, column) {
            columns.insert(column);
        }
        from = column + 1;
    }
}

// Whether each waiting column shares an earlier row with the first column. `near` is memory for the columns of these rows.
fn are_near(matrix: &RowsAndColumns<'_>, start: Start, waiting: &BitSet, near: &mut BitSet) -> bool
    requires row { start.row < height matrix.now }
    requires column { start.column < matrix.now.width }
    requires shape { IsMatrix matrix.now }
    requires waiting { waiting.now.size ≡ matrix.now.width }
    requires size { near.old.size ≡ matrix.now.width }
    ensures near { IsTrue result
        → AllShareEarlier matrix.now start.row start.column (has_column waiting.now.words) }
    ensures size { near.new.size ≡ near.old.size }
{
    near.clear();
    if waiting.is_empty() {
        return true;
    }
    let mut from = 0;
    while let Some(row) = matrix.by_columns().next_nonzero(start.column, from) {
        if row >= start.row {
            return false;
        }
        near.add_words(row_words(matrix, row));
        if waiting.is_within(near) {
            return true;
        }
        from = row + 1;
    }
    false
}
