// Rows among the rows in which a column is not 0.
ghost use Rattle.std.specs.Prelude.{◌≡◌, ◌<◌, ◌≤◌, IfSome, MatchOption};
ghost use Rattle.cmr_base.specs.ColumnSets.{has_column};
ghost use Rattle.three_sep.specs.Independent.{IsNewRow};

use cmr_base::{BitSet, MAX_ROWS, RowsAndColumns, columns_of};

/// The first row that is not 0 in column j and in some column of a set, from a given row on.
pub fn new_row(matrix: &RowsAndColumns<'_>, set: &BitSet, j: u32, from: u32) -> Option<u32>
    requires column { j < matrix.now.width }
    requires set { set.now.size ≡ matrix.now.width }
    requires from { from ≤ MAX_ROWS }
    ensures new { MatchOption result (Unit {0}) (IsNewRow matrix.now j (has_column set.now.words)) }
    ensures small { IfSome result (λ row. row < MAX_ROWS) }
{
    let mut next = from;
    while let Some(row) = matrix.by_columns().next_nonzero(j, next) {
        if set.meets_words(columns_of(matrix.by_rows(), row)) {
            return Some(row);
        }
        next = row + 1;
    }
    None
}
