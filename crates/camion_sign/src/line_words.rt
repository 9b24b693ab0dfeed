// The nonzeros of a row and of a column, as words.
ghost use Rattle.std.specs.Prelude.{◌≡◌, ◌<◌, ℕ};
ghost use Rattle.cmr_base.specs.BitSets.{AreWordsOf};
ghost use Rattle.cmr_base.specs.ColumnSets.{has_column};
ghost use Rattle.cmr_base.specs.Matrix.{height};
ghost use Rattle.cmr_base.specs.Trees.{support};

use cmr_base::{RowsAndColumns, columns_of};

/// The columns in which a row is not 0.
pub fn row_words<'a>(matrix: &'a RowsAndColumns<'_>, row: u32) -> &'a [u64]
    requires { row < height matrix.now }
    ensures columns { (column : ℕ)
        → has_column result.now column ≡ support matrix.now row column }
    ensures whole { AreWordsOf matrix.now.width result.now }
{
    columns_of(matrix.by_rows(), row)
}

/// The rows in which a column is not 0.
pub fn column_words<'a>(matrix: &'a RowsAndColumns<'_>, column: u32) -> &'a [u64]
    requires { column < matrix.now.width }
    ensures rows { (row : ℕ) → has_column result.now row ≡ support matrix.now row column }
    ensures whole { AreWordsOf (height matrix.now) result.now }
{
    columns_of(matrix.by_columns(), column)
}
