// The test for a column with three nonzeros in given rows.
ghost use Rattle.std.specs.Prelude.{IfOk};
ghost use Rattle.cmr_base.specs.LineSets.{AllBelow};
ghost use Rattle.cmr_base.specs.Matrix.{height};
ghost use Rattle.cmr_base.specs.Splits.{HasNoThree};
ghost use Rattle.cmr_base.specs.Trees.{support};
ghost use Rattle.cmr_base.specs.ColumnSets.{Denies};

use cmr_base::{BitSet, Indices, Matrix, Memory, columns_of};
use std::alloc::Global;

/// Whether some column has three nonzeros or more in these rows. The loop stops at the first row that contains the third
/// nonzero of a column.
pub fn has_column_with_three(alloc: Global, matrix: &Matrix, rows: &Indices) -> Result<bool, Memory>
    requires { AllBelow (height matrix.now) rows.now }
    ensures { IfOk result (λ yes. Denies yes (HasNoThree (support matrix.now) rows.now)) }
{
    let mut once = BitSet::new(alloc, matrix.columns())?;
    let mut twice = BitSet::new(alloc, matrix.columns())?;
    for row in rows.as_slice() {
        let columns = columns_of(matrix, *row);
        if twice.meets_words(columns) {
            return Ok(true);
        }
        twice.add_common_words(&once, columns);
        once.add_words(columns);
    }
    Ok(false)
}
