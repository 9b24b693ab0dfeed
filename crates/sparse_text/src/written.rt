// Entries that are written into a matrix.
ghost use Rattle.std.specs.Prelude.{◌≡◌, ◌<◌, pos, length, OnOk};
ghost use Rattle.cmr_base.specs.Matrix.{IsEntry};
ghost use Rattle.sparse_matrix.specs.SparseRows.{sparse_entry};
ghost use Rattle.sparse_text.specs.WrittenEntries.{HasNewEntry, with_value};

use cmr_base::Memory;
use sparse_matrix::SparseMatrix;

/// Writes an entry at a position with the entry 0.
pub fn write_entry(
    matrix: &mut SparseMatrix,
    row: u32,
    column: u32,
    value: i8,
) -> Result<(), Memory>
    requires row { row < length matrix.old.runs }
    requires column { column < matrix.old.width }
    requires value { IsEntry value }
    requires free { sparse_entry matrix.old row column ≡ pos 0 }
    ensures entry { OnOk result (HasNewEntry row column value matrix.old matrix.new) }
    ensures matrix { OnOk result (matrix.new ≡ with_value matrix.old row column value) }
{
    let _rows = matrix.rows();
    if value != 0 {
        matrix.push(row, column, value)?;
    }
    Ok(())
}
