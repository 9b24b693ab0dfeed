// Which positions of a sparse text are named: those of the first nonzeros of the rows, and others. So short rows, as most
// rows are, need no set.
ghost use Rattle.std.specs.Prelude.{◌≡◌, ◌<◌, ◌+◌, ◌*◌, ◌^◌, ◌&&◌, nat_lt, pos, length, take, OnOk};
ghost use Rattle.cmr_base.specs.Matrix.{IsEntry, is_nonzero};
ghost use Rattle.sparse_matrix.specs.SparseRows.{AreSparseRows, run_of, sparse_entry, value_in};
ghost use Rattle.sparse_text.specs.NamedPositions.{HasNewPosition, has_position};
ghost use Rattle.sparse_text.specs.WrittenEntries.{HasNewEntry};
ghost use Rattle.sparse_text.specs.declared.named.TheConstants.{SCANNED};

use crate::written::write_entry;
use cmr_base::Memory;
use sparse_matrix::{Nonzero, SparseMatrix};
use std::collections::BTreeSet;

/// The number of nonzeros of a row that a search reads one after another.
const SCANNED: usize = 16;

/// Whether a position is named.
pub fn is_named(matrix: &SparseMatrix, others: &BTreeSet<u64>, row: u32, column: u32) -> bool
    requires { row < length matrix.now.runs }
    ensures { result ≡ has_position matrix.now others.now row column }
{
    has_nonzero(first_nonzeros(matrix.row(row)), column) || others.contains(&number_of(row, column))
}

/// Names a position, and writes its value.
pub fn write_named(
    matrix: &mut SparseMatrix,
    others: &mut BTreeSet<u64>,
    row: u32,
    column: u32,
    value: i8,
) -> Result<(), Memory>
    requires row { row < length matrix.old.runs }
    requires column { column < matrix.old.width }
    requires value { IsEntry value }
    requires free { sparse_entry matrix.old row column ≡ pos 0 }
    ensures entry { OnOk result (HasNewEntry row column value matrix.old matrix.new) }
    ensures named { OnOk result (HasNewPosition row column matrix.old others.old matrix.new
        others.new) }
{
    if is_among_first(matrix, row, value) {
        return write_entry(matrix, row, column, value);
    }
    others.insert(number_of(row, column))?;
    write_entry(matrix, row, column, value)
}

// Whether a value that is written now is one of the first nonzeros of its row.
fn is_among_first(matrix: &SparseMatrix, row: u32, value: i8) -> bool
    requires { row < length matrix.now.runs }
    ensures answer { result
        ≡ (is_nonzero value && nat_lt (length (run_of matrix.now row)) SCANNED) }
    ensures shape { AreSparseRows matrix.now }
{
    let run = matrix.row(row);
    value != 0 && run.len() < SCANNED
}

// The number of a position in the set.
fn number_of(row: u32, column: u32) -> u64
    ensures { result ≡ row * 2 ^ 32 + column }
{
    (u64::from(row) << 32) + u64::from(column)
}

// The nonzeros that a search reads.
fn first_nonzeros(run: &[Nonzero]) -> &[Nonzero]
    ensures { result.now ≡ take SCANNED run.now }
{
    &run[..run.len().min(SCANNED)]
}

// Whether the entry in a column is a nonzero.
fn has_nonzero(run: &[Nonzero], column: u32) -> bool
    ensures { result ≡ is_nonzero (value_in run.now column) }
{
    for nonzero in run {
        if nonzero.line == column {
            return nonzero.value != 0;
        }
    }
    false
}
