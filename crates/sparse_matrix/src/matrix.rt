// A matrix of any size by the nonzeros of its rows.
ghost use Rattle.std.specs.Prelude.{◌≡◌, ◌<◌, ◌≤◌, ℕ, pos, IfOk, OnOk, [], length, replicate};
ghost use Rattle.std.specs.List.{AllByRecursion};
ghost use Rattle.cmr_base.specs.Signing.{IsSign};
ghost use Rattle.sparse_matrix.specs.SparseRows.{AreCrossed, AreInDistinctLines, AreSparseRows, IsNonzeroWithin, SparseRows, run_of, sparse_entry, value_in, with_nonzero};
ghost use Rattle.sparse_matrix.specs.PartTransposed.{IsTransposedTo};
ghost use Rattle.sparse_matrix.specs.declared.nonzero.TheConstants.{MAX_SPARSE_LINES};

use crate::nonzero::{MAX_SPARSE_LINES, Nonzero};
use cmr_base::{ItemList, Memory};
use std::alloc::Global;
use std::marker::Model;

/// A matrix by the nonzeros of its rows.
#[derive(Debug, Drop)]
pub struct SparseMatrix {
    runs: Vec<ItemList<Nonzero>>,
    columns: u32,
}

impl Model for SparseMatrix {
    ghost use Rattle.sparse_matrix.specs.SparseRows.{SparseRows};
    ghost use Rattle.sparse_matrix.specs.SparseLayout.{sparse_rows_of, AreRows};

    ghost Value = { SparseRows };

    ghost view = { sparse_rows_of };

    ghost invariant = { AreRows };
}

impl SparseMatrix {
    /// The zero matrix.
    pub fn zero(alloc: Global, rows: u32, columns: u32) -> Result<SparseMatrix, Memory>
        requires rows { rows ≤ MAX_SPARSE_LINES }
        requires columns { columns ≤ MAX_SPARSE_LINES }
        ensures { IfOk result (λ m. m ≡ record { runs = replicate rows []; width = columns }) }
    {
        let mut runs = Vec::with_capacity(alloc, rows as usize)?;
        for _ in 0..rows {
            runs.push(ItemList::new(alloc))?;
        }
        Ok(SparseMatrix { runs, columns })
    }

    /// The number of rows.
    pub fn rows(&self) -> u32
        ensures rows { result ≡ length self.now.runs }
        ensures shape { AreSparseRows self.now }
    {
        self.runs.len() as u32
    }

    /// The number of columns.
    pub fn columns(&self) -> u32
        ensures columns { result ≡ self.now.width }
        ensures shape { AreSparseRows self.now }
    {
        self.columns
    }

    /// The nonzeros of a row.
    pub fn row(&self, row: u32) -> &[Nonzero]
        requires { row < length self.now.runs }
        ensures run { result.now ≡ run_of self.now row }
        ensures shape { AreSparseRows self.now }
    {
        self.runs[row as usize].as_slice()
    }

    /// An entry. It reads the nonzeros of the row up to it.
    pub fn entry(&self, row: u32, column: u32) -> i8
        requires { row < length self.now.runs }
        ensures { result ≡ sparse_entry self.now row column }
    {
        value_in_run(self.row(row), column)
    }

    /// Writes a nonzero after the last nonzero of a row.
    pub fn push(&mut self, row: u32, column: u32, value: i8) -> Result<(), Memory>
        requires row { row < length self.old.runs }
        requires column { column < self.old.width }
        requires value { IsSign value }
        requires free { sparse_entry self.old row column ≡ pos 0 }
        ensures { OnOk result (self.new
            ≡ with_nonzero self.old row (record { line = column; value = value })) }
    {
        self.runs[row as usize].push(Nonzero {
            line: column,
            value,
        })?;
        Ok(())
    }

    /// The transposed matrix. The nonzeros of each of its rows are in order.
    pub fn transposed(&self, alloc: Global) -> Result<SparseMatrix, Memory>
        ensures { IfOk result (AreCrossed self.now) }
    {
        let rows = self.rows();
        let mut other = SparseMatrix::zero(alloc, self.columns(), rows)?;
        for row in 0..rows {
            push_row(&mut other, row, self.row(row))?;
        }
        Ok(other)
    }
}

// The value in a column.
fn value_in_run(run: &[Nonzero], column: u32) -> i8
    ensures { result ≡ value_in run.now column }
{
    for nonzero in run {
        if nonzero.line == column {
            return nonzero.value;
        }
    }
    0
}

// Writes the nonzeros of a row as a column.
fn push_row(other: &mut SparseMatrix, row: u32, run: &[Nonzero]) -> Result<(), Memory>
    requires row { row < other.old.width }
    requires run { AllByRecursion (IsNonzeroWithin (length other.old.runs)) run.now }
    requires distinct { AreInDistinctLines run.now }
    requires free { (column : ℕ) → sparse_entry other.old column row ≡ pos 0 }
    ensures size { OnOk result (length other.new.runs ≡ length other.old.runs) }
    ensures width { OnOk result (other.new.width ≡ other.old.width) }
    ensures written { OnOk result ((m : SparseRows) → IsTransposedTo m row [] other.old
        → IsTransposedTo m row run.now other.new) }
{
    for nonzero in run {
        let _rows = other.rows();
        other.push(nonzero.line, row, nonzero.value)?;
    }
    Ok(())
}
