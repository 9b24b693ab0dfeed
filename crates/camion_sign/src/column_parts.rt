// Columns that the rows before a given row connect.
ghost use Rattle.std.specs.Prelude.{◌≡◌, ◌<◌, ◌+◌, ℕ, List, false, length, IfOk};
ghost use Rattle.cmr_base.specs.Matrix.{height, entry};
ghost use Rattle.cmr_base.specs.CyclePlaces.{IsPath};
ghost use Rattle.camion_sign.specs.ColumnParts.{HasPartsBefore};

use cmr_base::{Memory, RowsAndColumns, join_labels, own_labels};
use std::alloc::Global;

/// A label for each column. Columns that a path through rows before a given row connects have one label.
#[derive(Drop)]
pub struct ColumnParts {
    pub labels: Vec<u32>,
}

impl ColumnParts {
    /// A separate label for each column. No rows are before the first one.
    pub fn new(alloc: Global, columns: u32) -> Result<ColumnParts, Memory>
        ensures { IfOk result (λ parts. length parts.labels.items ≡ columns) }
    {
        Ok(ColumnParts {
            labels: own_labels(alloc, columns)?,
        })
    }

    /// Joins the columns in which a row is not 0.
    pub fn join_row(&mut self, matrix: &RowsAndColumns<'_>, row: u32)
        requires row { row < height matrix.now }
        requires parts { HasPartsBefore matrix.now row self.old }
        ensures { HasPartsBefore matrix.now (row + 1) self.new }
    {
        let rows = matrix.by_rows();
        let Some(first) = rows.next_nonzero(row, 0) else {
            return;
        };
        let kept = self.labels[first as usize];
        let mut from = first + 1;
        while let Some(column) = rows.next_nonzero(row, from) {
            let label = self.labels[column as usize];
            if label != kept {
                join_labels(&mut self.labels, label, kept);
            }
            from = column + 1;
        }
    }

    /// Whether two columns have one label. If not, no path connects them.
    pub fn are_joined(&self, matrix: &RowsAndColumns<'_>, row: u32, one: u32, other: u32) -> bool
        requires parts { HasPartsBefore matrix.now row self.now }
        requires one { one < matrix.now.width }
        requires other { other < matrix.now.width }
        ensures { result ≡ false
            → (path : List ℕ) → ¬ (IsPath (entry matrix.now) row one other path) }
    {
        self.labels[one as usize] == self.labels[other as usize]
    }
}
