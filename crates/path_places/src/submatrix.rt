// Some rows and some columns of a matrix, and where they cross in a nonzero.
ghost use Rattle.std.specs.Prelude.{◌≡◌};
ghost use Rattle.cmr_base.specs.Matrix.{height, IsMatrix};

use cmr_base::{BitSet, Matrix, Memory, Position, columns_of};
use std::alloc::Global;

/// Some rows and some columns of a matrix.
#[derive(Clone, Copy)]
pub struct Submatrix<'a> {
    pub matrix: &'a Matrix,
    pub rows: &'a BitSet,
    pub columns: &'a BitSet,
    ghost shape: { IsMatrix matrix.now },
    ghost rows_fit: { rows.now.size ≡ height matrix.now },
    ghost columns_fit: { columns.now.size ≡ matrix.now.width },
}

impl<'a> Submatrix<'a> {
    ghost use Rattle.std.specs.Prelude.{◌≡◌, ◌<◌, ◌↔◌, ℕ, true, IfOk, IsTrue, MatchOption};
    ghost use Rattle.cmr_base.specs.ColumnSets.{has_column};
    ghost use Rattle.cmr_base.specs.Matrix.{height};
    ghost use Rattle.path_places.specs.Submatrices.{IsFirstInRow, IsFirstNonzero, IsMeetingColumn, IsMeetingRow, IsNonzeroAmong, IsZeroAmong};
    ghost use Rattle.path_places.specs.SubmatrixFields.{view_of};

    /// The rows that are not 0 in some of the columns.
    pub fn meeting_rows(&self, alloc: Global) -> Result<BitSet, Memory>
        ensures size { IfOk result (λ set. set.size ≡ height self.now.matrix.now) }
        ensures only { IfOk result (λ set. (r : ℕ) → has_column set.words r ≡ true
            → IsMeetingRow (view_of self.now) r) }
        ensures all { IfOk result (λ set. (r : ℕ) → IsMeetingRow (view_of self.now) r
            → has_column set.words r ≡ true) }
    {
        let mut set = BitSet::new(alloc, self.matrix.rows())?;
        for row in 0..self.matrix.rows() {
            if self.is_meeting(row) {
                set.insert(row);
            }
        }
        Ok(set)
    }

    // Whether a row is among the rows and not 0 in some of the columns.
    fn is_meeting(&self, row: u32) -> bool
        requires { row < height self.now.matrix.now }
        ensures { IsTrue result ↔ IsMeetingRow (view_of self.now) row }
    {
        self.rows.has(row) && self.columns.meets_words(columns_of(self.matrix, row))
    }

    /// The columns that are not 0 in some of the rows.
    pub fn meeting_columns(&self, alloc: Global) -> Result<BitSet, Memory>
        ensures size { IfOk result (λ set. set.size ≡ self.now.matrix.now.width) }
        ensures only { IfOk result (λ set. (c : ℕ) → has_column set.words c ≡ true
            → IsMeetingColumn (view_of self.now) c) }
        ensures all { IfOk result (λ set. (c : ℕ) → IsMeetingColumn (view_of self.now) c
            → has_column set.words c ≡ true) }
    {
        let mut set = BitSet::new(alloc, self.matrix.columns())?;
        for row in 0..self.matrix.rows() {
            if self.rows.has(row) {
                set.add_common_words(self.columns, columns_of(self.matrix, row));
            }
        }
        Ok(set)
    }

    /// The first nonzero, by rows and then by columns.
    pub fn first_nonzero(&self) -> Option<Position>
        ensures { MatchOption result
            ((i j : ℕ) → ¬ (IsNonzeroAmong (view_of self.now) i j))
            (λ place. IsFirstNonzero (view_of self.now) place.row place.column) }
    {
        for row in 0..self.matrix.rows() {
            if let Some(column) = self.first_in_row(row) {
                return Some(Position { row, column });
            }
        }
        None
    }

    // The first nonzero of a row.
    fn first_in_row(&self, row: u32) -> Option<u32>
        requires { row < height self.now.matrix.now }
        ensures { MatchOption result
            ((j : ℕ) → ¬ (IsNonzeroAmong (view_of self.now) row j))
            (IsFirstInRow (view_of self.now) row) }
    {
        if !self.rows.has(row) {
            return None;
        }
        for column in 0..self.matrix.columns() {
            if self.columns.has(column) && self.matrix.is_nonzero(row, column) {
                return Some(column);
            }
        }
        None
    }

    /// Whether some entry is 0.
    pub fn has_zero(&self) -> bool
        ensures { IsTrue result ↔ ((r c : ℕ) × IsZeroAmong (view_of self.now) r c) }
    {
        for row in 0..self.matrix.rows() {
            if self.has_zero_in(row) {
                return true;
            }
        }
        false
    }

    // Whether some entry of a row is 0.
    fn has_zero_in(&self, row: u32) -> bool
        requires { row < height self.now.matrix.now }
        ensures { IsTrue result ↔ ((c : ℕ) × IsZeroAmong (view_of self.now) row c) }
    {
        if !self.rows.has(row) {
            return false;
        }
        for column in 0..self.matrix.columns() {
            if self.columns.has(column) && !self.matrix.is_nonzero(row, column) {
                return true;
            }
        }
        false
    }
}
