// Columns of a matrix that are 0 in one row, not 0 in another, and not in the group of the other row.
ghost use Rattle.std.specs.Prelude.{◌≡◌, ◌≢◌, ◌<◌, ◌+◌, ◌≤◌, pos, true, false, length};
ghost use Rattle.cmr_base.specs.declared.limits.TheConstants.{MAX_ROWS};
ghost use Rattle.cmr_base.specs.Matrix.{height, entry, IsMatrix};

use cmr_base::RowsAndColumns;
use cuts::Groups;

/// Groups of the lines of a matrix, or of its transposed matrix. The names of the rows begin at position `rows_from`, and the names of the
/// columns at position `columns_from`.
#[derive(Clone, Copy)]
pub struct GroupedLines<'a> {
    pub matrix: &'a RowsAndColumns<'a>,
    pub groups: &'a Groups,
    pub rows_from: u32,
    pub columns_from: u32,
    ghost shape: { IsMatrix matrix.now },
    ghost few_rows: { rows_from ≤ MAX_ROWS },
    ghost few_columns: { columns_from ≤ MAX_ROWS },
    ghost rows_named: { rows_from + height matrix.now ≤ length groups.now.names.items },
    ghost columns_named: { columns_from + matrix.now.width ≤ length groups.now.names.items },
}

impl GroupedLines<'_> {
    ghost use Rattle.std.specs.Prelude.{◌≡◌, ◌<◌, ◌⊎◌, true, false};
    ghost use Rattle.cmr_base.specs.Matrix.{height};
    ghost use Rattle.three_sep.specs.GroupedLines.{HasNoOther, IsNoOther};

    /// Decides whether a connector in row one and a connector in row two may have other columns, if they need one.
    pub fn may_have(&self, one_needs: bool, two_needs: bool, one: u32, two: u32) -> bool
        requires one { one < height self.now.matrix.now }
        requires two { two < height self.now.matrix.now }
        ensures { result ≡ false → ((one_needs ≡ true) × HasNoOther self.now one two)
            ⊎ ((two_needs ≡ true) × HasNoOther self.now two one) }
    {
        if one_needs && !self.has_other(one, two) {
            return false;
        }
        !two_needs || self.has_other(two, one)
    }

    // Decides whether some column is 0 in one row, not 0 in another, and not in the group of the other row.
    fn has_other(&self, own: u32, across: u32) -> bool
        requires own { own < height self.now.matrix.now }
        requires across { across < height self.now.matrix.now }
        ensures { result ≡ false → HasNoOther self.now own across }
    {
        for column in 0..self.matrix.columns() {
            if self.is_other(own, across, column) {
                return true;
            }
        }
        false
    }

    // Decides the same of a given column.
    fn is_other(&self, own: u32, across: u32, column: u32) -> bool
        requires own { own < height self.now.matrix.now }
        requires across { across < height self.now.matrix.now }
        requires column { column < self.now.matrix.now.width }
        ensures { result ≡ false → IsNoOther self.now own across column }
    {
        if !is_flat_other(self.matrix, own, across, column) {
            return false;
        }
        !self
            .groups
            .are_one(self.columns_from + column, self.rows_from + across)
    }
}

/// Decides whether a column is 0 in one row and not in another.
pub fn is_flat_other(matrix: &RowsAndColumns<'_>, own: u32, across: u32, other: u32) -> bool
    requires own { own < height matrix.now }
    requires across { across < height matrix.now }
    requires other { other < matrix.now.width }
    ensures yes { result ≡ true
        → (entry matrix.now own other ≡ pos 0) × (entry matrix.now across other ≢ pos 0) }
    ensures no { result ≡ false
        → ¬ ((entry matrix.now own other ≡ pos 0) × (entry matrix.now across other ≢ pos 0)) }
{
    if matrix.is_nonzero(own, other) {
        return false;
    }
    matrix.is_nonzero(across, other)
}
