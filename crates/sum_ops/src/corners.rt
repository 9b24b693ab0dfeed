// Connecting lines of sums: a row and two columns that are equal outside that row (flat), or a column and two rows
// that are equal outside that column (tall).
ghost use Rattle.std.specs.Prelude.{◌≡◌, ◌<◌, ◌≤◌, ◌↔◌, ℕ, ℤ, IsTrue, MatchOption, true, false};
ghost use Rattle.cmr_base.specs.Matrix.{height, entry};
ghost use Rattle.sum_ops.specs.Corners.{IsLastCorner, IsFirstCorner};

use cmr_base::Matrix;

/// Gives the corner of the connecting lines with which a matrix ends, and `None` if it does not end with such lines.
pub fn last_corner(matrix: &Matrix, flat: bool) -> Option<i8>
    ensures { MatchOption result ((corner : ℤ) → IsLastCorner flat matrix.now corner → ⊥)
        (λ corner. IsLastCorner flat matrix.now corner) }
{
    if flat {
        last_flat_corner(matrix)
    } else {
        last_tall_corner(matrix)
    }
}

/// Gives the corner of the connecting lines with which a matrix begins, and `None` if it does not begin with such
/// lines.
pub fn first_corner(matrix: &Matrix, flat: bool) -> Option<i8>
    ensures { MatchOption result ((corner : ℤ) → IsFirstCorner flat matrix.now corner → ⊥)
        (λ corner. IsFirstCorner flat matrix.now corner) }
{
    if flat {
        first_flat_corner(matrix)
    } else {
        first_tall_corner(matrix)
    }
}

fn last_flat_corner(matrix: &Matrix) -> Option<i8>
    ensures { MatchOption result ((corner : ℤ) → IsLastCorner true matrix.now corner → ⊥)
        (λ corner. IsLastCorner true matrix.now corner) }
{
    if matrix.rows() < 1 || matrix.columns() < 2 {
        return None;
    }
    let row = matrix.rows() - 1;
    let column = matrix.columns() - 2;
    let corner = matrix.entry(row, column + 1);
    if matrix.entry(row, column) == 0
        && corner != 0
        && are_equal_columns(matrix, column, column + 1, 0, row)
    {
        Some(corner)
    } else {
        None
    }
}

fn last_tall_corner(matrix: &Matrix) -> Option<i8>
    ensures { MatchOption result ((corner : ℤ) → IsLastCorner false matrix.now corner → ⊥)
        (λ corner. IsLastCorner false matrix.now corner) }
{
    if matrix.rows() < 2 || matrix.columns() < 1 {
        return None;
    }
    let row = matrix.rows() - 2;
    let column = matrix.columns() - 1;
    let corner = matrix.entry(row + 1, column);
    if matrix.entry(row, column) == 0
        && corner != 0
        && are_equal_rows(matrix, row, row + 1, 0, column)
    {
        Some(corner)
    } else {
        None
    }
}

fn first_flat_corner(matrix: &Matrix) -> Option<i8>
    ensures { MatchOption result ((corner : ℤ) → IsFirstCorner true matrix.now corner → ⊥)
        (λ corner. IsFirstCorner true matrix.now corner) }
{
    if matrix.rows() < 1 || matrix.columns() < 2 {
        return None;
    }
    let corner = matrix.entry(0, 0);
    if matrix.entry(0, 1) == 0 && corner != 0 && are_equal_columns(matrix, 0, 1, 1, matrix.rows()) {
        Some(corner)
    } else {
        None
    }
}

fn first_tall_corner(matrix: &Matrix) -> Option<i8>
    ensures { MatchOption result ((corner : ℤ) → IsFirstCorner false matrix.now corner → ⊥)
        (λ corner. IsFirstCorner false matrix.now corner) }
{
    if matrix.rows() < 2 || matrix.columns() < 1 {
        return None;
    }
    let corner = matrix.entry(0, 0);
    if matrix.entry(1, 0) == 0 && corner != 0 && are_equal_rows(matrix, 0, 1, 1, matrix.columns()) {
        Some(corner)
    } else {
        None
    }
}

fn are_equal_columns(matrix: &Matrix, column: u32, other: u32, from: u32, to: u32) -> bool
    requires column { column < matrix.now.width }
    requires other { other < matrix.now.width }
    requires from { from ≤ to }
    requires to { to ≤ height matrix.now }
    ensures { IsTrue result
        ↔ ((row : ℕ) → from ≤ row → row < to
        → entry matrix.now row other ≡ entry matrix.now row column) }
{
    for row in from..to {
        if matrix.entry(row, other) != matrix.entry(row, column) {
            return false;
        }
    }
    true
}

fn are_equal_rows(matrix: &Matrix, row: u32, other: u32, from: u32, to: u32) -> bool
    requires row { row < height matrix.now }
    requires other { other < height matrix.now }
    requires from { from ≤ to }
    requires to { to ≤ matrix.now.width }
    ensures { IsTrue result
        ↔ ((column : ℕ) → from ≤ column → column < to
        → entry matrix.now other column ≡ entry matrix.now row column) }
{
    for column in from..to {
        if matrix.entry(other, column) != matrix.entry(row, column) {
            return false;
        }
    }
    true
}
