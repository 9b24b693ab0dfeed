// Cores of concentrated sums: `[g h 0; x y s; z w t]`, with g, h, s, t and x w - y z equal to 1 or -1.
ghost use Rattle.std.specs.Prelude.{◌≡◌, ◌<◌, ◌≤◌, ◌+◌, ◌-◌, ◌↔◌, ℕ, ℤ, pos, IsTrue, MatchOption};
ghost use Rattle.cmr_base.specs.Cores.{IsBounded};
ghost use Rattle.cmr_base.specs.Matrix.{height, entry, IsMatrix};
ghost use Rattle.cmr_base.specs.MatrixSums.{IsCore};
ghost use Rattle.cmr_base.specs.Signing.{IsSign};
ghost use Rattle.sum_ops.specs.SumCores.{HaveSigns, core_determinant_at, IsLastCore, IsFirstCore};

use cmr_base::{Core, Matrix};

/// Gives the determinant x w - y z of the core with which a matrix ends, and `None` if it does not end with a core
/// below zeros.
pub fn last_core(matrix: &Matrix) -> Option<i8>
    ensures { MatchOption result ((determinant : ℤ) → IsLastCore matrix.now determinant → ⊥)
        (λ determinant. IsLastCore matrix.now determinant) }
{
    if matrix.rows() < 3 || matrix.columns() < 3 {
        return None;
    }
    let row = matrix.rows() - 3;
    let column = matrix.columns() - 3;
    if is_core(matrix, row, column) && is_zero_above(matrix, row, column + 2) {
        Some(core_determinant(matrix, row, column))
    } else {
        None
    }
}

/// Decides whether the second matrix begins with the last three rows and columns of the first, and has a first row of
/// zeros after them.
pub fn is_first_core(first: &Matrix, second: &Matrix) -> bool
    requires rows { 3 ≤ height first.now }
    requires columns { 3 ≤ first.now.width }
    ensures { IsTrue result ↔ IsFirstCore first.now second.now }
{
    second.rows() >= 3
        && second.columns() >= 3
        && have_one_core(first, second)
        && is_zero_after(second, 3)
}

// Decides whether the matrix has a core after `row` rows and `column` columns.
fn is_core(matrix: &Matrix, row: u32, column: u32) -> bool
    requires row { row + 2 < height matrix.now }
    requires column { column + 2 < matrix.now.width }
    requires shape { IsMatrix matrix.now }
    ensures { IsTrue result ↔ IsCore row column (entry matrix.now) }
{
    matrix.entry(row, column + 2) == 0
        && have_signs(matrix, row, column)
        && has_sign_determinant(matrix, row, column)
}

// Decides whether g, h, s and t of such a core are 1 or -1.
fn have_signs(matrix: &Matrix, row: u32, column: u32) -> bool
    requires row { row + 2 < height matrix.now }
    requires column { column + 2 < matrix.now.width }
    requires shape { IsMatrix matrix.now }
    ensures { IsTrue result ↔ HaveSigns row column (entry matrix.now) }
{
    has_sign_at(matrix, row, column)
        && has_sign_at(matrix, row, column + 1)
        && has_sign_at(matrix, row + 1, column + 2)
        && has_sign_at(matrix, row + 2, column + 2)
}

fn has_sign_at(matrix: &Matrix, row: u32, column: u32) -> bool
    requires row { row < height matrix.now }
    requires column { column < matrix.now.width }
    ensures { IsTrue result ↔ IsSign (entry matrix.now row column) }
{
    matrix.entry(row, column) != 0
}

fn has_sign_determinant(matrix: &Matrix, row: u32, column: u32) -> bool
    requires row { row + 2 < height matrix.now }
    requires column { column + 2 < matrix.now.width }
    requires shape { IsMatrix matrix.now }
    ensures { IsTrue result ↔ IsSign (core_determinant_at matrix.now row column) }
{
    is_sign(core_determinant(matrix, row, column))
}

fn core_determinant(matrix: &Matrix, row: u32, column: u32) -> i8
    requires row { row + 2 < height matrix.now }
    requires column { column + 2 < matrix.now.width }
    requires shape { IsMatrix matrix.now }
    ensures value { result ≡ core_determinant_at matrix.now row column }
    ensures small { IsBounded 2 result }
{
    Core::at(matrix, row + 1, row + 2, column, column + 1).determinant()
}

fn is_sign(number: i8) -> bool
    ensures { IsTrue result ↔ IsSign number }
{
    number == 1 || number == -1
}

fn is_zero_above(matrix: &Matrix, row: u32, column: u32) -> bool
    requires row { row ≤ height matrix.now }
    requires column { column < matrix.now.width }
    ensures { IsTrue result ↔ ((above : ℕ) → above < row → entry matrix.now above column ≡ pos 0) }
{
    for above in 0..row {
        if matrix.entry(above, column) != 0 {
            return false;
        }
    }
    true
}

fn is_zero_after(matrix: &Matrix, column: u32) -> bool
    requires row { 0 < height matrix.now }
    requires column { column ≤ matrix.now.width }
    ensures { IsTrue result
        ↔ ((after : ℕ) → column ≤ after → after < matrix.now.width
        → entry matrix.now 0 after ≡ pos 0) }
{
    for after in column..matrix.columns() {
        if matrix.entry(0, after) != 0 {
            return false;
        }
    }
    true
}

fn have_one_core(first: &Matrix, second: &Matrix) -> bool
    requires first_rows { 3 ≤ height first.now }
    requires first_columns { 3 ≤ first.now.width }
    requires second_rows { 3 ≤ height second.now }
    requires second_columns { 3 ≤ second.now.width }
    ensures { IsTrue result
        ↔ ((row column : ℕ) → row < 3 → column < 3
        → entry second.now row column
        ≡ entry first.now ((height first.now - 3) + row) ((first.now.width - 3) + column)) }
{
    for row in 0..3 {
        if !have_one_core_row(first, second, row) {
            return false;
        }
    }
    true
}

fn have_one_core_row(first: &Matrix, second: &Matrix, row: u32) -> bool
    requires first_rows { 3 ≤ height first.now }
    requires first_columns { 3 ≤ first.now.width }
    requires second_rows { 3 ≤ height second.now }
    requires second_columns { 3 ≤ second.now.width }
    requires row { row < 3 }
    ensures { IsTrue result
        ↔ ((column : ℕ) → column < 3
        → entry second.now row column
        ≡ entry first.now ((height first.now - 3) + row) ((first.now.width - 3) + column)) }
{
    let first_row = first.rows() - 3 + row;
    let first_column = first.columns() - 3;
    for column in 0..3 {
        if second.entry(row, column) != first.entry(first_row, first_column + column) {
            return false;
        }
    }
    true
}
