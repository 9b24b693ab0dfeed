ghost use Rattle.std.specs.Prelude.{◌≤◌, ◌↔◌, IsTrue, length};
ghost use Rattle.std.specs.List.{AllByRecursion};
ghost use Rattle.cmr_base.specs.Matrix.{height, entry};
ghost use Rattle.cmr_base.specs.LineSets.{AllBelow};
ghost use Rattle.cmr_base.specs.Sums.{sum_over, IsEven, IsTwoModFour};
ghost use Rattle.cmr_base.specs.Violator.{IsViolator};

use cmr_base::{LineSet, MAX_COLUMNS, MAX_ROWS, Matrix};

/// Decides whether the submatrix on these lines is a violator: it has even row sums, even column sums, and a sum of 2
/// modulo 4.
pub fn is_violator(matrix: &Matrix, lines: &LineSet) -> bool
    requires rows { AllBelow (height matrix.now) lines.now.rows }
    requires columns { AllBelow matrix.now.width lines.now.columns }
    ensures { IsTrue result ↔ IsViolator (entry matrix.now) lines.now.rows lines.now.columns }
{
    let rows = lines.rows.as_slice();
    let columns = lines.columns.as_slice();
    prove!(rows.len() <= matrix.rows() as usize);
    prove!(columns.len() <= matrix.columns() as usize);
    have_even_rows(matrix, rows, columns)
        && have_even_columns(matrix, rows, columns)
        && is_two_mod_four(matrix.sum(lines))
}

fn have_even_rows(matrix: &Matrix, rows: &[u32], columns: &[u32]) -> bool
    requires rows { AllBelow (height matrix.now) rows.now }
    requires columns { AllBelow matrix.now.width columns.now }
    requires few { length columns.now ≤ MAX_COLUMNS }
    ensures { IsTrue result
        ↔ AllByRecursion
        (λ row. IsEven (sum_over columns.now (λ column. entry matrix.now row column)))
        rows.now }
{
    for row in rows {
        if !is_even(matrix.row_sum(*row, columns)) {
            return false;
        }
    }
    true
}

fn have_even_columns(matrix: &Matrix, rows: &[u32], columns: &[u32]) -> bool
    requires rows { AllBelow (height matrix.now) rows.now }
    requires columns { AllBelow matrix.now.width columns.now }
    requires few { length rows.now ≤ MAX_ROWS }
    ensures { IsTrue result
        ↔ AllByRecursion
        (λ column. IsEven (sum_over rows.now (λ row. entry matrix.now row column)))
        columns.now }
{
    for column in columns {
        if !is_even(matrix.column_sum(rows, *column)) {
            return false;
        }
    }
    true
}

fn is_even(sum: i32) -> bool
    ensures { IsTrue result ↔ IsEven sum }
{
    sum.rem_euclid(2) == 0
}

/// Decides whether a sum is 2 modulo 4.
pub fn is_two_mod_four(sum: i32) -> bool
    ensures { IsTrue result ↔ IsTwoModFour sum }
{
    sum.rem_euclid(4) == 2
}
