// Blocks of a matrix, on some of its rows and columns.
ghost use Rattle.std.specs.Prelude.{◌≡◌, ◌<◌, ◌*ℤ◌, ◌↔◌, pos, IsTrue};
ghost use Rattle.std.specs.List.{AllByRecursion};
ghost use Rattle.cmr_base.specs.Matrix.{entry, height};
ghost use Rattle.cmr_base.specs.LineSets.{AllBelow};
ghost use Rattle.cmr_base.specs.Separations.{product_at};
ghost use Rattle.tree_type.specs.Sides.{AreEntries};

use cmr_base::{Indices, Matrix, product};

/// Whether all entries are 0.
pub fn is_zero_block(matrix: &Matrix, rows: &Indices, columns: &Indices) -> bool
    requires rows { AllBelow (height matrix.now) rows.now }
    requires columns { AllBelow matrix.now.width columns.now }
    ensures { IsTrue result ↔ AreEntries (entry matrix.now) rows.now columns.now (λ r c. pos 0) }
{
    are_zero_rows(matrix, rows.as_slice(), columns.as_slice())
}

fn are_zero_rows(matrix: &Matrix, rows: &[u32], columns: &[u32]) -> bool
    requires rows { AllBelow (height matrix.now) rows.now }
    requires columns { AllBelow matrix.now.width columns.now }
    ensures { IsTrue result
        ↔ AllByRecursion
        (λ row. AllByRecursion (λ column. entry matrix.now row column ≡ pos 0) columns.now)
        rows.now }
{
    for row in rows {
        if !is_zero_row(matrix, *row, columns) {
            return false;
        }
    }
    true
}

fn is_zero_row(matrix: &Matrix, row: u32, columns: &[u32]) -> bool
    requires row { row < height matrix.now }
    requires columns { AllBelow matrix.now.width columns.now }
    ensures { IsTrue result
        ↔ AllByRecursion (λ column. entry matrix.now row column ≡ pos 0) columns.now }
{
    for column in columns {
        if matrix.entry(row, *column) != 0 {
            return false;
        }
    }
    true
}

/// Whether each entry is made from the entries of row `i` and column `j`.
pub fn is_made_block(matrix: &Matrix, rows: &Indices, columns: &Indices, i: u32, j: u32) -> bool
    requires rows { AllBelow (height matrix.now) rows.now }
    requires columns { AllBelow matrix.now.width columns.now }
    requires i { i < height matrix.now }
    requires j { j < matrix.now.width }
    ensures { IsTrue result
        ↔ AreEntries (entry matrix.now) rows.now columns.now (product_at (entry matrix.now) i j) }
{
    are_made_rows(matrix, rows.as_slice(), columns.as_slice(), i, j)
}

fn are_made_rows(matrix: &Matrix, rows: &[u32], columns: &[u32], i: u32, j: u32) -> bool
    requires rows { AllBelow (height matrix.now) rows.now }
    requires columns { AllBelow matrix.now.width columns.now }
    requires i { i < height matrix.now }
    requires j { j < matrix.now.width }
    ensures { IsTrue result
        ↔ AllByRecursion
        (λ row. AllByRecursion
        (λ column. entry matrix.now row column
        ≡ (entry matrix.now row j *ℤ entry matrix.now i j) *ℤ entry matrix.now i column)
        columns.now)
        rows.now }
{
    for row in rows {
        if !is_made_row(matrix, *row, columns, i, j) {
            return false;
        }
    }
    true
}

fn is_made_row(matrix: &Matrix, row: u32, columns: &[u32], i: u32, j: u32) -> bool
    requires row { row < height matrix.now }
    requires columns { AllBelow matrix.now.width columns.now }
    requires i { i < height matrix.now }
    requires j { j < matrix.now.width }
    ensures { IsTrue result
        ↔ AllByRecursion
        (λ column. entry matrix.now row column
        ≡ (entry matrix.now row j *ℤ entry matrix.now i j) *ℤ entry matrix.now i column)
        columns.now }
{
    for column in columns {
        if !is_made_entry(matrix, row, *column, i, j) {
            return false;
        }
    }
    true
}

fn is_made_entry(matrix: &Matrix, row: u32, column: u32, i: u32, j: u32) -> bool
    requires row { row < height matrix.now }
    requires column { column < matrix.now.width }
    requires i { i < height matrix.now }
    requires j { j < matrix.now.width }
    ensures { IsTrue result
        ↔ (entry matrix.now row column
        ≡ (entry matrix.now row j *ℤ entry matrix.now i j) *ℤ entry matrix.now i column) }
{
    let factor = product(matrix.entry(row, j), matrix.entry(i, j));
    matrix.entry(row, column) == product(factor, matrix.entry(i, column))
}
