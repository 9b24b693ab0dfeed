// The test for R10 matrices.
ghost use Rattle.std.specs.Prelude.{◌≡◌, ◌<◌, ◌↔◌, ℕ, IsTrue, slice_index};
ghost use Rattle.cmr_base.specs.Matrix.{height, entry};
ghost use Rattle.cmr_base.specs.R10.{IsR10, HasTable, mark};
ghost use Rattle.r10_leaf.specs.Tables.{IsTable, IsColumn, HasColumn, HasTableColumns, rows_numbered};

use cmr_base::Matrix;

const CIRCULANT: [[u8; 5]; 5] = [
    [1, 1, 0, 0, 1],
    [1, 1, 1, 0, 0],
    [0, 1, 1, 1, 0],
    [0, 0, 1, 1, 1],
    [1, 0, 0, 1, 1],
];

const BORDERED: [[u8; 5]; 5] = [
    [1, 1, 1, 1, 1],
    [1, 1, 1, 0, 0],
    [1, 0, 1, 1, 0],
    [1, 0, 0, 1, 1],
    [1, 1, 0, 0, 1],
];

/// Decides whether the matrix has five rows and five columns and, in some order of them, one of the two supports of
/// R10.
pub fn is_r10(matrix: &Matrix) -> bool
    ensures { IsTrue result ↔ IsR10 matrix.now }
{
    matrix.rows() == 5
        && matrix.columns() == 5
        && (has_table(matrix, &CIRCULANT) || has_table(matrix, &BORDERED))
}

// Decides whether the matrix has the table's support in some order of its rows and columns. The test tries all lists
// of five rows. A list that fits has no row twice, because the rows of a table are distinct.
fn has_table(matrix: &Matrix, table: &[[u8; 5]; 5]) -> bool
    requires rows { height matrix.now ≡ 5 }
    requires columns { matrix.now.width ≡ 5 }
    requires table { IsTable table.now }
    ensures { IsTrue result ↔ HasTable matrix.now table.now }
{
    for number in 0..3125 {
        if fits(matrix, table, &rows_numbered(number)) {
            return true;
        }
    }
    false
}

fn rows_numbered(number: u32) -> [u32; 5]
    ensures { result ≡ rows_numbered number }
{
    [
        number % 5,
        number / 5 % 5,
        number / 25 % 5,
        number / 125 % 5,
        number / 625 % 5,
    ]
}

// Decides whether each column of the table is a column of the matrix, with its rows in this order.
fn fits(matrix: &Matrix, table: &[[u8; 5]; 5], rows: &[u32; 5]) -> bool
    requires rows { height matrix.now ≡ 5 }
    requires columns { matrix.now.width ≡ 5 }
    requires table { IsTable table.now }
    requires range { (k : ℕ) → k < 5 → slice_index rows.now k < 5 }
    ensures { IsTrue result ↔ HasTableColumns matrix.now table.now rows.now }
{
    for place in 0..5 {
        if !has_column(matrix, table, rows, place) {
            return false;
        }
    }
    true
}

fn has_column(matrix: &Matrix, table: &[[u8; 5]; 5], rows: &[u32; 5], place: usize) -> bool
    requires rows { height matrix.now ≡ 5 }
    requires columns { matrix.now.width ≡ 5 }
    requires table { IsTable table.now }
    requires range { (k : ℕ) → k < 5 → slice_index rows.now k < 5 }
    requires place { place < 5 }
    ensures { IsTrue result ↔ HasColumn matrix.now table.now rows.now place }
{
    for column in 0..5 {
        if is_column(matrix, table, rows, place, column) {
            return true;
        }
    }
    false
}

fn is_column(
    matrix: &Matrix,
    table: &[[u8; 5]; 5],
    rows: &[u32; 5],
    place: usize,
    column: u32,
) -> bool
    requires rows { height matrix.now ≡ 5 }
    requires columns { matrix.now.width ≡ 5 }
    requires table { IsTable table.now }
    requires range { (k : ℕ) → k < 5 → slice_index rows.now k < 5 }
    requires place { place < 5 }
    requires column { column < 5 }
    ensures { IsTrue result ↔ IsColumn matrix.now table.now rows.now place column }
{
    for k in 0..5 {
        if mark(matrix.entry(rows[k], column)) != table[k][place] {
            return false;
        }
    }
    true
}

fn mark(entry: i8) -> u8
    ensures { result ≡ mark entry }
{
    u8::from(entry != 0)
}
