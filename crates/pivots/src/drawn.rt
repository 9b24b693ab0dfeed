// Drawn positions of pivots.
ghost use Rattle.std.specs.Prelude.{◌≡◌, ◌<◌, ◌≤◌, ◌^◌, Contains, IfNone, IfSome, length, slice_get, ℕ, pos};
ghost use Rattle.cmr_base.specs.LineSets.{AllBelow, IsRowSet, IsColumnSet};
ghost use Rattle.cmr_base.specs.Matrix.{height, entry};
ghost use Rattle.pivots.specs.DrawnPlaces.{row_places, places_on, drawn_place};
ghost use Rattle.cmr_base.specs.PlacedPivots.{IsPlaceIn};

use cmr_base::{LineSet, MAX_COLUMNS, MAX_ROWS, Matrix, Position, draw_below};

/// The position of a pivot, and the state after it.
#[derive(Clone, Copy, Debug, PartialEq, Eq)]
pub struct DrawnPlace {
    pub place: Position,
    pub state: u32,
}

/// The nonzero of the submatrix on these lines whose number is drawn from a state, with the next state. `None` if and only if
/// the submatrix is zero. Nonzeros are numbered from 0, by rows and then by columns.
pub fn drawn_place(matrix: &Matrix, lines: &LineSet, state: u32) -> Option<DrawnPlace>
    requires rows { IsRowSet matrix.now lines.now.rows }
    requires columns { IsColumnSet matrix.now lines.now.columns }
    requires state { state < 2 ^ 31 }
    ensures drawn { result ≡ drawn_place matrix.now lines.now state }
    ensures place { IfSome result (λ drawn. IsPlaceIn matrix.now lines.now drawn.place) }
    ensures low { IfSome result (λ drawn. drawn.state < 2 ^ 31) }
    ensures none { IfNone result ((i j : ℕ) → Contains lines.now.rows i
        → Contains lines.now.columns j → entry matrix.now i j ≡ pos 0) }
{
    let rows = lines.rows.as_slice();
    let columns = lines.columns.as_slice();
    prove!(rows.len() <= matrix.rows() as usize);
    prove!(columns.len() <= matrix.columns() as usize);
    let count = count_places(matrix, rows, columns);
    if count == 0 {
        return None;
    }
    let drawn = draw_below(count, state);
    let place = place_numbered(matrix, rows, columns, drawn.number)?;
    Some(DrawnPlace {
        place,
        state: drawn.state,
    })
}

// The number of nonzeros of the submatrix.
fn count_places(matrix: &Matrix, rows: &[u32], columns: &[u32]) -> u32
    requires rows { AllBelow (height matrix.now) rows.now }
    requires columns { AllBelow matrix.now.width columns.now }
    requires few_rows { length rows.now ≤ MAX_ROWS }
    requires few_columns { length columns.now ≤ MAX_COLUMNS }
    ensures { result ≡ length (places_on matrix.now rows.now columns.now) }
{
    let mut count = 0;
    for row in rows {
        count += count_in_row(matrix, *row, columns);
    }
    count
}

fn count_in_row(matrix: &Matrix, row: u32, columns: &[u32]) -> u32
    requires row { row < height matrix.now }
    requires columns { AllBelow matrix.now.width columns.now }
    requires few { length columns.now ≤ MAX_COLUMNS }
    ensures count { result ≡ length (row_places matrix.now columns.now row) }
    ensures few { result ≤ MAX_COLUMNS }
{
    let mut count = 0;
    for column in columns {
        if matrix.entry(row, *column) != 0 {
            count += 1;
        }
    }
    count
}

// The nonzero with this number.
fn place_numbered(matrix: &Matrix, rows: &[u32], columns: &[u32], number: u32) -> Option<Position>
    requires rows { AllBelow (height matrix.now) rows.now }
    requires columns { AllBelow matrix.now.width columns.now }
    requires few { length columns.now ≤ MAX_COLUMNS }
    ensures { result ≡ slice_get (places_on matrix.now rows.now columns.now) number }
{
    let mut left = number;
    for row in rows {
        let count = count_in_row(matrix, *row, columns);
        if left < count {
            return place_in_row(matrix, *row, columns, left);
        }
        left -= count;
    }
    None
}

fn place_in_row(matrix: &Matrix, row: u32, columns: &[u32], number: u32) -> Option<Position>
    requires row { row < height matrix.now }
    requires columns { AllBelow matrix.now.width columns.now }
    ensures { result ≡ slice_get (row_places matrix.now columns.now row) number }
{
    let mut left = number;
    for column in columns {
        if matrix.entry(row, *column) != 0 {
            if left == 0 {
                return Some(Position {
                    row,
                    column: *column,
                });
            }
            left -= 1;
        }
    }
    None
}
