// The pivot of a submatrix in its place.
ghost use Rattle.std.specs.Prelude.{◌≡◌, ◌<◌, ◌↔◌, ◌-ℤ◌, IfOk, IfNone, IfSome, IsTrue};
ghost use Rattle.cmr_base.specs.LineSets.{IsRowSet, IsColumnSet};
ghost use Rattle.cmr_base.specs.Matrix.{height, entry, IsEntry, IsMatrix};
ghost use Rattle.cmr_base.specs.PlacedPivots.{pivot_entry, IsPlaceIn};
ghost use Rattle.pivots.specs.PivotedParts.{IsPivotedPart};
ghost use Rattle.pivots.specs.PivotedRows.{IsPivotedRow, IsFirstTwoOfRow};

use crate::matrix_pivot::two_lines;
use cmr_base::{LineSet, Matrix, Memory, Position, product};
use std::alloc::Global;

/// The matrix after the pivot of a submatrix, or a violator of the matrix.
#[derive(Debug, Drop)]
pub enum PivotedPart {
    /// The matrix with the pivot in the place of the submatrix, if the entries of the pivot are -1, 0 and 1.
    Ternary(Matrix),
    /// A violator of the matrix, if the pivot has a 2 or a -2: the lines of the pivot and those of the first such entry, by the
    /// rows of the submatrix and then by its columns.
    Violated(LineSet),
}

/// Replaces the submatrix on these lines by its pivot in a copy of the matrix, or gives a violator of two rows and two columns
/// among these lines. The time is that of the copy, and a constant for each entry of the submatrix.
pub fn pivot_part(
    alloc: Global,
    matrix: &Matrix,
    lines: &LineSet,
    place: Position,
) -> Result<PivotedPart, Memory>
    requires rows { IsRowSet matrix.now lines.now.rows }
    requires columns { IsColumnSet matrix.now lines.now.columns }
    requires place { IsPlaceIn matrix.now lines.now place }
    ensures { IfOk result (IsPivotedPart matrix.now lines.now place) }
{
    let mut work = matrix.copy(alloc)?;
    let columns = lines.columns.as_slice();
    for row in lines.rows.as_slice() {
        if let Some(column) = pivot_row(matrix, &mut work, columns, place, *row) {
            return Ok(PivotedPart::Violated(LineSet {
                rows: two_lines(alloc, place.row, *row)?,
                columns: two_lines(alloc, place.column, column)?,
            }));
        }
    }
    Ok(PivotedPart::Ternary(work))
}

// Writes the entries of the pivot into a row, up to the first 2 or -2, and gives its column.
fn pivot_row(
    matrix: &Matrix,
    work: &mut Matrix,
    columns: &[u32],
    place: Position,
    row: u32,
) -> Option<u32>
    requires columns { IsColumnSet matrix.now columns.now }
    requires place_row { place.row < height matrix.now }
    requires place_column { place.column < matrix.now.width }
    requires row { row < height matrix.now }
    requires shape { IsMatrix work.old }
    requires height { height work.old ≡ height matrix.now }
    requires width { work.old.width ≡ matrix.now.width }
    ensures none { IfNone result (IsPivotedRow matrix.now work.old work.new columns.now place row) }
    ensures some { IfSome result (IsFirstTwoOfRow matrix.now columns.now place row) }
{
    for column in columns {
        let after = entry_after(matrix, place, row, *column);
        if !is_entry(after) {
            return Some(*column);
        }
        work.set(row, *column, after);
    }
    None
}

// An entry of the pivot.
fn entry_after(matrix: &Matrix, place: Position, row: u32, column: u32) -> i8
    requires place_row { place.row < height matrix.now }
    requires place_column { place.column < matrix.now.width }
    requires row { row < height matrix.now }
    requires column { column < matrix.now.width }
    ensures { result ≡ pivot_entry (entry matrix.now) place.row place.column row column }
{
    let factor = matrix.entry(place.row, place.column);
    if row == place.row {
        if column == place.column {
            return factor;
        }
        return product(factor, matrix.entry(row, column));
    }
    let left = matrix.entry(row, place.column);
    if column == place.column {
        return -product(factor, left);
    }
    let change = product(factor, product(left, matrix.entry(place.row, column)));
    difference(matrix.entry(row, column), change)
}

fn difference(one: i8, other: i8) -> i8
    requires one { IsEntry one }
    requires other { IsEntry other }
    ensures { result ≡ one -ℤ other }
{
    one - other
}

fn is_entry(z: i8) -> bool
    ensures { IsTrue result ↔ IsEntry z }
{
    -1 <= z && z <= 1
}
