// The two matrices of a two-separation.
ghost use Rattle.std.specs.Prelude.{◌≡◌, ◌<◌, IfOk};
ghost use Rattle.cmr_base.specs.Matrix.{height, entry};
ghost use Rattle.compose.specs.declared.sum_kind.SumKind.TheVariants as kind;
ghost use Rattle.compose.specs.Arrangements.{arranged, two_sum_lines, two_arrangement};
ghost use Rattle.compose.specs.RoundTrips.{IsTwoOf, IsRoundTrip};

use crate::Arranged;
use crate::arrangement::Arrangement;
use crate::line_lists::joined;
use crate::sides::Sides;
use crate::signed_line::{SignedLine, framed, plain};
use cmr_base::{Matrix, Memory, Two};
use std::alloc::Global;

/// Gives the two matrices of a two-separation, and the order of the lines in which their two-sum is the matrix: side
/// two before side one. The first matrix is side two with the column of the reference. The second matrix is side one
/// with the row of the reference, multiplied by its entry in that column.
pub fn arrange_two(alloc: Global, matrix: &Matrix, two: &Two) -> Result<Arranged, Memory>
    requires { IsTwoOf matrix.now two.now }
    ensures arranged { IfOk result (λ both. both ≡ arranged matrix.now (two_arrangement matrix.now
        two.now)) }
    ensures round_trip { IfOk result (IsRoundTrip kind.Two matrix.now) }
{
    let sides = Sides::of(alloc, matrix, &two.side)?;
    two_sum_lines(alloc, matrix, &sides, two.row, two.column)?.of(alloc, matrix)
}

fn two_sum_lines(
    alloc: Global,
    matrix: &Matrix,
    sides: &Sides,
    row: u32,
    column: u32,
) -> Result<Arrangement, Memory>
    requires row { row < height matrix.now }
    requires column { column < matrix.now.width }
    ensures { IfOk result (λ lines. lines ≡ two_sum_lines (entry matrix.now) sides.now row column) }
{
    let reference = SignedLine {
        line: row,
        sign: matrix.entry(row, column),
    };
    let rows_one = sides.rows_one.as_slice();
    let columns_one = sides.columns_one.as_slice();
    let rows_two = sides.rows_two.as_slice();
    let columns_two = sides.columns_two.as_slice();
    Ok(Arrangement {
        first_rows: framed(alloc, &[], rows_two, &[])?,
        first_columns: framed(alloc, &[], columns_two, &[plain(column)])?,
        second_rows: framed(alloc, &[reference], rows_one, &[])?,
        second_columns: framed(alloc, &[], columns_one, &[])?,
        rows: joined(alloc, rows_two, rows_one)?,
        columns: joined(alloc, columns_two, columns_one)?,
    })
}
