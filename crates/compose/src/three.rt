// The two matrices of a three-separation.
ghost use Rattle.std.specs.Prelude.{◌≡◌, ◌<◌, IfOk};
ghost use Rattle.cmr_base.specs.Matrix.{height, entry};
ghost use Rattle.compose.specs.Arrangements.{arranged, last_rows, last_columns, begin_rows, begin_columns, corner_lines, core_lines, three_lines, three_arrangement, HasConnectorLines};
ghost use Rattle.cmr_base.specs.Separations.{first_is_flat, second_is_flat};
ghost use Rattle.compose.specs.SumKinds.{kind_of_form};
ghost use Rattle.compose.specs.RoundTrips.{IsThreeOf, IsRoundTrip};

use crate::Arranged;
use crate::arrangement::Arrangement;
use crate::line_lists::{joined, joined_three, lines_on};
use crate::sides::Sides;
use crate::signed_line::{SignedLine, SignedLineList, framed, plain};
use cmr_base::{Connector, Form, Matrix, Memory, Three, product};
use std::alloc::Global;

/// Gives the two matrices of a three-separation, and the order of the lines in which their sum of its form is the
/// matrix: side one before side two. The first matrix is side one with the second connector, and the second matrix is
/// side two with the first connector. In the forms delta, Y and mixed, the lines of the connectors are multiplied by
/// signs, so that they are the connecting lines of the sum. In the concentrated form, both matrices contain both
/// connectors.
pub fn arrange_three(alloc: Global, matrix: &Matrix, three: &Three) -> Result<Arranged, Memory>
    requires { IsThreeOf matrix.now three.now }
    ensures arranged { IfOk result (λ both. both ≡ arranged matrix.now (three_arrangement matrix.now
        three.now)) }
    ensures round_trip { IfOk result (IsRoundTrip (kind_of_form three.now.form) matrix.now) }
{
    let sides = Sides::of(alloc, matrix, &three.side)?;
    three_lines(alloc, matrix, three.form, &sides, three.first, three.second)?.of(alloc, matrix)
}

fn three_lines(
    alloc: Global,
    matrix: &Matrix,
    form: Form,
    sides: &Sides,
    first: Connector,
    second: Connector,
) -> Result<Arrangement, Memory>
    requires first { HasConnectorLines (first_is_flat form) matrix.now first }
    requires second { HasConnectorLines (second_is_flat form) matrix.now second }
    ensures { IfOk result (λ lines. lines ≡ three_lines (entry matrix.now) form sides.now first
        second) }
{
    match form {
        Form::Delta => corner_lines(alloc, matrix, true, true, sides, first, second),
        Form::YForm => corner_lines(alloc, matrix, false, false, sides, first, second),
        Form::Mixed => corner_lines(alloc, matrix, true, false, sides, first, second),
        Form::Concentrated => core_lines(alloc, sides, first, second),
    }
}

fn corner_lines(
    alloc: Global,
    matrix: &Matrix,
    first_flat: bool,
    second_flat: bool,
    sides: &Sides,
    first: Connector,
    second: Connector,
) -> Result<Arrangement, Memory>
    requires first { HasConnectorLines first_flat matrix.now first }
    requires second { HasConnectorLines second_flat matrix.now second }
    ensures { IfOk result (λ lines. lines ≡ corner_lines (entry matrix.now) first_flat second_flat
        sides.now first second) }
{
    let rows_one = sides.rows_one.as_slice();
    let columns_one = sides.columns_one.as_slice();
    let rows_two = sides.rows_two.as_slice();
    let columns_two = sides.columns_two.as_slice();
    Ok(Arrangement {
        first_rows: last_rows(alloc, matrix, second_flat, rows_one, first, second)?,
        first_columns: last_columns(alloc, matrix, second_flat, columns_one, first, second)?,
        second_rows: begin_rows(alloc, matrix, first_flat, rows_two, first, second)?,
        second_columns: begin_columns(alloc, matrix, first_flat, columns_two, first, second)?,
        rows: joined(alloc, rows_one, rows_two)?,
        columns: joined(alloc, columns_one, columns_two)?,
    })
}

// Gives the rows of side one, then the rows of the second connector.
fn last_rows(
    alloc: Global,
    matrix: &Matrix,
    flat: bool,
    rows: &[u32],
    first: Connector,
    second: Connector,
) -> Result<SignedLineList, Memory>
    requires column { first.column < matrix.now.width }
    requires second { HasConnectorLines flat matrix.now second }
    ensures { IfOk result (λ lines. lines ≡ last_rows (entry matrix.now) flat rows.now first
        second) }
{
    let corner = plain(second.row);
    if flat {
        framed(alloc, &[], rows, &[corner])
    } else {
        let other = matrix.entry(second.other, first.column);
        let sign = product(other, matrix.entry(second.row, first.column));
        let line = second.other;
        framed(alloc, &[], rows, &[SignedLine { line, sign }, corner])
    }
}

// Gives the columns of side one, then the columns of the second connector.
fn last_columns(
    alloc: Global,
    matrix: &Matrix,
    flat: bool,
    columns: &[u32],
    first: Connector,
    second: Connector,
) -> Result<SignedLineList, Memory>
    requires row { first.row < height matrix.now }
    requires second { HasConnectorLines flat matrix.now second }
    ensures { IfOk result (λ lines. lines ≡ last_columns (entry matrix.now) flat columns.now first
        second) }
{
    let corner = plain(second.column);
    if flat {
        let other = matrix.entry(first.row, second.other);
        let sign = product(other, matrix.entry(first.row, second.column));
        let line = second.other;
        framed(alloc, &[], columns, &[SignedLine { line, sign }, corner])
    } else {
        framed(alloc, &[], columns, &[corner])
    }
}

// Gives the rows of the first connector, then the rows of side two.
fn begin_rows(
    alloc: Global,
    matrix: &Matrix,
    flat: bool,
    rows: &[u32],
    first: Connector,
    second: Connector,
) -> Result<SignedLineList, Memory>
    requires first { HasConnectorLines flat matrix.now first }
    requires column { second.column < matrix.now.width }
    ensures { IfOk result (λ lines. lines ≡ begin_rows (entry matrix.now) flat rows.now first
        second) }
{
    let corner = SignedLine {
        line: first.row,
        sign: matrix.entry(first.row, second.column),
    };
    if flat {
        framed(alloc, &[corner], rows, &[])
    } else {
        let other = SignedLine {
            line: first.other,
            sign: matrix.entry(first.other, second.column),
        };
        framed(alloc, &[corner, other], rows, &[])
    }
}

// Gives the columns of the first connector, then the columns of side two.
fn begin_columns(
    alloc: Global,
    matrix: &Matrix,
    flat: bool,
    columns: &[u32],
    first: Connector,
    second: Connector,
) -> Result<SignedLineList, Memory>
    requires first { HasConnectorLines flat matrix.now first }
    requires row { second.row < height matrix.now }
    ensures { IfOk result (λ lines. lines ≡ begin_columns (entry matrix.now) flat columns.now first
        second) }
{
    let corner = SignedLine {
        line: first.column,
        sign: matrix.entry(second.row, first.column),
    };
    if flat {
        let other = SignedLine {
            line: first.other,
            sign: matrix.entry(second.row, first.other),
        };
        framed(alloc, &[corner, other], columns, &[])
    } else {
        framed(alloc, &[corner], columns, &[])
    }
}

fn core_lines(
    alloc: Global,
    sides: &Sides,
    first: Connector,
    second: Connector,
) -> Result<Arrangement, Memory>
    ensures { IfOk result (λ lines. lines ≡ core_lines sides.now first second) }
{
    let rows = [first.row, second.row, second.other];
    let columns = [first.column, first.other, second.column];
    let rows_one = lines_on(alloc, false, &[first.row], sides.rows_one.as_slice())?;
    let columns_one = lines_on(
        alloc,
        false,
        &[first.column, first.other],
        sides.columns_one.as_slice(),
    )?;
    let rows_two = lines_on(
        alloc,
        false,
        &[second.row, second.other],
        sides.rows_two.as_slice(),
    )?;
    let columns_two = lines_on(alloc, false, &[second.column], sides.columns_two.as_slice())?;
    let core_rows = [plain(first.row), plain(second.row), plain(second.other)];
    let core_columns = [
        plain(first.column),
        plain(first.other),
        plain(second.column),
    ];
    Ok(Arrangement {
        first_rows: framed(alloc, &[], rows_one.as_slice(), &core_rows)?,
        first_columns: framed(alloc, &[], columns_one.as_slice(), &core_columns)?,
        second_rows: framed(alloc, &core_rows, rows_two.as_slice(), &[])?,
        second_columns: framed(alloc, &core_columns, columns_two.as_slice(), &[])?,
        rows: joined_three(alloc, rows_one.as_slice(), &rows, rows_two.as_slice())?,
        columns: joined_three(
            alloc,
            columns_one.as_slice(),
            &columns,
            columns_two.as_slice(),
        )?,
    })
}
