ghost use Rattle.std.specs.Prelude.{◌≡◌, ◌≢◌, ◌<◌, ◌≤◌, ◌++◌, ◌↔◌, [], ◌∷◌, if◌then◌else◌, IfOk, IsTrue, OnOk, pos, filter, nat_lt, ℕ};
ghost use Rattle.std.specs.List.Sorted.{IsStrictlyIncreasing};
ghost use Rattle.cmr_base.specs.LineSets.{AllBelow, IsRowSet, IsColumnSet};
ghost use Rattle.cmr_base.specs.Matrix.{height, entry};
ghost use Rattle.cmr_base.specs.Members.{IsIn};
ghost use Rattle.cmr_base.specs.Sums.{IsOdd};
ghost use Rattle.cmr_base.specs.Violator.{IsViolator};
ghost use Rattle.ghouila.specs.PivotLaws.{pivot_at, AreLinesBefore};
ghost use Rattle.pivots.specs.ChosenLines.{with_or_without};
ghost use Rattle.cmr_base.specs.PlacedPivots.{pivoted_part, IsPlaceIn};
ghost use Rattle.pivots.specs.PivotedParts.{AreAmong};

use cmr_base::{Indices, LineSet, MAX_COLUMNS, MAX_ROWS, Matrix, Memory, Position};
use std::alloc::Global;

/// Maps a violator of the pivot at a nonzero back to a violator of the matrix. The two have the same lines, except the row and
/// the column of the pivot: the row is in the set if the sum of its column over the violator's rows is odd, and the column if
/// the sum of its row over the violator's columns is odd.
pub fn violator_before(
    alloc: Global,
    matrix: &Matrix,
    row: u32,
    column: u32,
    lines: &LineSet,
) -> Result<LineSet, Memory>
    requires row { row < height matrix.now }
    requires column { column < matrix.now.width }
    requires nonzero { entry matrix.now row column ≢ pos 0 }
    requires rows { AllBelow (height matrix.now) lines.now.rows }
    requires columns { AllBelow matrix.now.width lines.now.columns }
    ensures lines { IfOk result (λ before. AreLinesBefore matrix.now row column lines.now.rows
        lines.now.columns before.rows before.columns) }
    ensures row_set { IfOk result (λ before. IsRowSet matrix.now before.rows) }
    ensures column_set { IfOk result (λ before. IsColumnSet matrix.now before.columns) }
    ensures violator { IsViolator (entry (pivot_at matrix.now row column)) lines.now.rows
        lines.now.columns
        → IfOk result (λ before. IsViolator (entry matrix.now) before.rows before.columns) }
{
    let rows = lines.rows.as_slice();
    let columns = lines.columns.as_slice();
    prove!(rows.len() <= matrix.rows() as usize);
    prove!(columns.len() <= matrix.columns() as usize);
    let has_row = is_odd(matrix.column_sum(rows, column));
    let has_column = is_odd(matrix.row_sum(row, columns));
    Ok(LineSet {
        rows: with_or_without(alloc, &lines.rows, row, has_row)?,
        columns: with_or_without(alloc, &lines.columns, column, has_column)?,
    })
}

/// Maps a violator of the pivot of a submatrix in its place back to a violator of the matrix. Both have lines of the
/// submatrix.
pub fn violator_before_part(
    alloc: Global,
    matrix: &Matrix,
    _lines: &LineSet,
    place: Position,
    fault: &LineSet,
) -> Result<LineSet, Memory>
    requires rows { IsRowSet matrix.now _lines.now.rows }
    requires columns { IsColumnSet matrix.now _lines.now.columns }
    requires place { IsPlaceIn matrix.now _lines.now place }
    requires among { AreAmong _lines.now fault.now.rows fault.now.columns }
    ensures lines { IfOk result (λ before. AreLinesBefore matrix.now place.row place.column
        fault.now.rows fault.now.columns before.rows before.columns) }
    ensures row_set { IfOk result (λ before. IsRowSet matrix.now before.rows) }
    ensures column_set { IfOk result (λ before. IsColumnSet matrix.now before.columns) }
    ensures among { IfOk result (λ before. AreAmong _lines.now before.rows before.columns) }
    ensures violator { IsViolator (entry (pivoted_part matrix.now _lines.now place)) fault.now.rows
        fault.now.columns
        → IfOk result (λ before. IsViolator (entry matrix.now) before.rows before.columns) }
{
    let before = violator_before(alloc, matrix, place.row, place.column, fault)?;
    Ok(before)
}

fn is_odd(sum: i32) -> bool
    ensures { IsTrue result ↔ IsOdd sum }
{
    sum.rem_euclid(2) == 1
}

// The set with a line or without it.
fn with_or_without(alloc: Global, lines: &Indices, line: u32, has: bool) -> Result<Indices, Memory>
    ensures lines { IfOk result (λ made. made ≡ with_or_without lines.now line has) }
    ensures increasing { IfOk result IsStrictlyIncreasing }
{
    let mut made = lines_up_to(alloc, lines, line, has)?;
    push_above(&mut made, lines, line)?;
    let _count = made.len();
    Ok(made)
}

// The lines below a line, with or without that line.
fn lines_up_to(alloc: Global, lines: &Indices, line: u32, has: bool) -> Result<Indices, Memory>
    ensures { IfOk result (λ made. made ≡ filter (λ other. nat_lt other line) lines.now
        ++ (if has then line ∷ [] else [])) }
{
    let mut made = lines_below(alloc, lines, line)?;
    if has {
        made.push(line)?;
    }
    Ok(made)
}

fn lines_below(alloc: Global, lines: &Indices, bound: u32) -> Result<Indices, Memory>
    ensures { IfOk result (λ made. made ≡ filter (λ line. nat_lt line bound) lines.now) }
{
    let mut made = Indices::new(alloc);
    for line in lines.as_slice() {
        if *line < bound {
            made.push(*line)?;
        }
    }
    Ok(made)
}

// Appends the lines above a bound to lines that are not above it.
fn push_above(made: &mut Indices, lines: &Indices, bound: u32) -> Result<(), Memory>
    requires { (line : ℕ) → IsIn line made.old → line ≤ bound }
    ensures { OnOk result (made.new ≡ made.old ++ filter (λ line. nat_lt bound line) lines.now) }
{
    for line in lines.as_slice() {
        if *line > bound {
            made.push(*line)?;
        }
    }
    Ok(())
}
