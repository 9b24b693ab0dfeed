// The greedy search for a minimal submatrix that lacks a property.
ghost use Rattle.std.specs.Prelude.{◌≡◌, ◌≤◌, ◌+◌, filter, MatchOption, IfOk, IfSome};
ghost use Rattle.std.specs.List.Sorted.{IsStrictlyIncreasing};
ghost use Rattle.cmr_base.specs.Matrix.{IsMatrix, height};
ghost use Rattle.cmr_base.specs.LineSets.{AllBelow, IsRowSet, IsColumnSet, submatrix};
ghost use Rattle.cmr_base.specs.GreedySets.{IsHereditary, IsGreedyFrom, IsGreedySet, IsMinimalWithout};
ghost use Rattle.minimal_sets.specs.LeftOut.{lines_between, rows_left, columns_left, left_submatrix, AreLeft, is_outside};

use crate::property::Property;
use cmr_base::{Indices, LineSet, MAX_COLUMNS, MAX_ROWS, Matrix, Memory};
use std::alloc::Global;

/// Gives the lines of a minimal submatrix that lacks a property, and `None` if and only if the matrix has the
/// property. The search tries all lines once, rows first, and removes each line if the remaining submatrix still
/// lacks the property.
pub fn minimal_without<P: Property>(
    alloc: Global,
    matrix: &Matrix,
    property: &P,
) -> Result<Option<LineSet>, Memory>
    requires domain { P.domain property.now matrix.now }
    requires hereditary { IsHereditary (P.holds property.now) }
    ensures found { IfOk result (λ found. MatchOption found
        (P.holds property.now matrix.now)
        (λ lines. (¬ P.holds property.now matrix.now)
        × IsGreedySet (P.holds property.now) matrix.now lines.rows lines.columns)) }
    ensures minimal { IfOk result (λ found. IfSome found (λ lines.
        IsMinimalWithout (P.holds property.now) matrix.now lines.rows lines.columns)) }
{
    let all = LineSet::all(alloc, matrix.rows(), matrix.columns())?;
    if property.holds_on(alloc, matrix, &all)? {
        return Ok(None);
    }
    let left = leave_out(alloc, matrix, property, all)?;
    Ok(Some(left))
}

// Removes each line in turn if the remaining submatrix still lacks the property. It tries many lines at once: if they
// can be removed together, each of them can be removed in turn.
fn leave_out<P: Property>(
    alloc: Global,
    matrix: &Matrix,
    property: &P,
    lines: LineSet,
) -> Result<LineSet, Memory>
    requires shape { IsMatrix matrix.now }
    requires domain { P.domain property.now matrix.now }
    requires hereditary { IsHereditary (P.holds property.now) }
    requires rows { IsRowSet matrix.now lines.rows }
    requires columns { IsColumnSet matrix.now lines.columns }
    requires lacks { ¬ P.holds property.now (submatrix matrix.now lines.rows lines.columns) }
    ensures { IfOk result (λ left. IsGreedyFrom
        (P.holds property.now)
        matrix.now
        (lines_between (height matrix.now) 0 (height matrix.now + matrix.now.width))
        lines.rows lines.columns left.rows left.columns) }
{
    let end = matrix.rows() + matrix.columns();
    let mut left = lines;
    let mut next = 0;
    let mut tried = 1;
    'lines: while next < end {
        let count = tried.min(end - next);
        match lacking_without(alloc, matrix, property, &left, next, count)? {
            Some(fewer) => {
                left = fewer;
                next += count;
                tried = 2 * count;
            }
            None if count > 1 => tried = count / 2,
            None => next += 1,
        }
    }
    Ok(left)
}

// Gives the set without the `count` lines from a number on, if the remaining submatrix still lacks the property.
fn lacking_without<P: Property>(
    alloc: Global,
    matrix: &Matrix,
    property: &P,
    lines: &LineSet,
    from: u32,
    count: u32,
) -> Result<Option<LineSet>, Memory>
    requires shape { IsMatrix matrix.now }
    requires domain { P.domain property.now matrix.now }
    requires rows { IsRowSet matrix.now lines.now.rows }
    requires columns { IsColumnSet matrix.now lines.now.columns }
    requires few { from + count ≤ height matrix.now + matrix.now.width }
    ensures { IfOk result (λ found. MatchOption found
        (P.holds property.now (left_submatrix matrix.now lines.now from count))
        (AreLeft (P.holds property.now) matrix.now lines.now from count)) }
{
    let fewer = without_run(alloc, lines, matrix.rows(), from, count)?;
    if property.holds_on(alloc, matrix, &fewer)? {
        return Ok(None);
    }
    Ok(Some(fewer))
}

// Gives the set without the `count` lines from a number on. The columns are numbered after the rows.
fn without_run(
    alloc: Global,
    lines: &LineSet,
    height: u32,
    from: u32,
    count: u32,
) -> Result<LineSet, Memory>
    requires height { height ≤ MAX_ROWS }
    requires few { from + count ≤ MAX_ROWS + MAX_COLUMNS }
    requires rows { AllBelow height lines.now.rows }
    requires columns { AllBelow MAX_COLUMNS lines.now.columns }
    ensures rows { IfOk result (λ fewer. fewer.rows ≡ rows_left lines.now.rows
        (lines_between height from count)) }
    ensures columns { IfOk result (λ fewer. fewer.columns
        ≡ columns_left lines.now.columns (lines_between height from count)) }
{
    let rows = lines.rows.as_slice();
    let columns = lines.columns.as_slice();
    Ok(LineSet {
        rows: outside(alloc, rows, 0, from, count)?,
        columns: outside(alloc, columns, height, from, count)?,
    })
}

// Gives each number with `before + number` not among the `count` numbers from `from` on.
fn outside(
    alloc: Global,
    numbers: &[u32],
    before: u32,
    from: u32,
    count: u32,
) -> Result<Indices, Memory>
    requires increasing { IsStrictlyIncreasing numbers.now }
    requires small { AllBelow MAX_ROWS numbers.now }
    requires before { before ≤ MAX_ROWS }
    requires few { from + count ≤ MAX_ROWS + MAX_COLUMNS }
    ensures { IfOk result (λ indices. indices ≡ filter (is_outside before from count) numbers.now) }
{
    let mut indices = Indices::new(alloc);
    for number in numbers {
        let place = before + *number;
        if place < from || from + count <= place {
            indices.push(*number)?;
        }
    }
    Ok(indices)
}
