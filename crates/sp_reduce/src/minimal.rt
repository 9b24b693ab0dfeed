// Minimal submatrices that are not series-parallel.
ghost use Rattle.std.specs.Prelude.{◌≡◌, ◌≤◌, ◌+◌, ◌↔◌, [], IsTrue, MatchOption, IfOk, IfSome};
ghost use Rattle.cmr_base.specs.Matrix.{height, IsMatrix};
ghost use Rattle.cmr_base.specs.LineSets.{IsRowSet, IsColumnSet, submatrix};
ghost use Rattle.cmr_base.specs.GreedySets.{IsGreedySet, IsMinimalWithout};
ghost use Rattle.cmr_base.specs.Reductions.{IsSeriesParallel};
ghost use Rattle.minimal_sets.specs.LeftOut.{left_submatrix};
ghost use Rattle.sp_reduce.specs.GreedyRests.{IsRestWithout, IsGreedySearch};

use crate::needed::needs_all_lines;
use crate::omitted::without_run;
use crate::removal::reduce_lines;
use cmr_base::{LineSet, MAX_ROWS, Matrix, Memory};
use std::alloc::Global;

/// The lines of a minimal submatrix that is not series-parallel: the search visits all lines once, rows first, and removes
/// each line if the remaining submatrix is still not series-parallel. The result is `None` if and only if the matrix is
/// series-parallel. With `binary` a line is not reducible as the negative of another line.
pub fn minimal_not_sp(
    alloc: Global,
    matrix: &Matrix,
    binary: bool,
) -> Result<Option<LineSet>, Memory>
    ensures found { IfOk result (λ found. MatchOption found
        (IsSeriesParallel binary matrix.now)
        (λ lines. (¬ IsSeriesParallel binary matrix.now)
        × IsGreedySet (IsSeriesParallel binary) matrix.now lines.rows lines.columns)) }
    ensures minimal { IfOk result (λ found. IfSome found (λ lines.
        IsMinimalWithout (IsSeriesParallel binary) matrix.now lines.rows lines.columns)) }
{
    let all = LineSet::all(alloc, matrix.rows(), matrix.columns())?;
    match rest_without(alloc, matrix, &all, 0, 0, binary)? {
        Some(rest) => Ok(Some(greedy_rest(alloc, matrix, rest, binary)?)),
        None => Ok(None),
    }
}

// Removes each line in turn if the remaining submatrix is still not series-parallel. It tries many lines at once: if they
// can be removed together, each of them can be removed in turn. Then it removes what is reducible, which does not change
// the result: in the stated order a line is removed before its twins, and each other line that is removed has at most one
// nonzero.
fn greedy_rest(
    alloc: Global,
    matrix: &Matrix,
    lines: LineSet,
    binary: bool,
) -> Result<LineSet, Memory>
    requires shape { IsMatrix matrix.now }
    requires search { IsGreedySearch binary matrix.now 0 lines.rows lines.columns }
    ensures { IfOk result (λ left. IsGreedySet (IsSeriesParallel binary) matrix.now left.rows
        left.columns) }
{
    if needs_all_lines(alloc, matrix, &lines, binary)? {
        return Ok(lines);
    }
    let end = matrix.rows() + matrix.columns();
    let mut left = lines;
    let mut next = 0;
    let mut tried = MAX_ROWS;
    'lines: while next < end {
        let count = tried.min(end - next);
        match rest_without(alloc, matrix, &left, next, count, binary)? {
            Some(rest) => {
                if needs_all_lines(alloc, matrix, &rest, binary)? {
                    return Ok(rest);
                }
                left = rest;
                next += count;
                tried = 2 * count;
            }
            None if count > 1 => tried = count / 2,
            None => next += 1,
        }
    }
    Ok(left)
}

// The lines that the stated order leaves of a set without the `count` lines from a number on, or `None` if it leaves none.
fn rest_without(
    alloc: Global,
    matrix: &Matrix,
    lines: &LineSet,
    from: u32,
    count: u32,
    binary: bool,
) -> Result<Option<LineSet>, Memory>
    requires shape { IsMatrix matrix.now }
    requires rows { IsRowSet matrix.now lines.now.rows }
    requires columns { IsColumnSet matrix.now lines.now.columns }
    requires few { from + count ≤ height matrix.now + matrix.now.width }
    ensures { IfOk result (λ found. MatchOption found
        (IsSeriesParallel binary (left_submatrix matrix.now lines.now from count))
        (IsRestWithout binary matrix.now lines.now from count)) }
{
    let fewer = without_run(alloc, lines, matrix.rows(), from, count)?;
    if fewer.rows.len() == 0 {
        return Ok(None);
    }
    let rest = reduce_lines(alloc, matrix, &fewer, binary)?.rest;
    if has_no_lines(&rest) {
        return Ok(None);
    }
    Ok(Some(rest))
}

pub fn is_series_parallel(
    alloc: Global,
    matrix: &Matrix,
    lines: &LineSet,
    binary: bool,
) -> Result<bool, Memory>
    requires shape { IsMatrix matrix.now }
    requires rows { IsRowSet matrix.now lines.now.rows }
    requires columns { IsColumnSet matrix.now lines.now.columns }
    ensures { IfOk result (λ yes. IsTrue yes ↔ IsSeriesParallel binary (submatrix matrix.now
        lines.now.rows lines.now.columns)) }
{
    let reduction = reduce_lines(alloc, matrix, lines, binary)?;
    Ok(has_no_lines(&reduction.rest))
}

fn has_no_lines(lines: &LineSet) -> bool
    ensures { IsTrue result ↔ ((lines.now.rows ≡ []) × (lines.now.columns ≡ [])) }
{
    lines.rows.len() == 0 && lines.columns.len() == 0
}
