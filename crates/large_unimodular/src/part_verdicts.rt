// The verdict on a part, by the numbers of its own lines.
ghost use Rattle.std.specs.Prelude.{◌≤◌, ◌↔◌, length, IfOk, IsTrue};
ghost use Rattle.cmr_base.specs.declared.limits.TheConstants.{MAX_COLUMNS, MAX_LINES, MAX_ROWS};
ghost use Rattle.sparse_matrix.specs.SparseRows.{AreCrossed, matrix_of_runs};
ghost use Rattle.split_search.specs.Decisions.{HaveAtMostTwo};
ghost use Rattle.interval_matrices.specs.Intervals.{IsIntervalMatrix};
ghost use Rattle.large_unimodular.specs.PartVerdicts.{IsPartVerdict, IsRightOn, IsTreeVerdict};

use cmr_base::{LineSet, MAX_COLUMNS, MAX_ROWS, Memory};
use core_parts::dense;
use first_hit::Workers;
use interval_matrices::has_interval_rows;
use open_parts::decompose;
use sparse_matrix::SparseMatrix;
use split_search::{Split, decide, have_at_most_two};
use std::alloc::Global;
use std::thread::Threads;
use tree_type::{VerdictOf, copy_of, verdict};

/// Whether a part is totally unimodular, by the numbers of its own lines.
#[derive(Debug, Drop)]
pub enum PartVerdict {
    Yes,
    /// It is not: these lines are a violator.
    No(LineSet),
    /// Undecided.
    Open,
}

// The verdict on a matrix with at most two nonzeros in each column. `columns` is the transposed matrix.
fn verdict_by_columns(
    alloc: Global,
    rows: &SparseMatrix,
    columns: &SparseMatrix,
) -> Result<PartVerdict, Memory>
    requires crossed { AreCrossed rows.now columns.now }
    requires few { HaveAtMostTwo columns.now }
    ensures { IfOk result (IsRightOn (matrix_of_runs rows.now)) }
{
    match decide(alloc, rows, columns)? {
        Split::Minus(_) => Ok(PartVerdict::Yes),
        Split::Violator(lines) => Ok(PartVerdict::No(lines)),
    }
}

// The verdict on a matrix with at most two nonzeros in each row.
fn verdict_by_rows(
    alloc: Global,
    rows: &SparseMatrix,
    columns: &SparseMatrix,
) -> Result<PartVerdict, Memory>
    requires crossed { AreCrossed rows.now columns.now }
    requires few { HaveAtMostTwo rows.now }
    ensures { IfOk result (IsRightOn (matrix_of_runs rows.now)) }
{
    let _height = rows.rows();
    let _width = columns.rows();
    match decide(alloc, columns, rows)? {
        Split::Minus(_) => Ok(PartVerdict::Yes),
        Split::Violator(lines) => Ok(PartVerdict::No(LineSet {
            rows: lines.columns,
            columns: lines.rows,
        })),
    }
}

// Whether the columns, or the rows, are intervals.
fn is_interval_matrix(rows: &SparseMatrix, columns: &SparseMatrix) -> bool
    requires crossed { AreCrossed rows.now columns.now }
    ensures { IsTrue result ↔ IsIntervalMatrix (matrix_of_runs rows.now) }
{
    let _height = rows.rows();
    let _width = columns.rows();
    has_interval_rows(columns) || has_interval_rows(rows)
}

// The verdict of the decomposition of a small matrix.
fn verdict_by_tree<R: Threads + Sync>(
    rt: &R,
    alloc: Global,
    part: &SparseMatrix,
    limit: u32,
    pivots: u32,
    workers: Workers,
) -> Result<PartVerdict, Memory>
    requires limit { limit ≤ MAX_LINES }
    requires rows { length part.now.runs ≤ MAX_ROWS }
    requires columns { part.now.width ≤ MAX_COLUMNS }
    ensures { IfOk result (IsTreeVerdict limit pivots (matrix_of_runs part.now)) }
{
    let matrix = dense(alloc, part)?;
    let tree = decompose(rt, alloc, &matrix, limit, pivots, workers)?;
    match verdict(&tree) {
        VerdictOf::Yes => Ok(PartVerdict::Yes),
        VerdictOf::No(fault) => Ok(PartVerdict::No(copy_of(alloc, fault)?)),
        VerdictOf::Undecided(_) => Ok(PartVerdict::Open),
    }
}

/// The verdict on a part, by the numbers of its own lines.
pub fn part_verdict<R: Threads + Sync>(
    rt: &R,
    alloc: Global,
    part: &SparseMatrix,
    limit: u32,
    pivots: u32,
    workers: Workers,
) -> Result<PartVerdict, Memory>
    requires { limit ≤ MAX_LINES }
    ensures { IfOk result (IsPartVerdict limit pivots (matrix_of_runs part.now)) }
{
    let _height = part.rows();
    let columns = part.transposed(alloc)?;
    if have_at_most_two(&columns) {
        return verdict_by_columns(alloc, part, &columns);
    }
    if have_at_most_two(part) {
        return verdict_by_rows(alloc, part, &columns);
    }
    if is_interval_matrix(part, &columns) {
        return Ok(PartVerdict::Yes);
    }
    if part.rows() > MAX_ROWS || part.columns() > MAX_COLUMNS {
        return Ok(PartVerdict::Open);
    }
    verdict_by_tree(rt, alloc, part, limit, pivots, workers)
}
