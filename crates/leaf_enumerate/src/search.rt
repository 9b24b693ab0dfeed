// The least submatrix of a kind, by the sets of the shorter side.
ghost use Rattle.std.specs.Prelude.{◌≤◌, ◌^◌, IfOk, IfSome, IfNone};
ghost use Rattle.cmr_base.specs.Matrix.{height, transposed};
ghost use Rattle.first_hit.specs.First.{NoneBetween};
ghost use Rattle.leaf_enumerate.specs.Searched.{HasSearched, HasSearchedFor, HoldsNowhere, IsLeastOf, shorter_side};

use crate::row_probe::RowProbe;
use crate::sought::Sought;
use crate::violators::Violators;
use cmr_base::{LineSet, MAX_LINES, Matrix, Memory, RowsAndColumns, set_count};
use first_hit::{Workers, first_hit};
use std::alloc::Global;
use std::thread::Threads;

/// The result of a search for the least submatrix of a kind.
#[derive(Debug, Drop)]
pub enum LeastSubmatrix {
    /// The matrix has no such submatrix.
    Clean,
    /// The least submatrix.
    Found(LineSet),
    /// The shorter side has more lines than the budget. `shorter` is its number of lines.
    TooMany { shorter: u32 },
}

/// Gives the least violator of a matrix whose shorter side has at most `budget` lines. The search tries the sets of
/// the shorter side, rows in a tie, by increasing number, and for each set it finds the least set of the other side.
/// The answer does not depend on the number of workers.
pub fn least_violator<R: Threads + Sync>(
    rt: &R,
    alloc: Global,
    matrix: &Matrix,
    budget: u32,
    workers: Workers,
) -> Result<LeastSubmatrix, Memory>
    requires budget { budget ≤ MAX_LINES }
    ensures { IfOk result (HasSearched matrix.now budget) }
{
    let columns = matrix.transposed(alloc)?;
    let both = RowsAndColumns::of(matrix, &columns);
    least_violator_of(rt, alloc, &both, budget, workers)
}

/// Gives the least violator of a matrix that is available by rows and by columns.
pub fn least_violator_of<R: Threads + Sync>(
    rt: &R,
    alloc: Global,
    matrix: &RowsAndColumns<'_>,
    budget: u32,
    workers: Workers,
) -> Result<LeastSubmatrix, Memory>
    requires budget { budget ≤ MAX_LINES }
    ensures { IfOk result (HasSearched matrix.now budget) }
{
    let _rows = matrix.rows();
    least_submatrix(rt, alloc, matrix, &Violators, budget, workers)
}

/// Gives the least submatrix of a kind in a matrix whose shorter side has at most `budget` lines. The search tests the
/// sets of the shorter side, rows in a tie, by increasing number. The answer does not depend on the number of
/// workers. The time doubles with each line of the shorter side.
pub fn least_submatrix<R: Threads + Sync, S: Sought>(
    rt: &R,
    alloc: Global,
    matrix: &RowsAndColumns<'_>,
    sought: &S,
    budget: u32,
    workers: Workers,
) -> Result<LeastSubmatrix, Memory>
    requires budget { budget ≤ MAX_LINES }
    ensures { IfOk result (HasSearchedFor (S.holds sought.now) (S.is_least sought.now) matrix.now
        budget) }
{
    let shorter = matrix.rows().min(matrix.columns());
    if shorter > budget {
        return Ok(LeastSubmatrix::TooMany { shorter });
    }
    match least(rt, alloc, matrix, sought, workers)? {
        Some(lines) => Ok(LeastSubmatrix::Found(lines)),
        None => Ok(LeastSubmatrix::Clean),
    }
}

fn least<R: Threads + Sync, S: Sought>(
    rt: &R,
    alloc: Global,
    matrix: &RowsAndColumns<'_>,
    sought: &S,
    workers: Workers,
) -> Result<Option<LineSet>, Memory>
    requires few { shorter_side matrix.now ≤ MAX_LINES }
    ensures least { IfOk result (λ answer. IfSome answer (λ lines.
        IsLeastOf (S.is_least sought.now) matrix.now lines.rows lines.columns)) }
    ensures none { IfOk result (λ answer.
        IfNone answer (HoldsNowhere (S.holds sought.now) matrix.now)) }
{
    if matrix.rows() <= matrix.columns() {
        return least_by_rows(rt, alloc, matrix, sought, workers);
    }
    match least_by_rows(rt, alloc, &matrix.transposed(), sought, workers)? {
        Some(lines) => Ok(Some(LineSet {
            rows: lines.columns,
            columns: lines.rows,
        })),
        None => Ok(None),
    }
}

/// The number of row sets that one worker tests in less time than the start of other workers takes.
const FEW_SETS: u64 = 2048;

// Gives the submatrix with the least row set, and among these submatrices the one with the least column set.
fn least_by_rows<R: Threads + Sync, S: Sought>(
    rt: &R,
    alloc: Global,
    matrix: &RowsAndColumns<'_>,
    sought: &S,
    workers: Workers,
) -> Result<Option<LineSet>, Memory>
    requires few { height matrix.now ≤ MAX_LINES }
    ensures least { IfOk result (λ answer. IfSome answer (λ lines.
        S.is_least sought.now matrix.now lines.rows lines.columns)) }
    ensures none { IfOk result (λ answer. IfNone answer (NoneBetween
        (S.holds sought.now matrix.now) 0 (2 ^ height matrix.now))) }
{
    let matrix = matrix.by_rows();
    let total = set_count(matrix.rows());
    let workers = if total <= FEW_SETS {
        Workers::new(1)
    } else {
        workers
    };
    match first_hit(rt, alloc, workers, total, &RowProbe { matrix, sought })? {
        Some(number) => Ok(Some(sought.lines(alloc, matrix, number)?)),
        None => Ok(None),
    }
}
