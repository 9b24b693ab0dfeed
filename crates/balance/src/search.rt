// The search for the least balance fault, which tries the sets of the shorter side.
ghost use Rattle.std.specs.Prelude.{◌≤◌, IfOk};
ghost use Rattle.balance.specs.SearchedFaults.{HasSearchedFaults};

use crate::faults::Faults;
use cmr_base::{MAX_LINES, Matrix, Memory, RowsAndColumns};
use first_hit::Workers;
use leaf_enumerate::{LeastSubmatrix, least_submatrix};
use std::alloc::Global;
use std::thread::Threads;

/// Gives the least balance fault of a matrix whose shorter side has at most `budget` lines. Truemper's balanced
/// matrices are the matrices without a fault. The search tests the sets of the shorter side, rows in a tie, by
/// increasing number. The least set that makes a fault with some set of the other side gives the least fault, with
/// the least such set. The answer does not depend on the number of workers. The time doubles with each line of the
/// shorter side.
pub fn least_balance_fault<R: Threads + Sync>(
    rt: &R,
    alloc: Global,
    matrix: &Matrix,
    budget: u32,
    workers: Workers,
) -> Result<LeastSubmatrix, Memory>
    requires budget { budget ≤ MAX_LINES }
    ensures { IfOk result (HasSearchedFaults matrix.now budget) }
{
    let columns = matrix.transposed(alloc)?;
    let both = RowsAndColumns::of(matrix, &columns);
    let _rows = both.rows();
    least_submatrix(rt, alloc, &both, &Faults, budget, workers)
}
