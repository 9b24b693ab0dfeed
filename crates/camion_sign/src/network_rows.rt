// First rows without a fault, because they agree with a network matrix or with a transposed one.
ghost use Rattle.std.specs.Prelude.{◌≤◌, IfOk};
ghost use Rattle.cmr_base.specs.Matrix.{height};
ghost use Rattle.network_orient.specs.FirstRows.{HasNoFaultBefore};

use cmr_base::{LineSet, Memory, RowsAndColumns};
use network_orient::rows_without_fault;
use std::alloc::Global;

// Walks without a search for a tree find the first fault sooner if columns have at most this number of nonzeros on average.
const FEW: u32 = 8;

// The first prefix that is tested has this number of rows more than those that have no fault.
const ROWS: u32 = 64;

// Walks find a fault in rows with this number of nonzeros sooner than a search for a tree of fewer rows.
const NONZEROS: u32 = 20480;

/// The number of first rows that the search skips, since they have no fault.
pub fn passed_rows(alloc: Global, matrix: &RowsAndColumns<'_>) -> Result<u32, Memory>
    ensures { IfOk result (HasNoFaultBefore matrix.now) }
{
    if is_sparse(matrix) {
        return Ok(0);
    }
    rows_without_fault(alloc, matrix)
}

/// The same if the whole matrix has no tree, from a number of first rows on that have no fault. The search tests a few more rows
/// first, so it costs little if no longer prefix has a tree.
pub fn passed_prefix(alloc: Global, matrix: &RowsAndColumns<'_>, first: u32) -> Result<u32, Memory>
    requires { HasNoFaultBefore matrix.now first }
    ensures { IfOk result (HasNoFaultBefore matrix.now) }
{
    let rows = matrix.rows();
    if is_sparse(matrix) || first >= rows || rows - first <= ROWS {
        return Ok(first);
    }
    let near = first + ROWS;
    let found = prefix_without_fault(alloc, matrix, near)?;
    if found < near {
        return Ok(first);
    }
    passed_between(alloc, matrix, found, rows)
}

// The same if a given number of first rows has no tree. The search halves the difference of both numbers until it is small.
fn passed_between(
    alloc: Global,
    matrix: &RowsAndColumns<'_>,
    first: u32,
    rows: u32,
) -> Result<u32, Memory>
    requires passed { HasNoFaultBefore matrix.now first }
    requires inside { rows ≤ height matrix.now }
    ensures { IfOk result (HasNoFaultBefore matrix.now) }
{
    let few = few_rows(matrix);
    let mut passed = first;
    let mut end = rows;
    'halves: while passed < end && end - passed > few {
        let middle = passed + (end - passed) / 2;
        let found = prefix_without_fault(alloc, matrix, middle)?;
        if found < middle {
            end = middle;
        }
        if found > passed {
            passed = found;
        }
    }
    Ok(passed)
}

/// The number of first rows, at most a given number, that have no fault because a tree shows it. It is 0 if the given number of
/// first rows has no tree, and in a sparse matrix, where walks are faster.
pub fn passed_before(alloc: Global, matrix: &RowsAndColumns<'_>, rows: usize) -> Result<u32, Memory>
    ensures few { IfOk result (λ passed. passed ≤ rows) }
    ensures passed { IfOk result (HasNoFaultBefore matrix.now) }
{
    if is_sparse(matrix) {
        return Ok(0);
    }
    let all = matrix.rows();
    if rows >= all as usize {
        return prefix_without_fault(alloc, matrix, all);
    }
    prefix_without_fault(alloc, matrix, rows as u32)
}

// The number of rows in which walks find a fault sooner than a search for a tree of fewer rows.
fn few_rows(matrix: &RowsAndColumns<'_>) -> u32
    ensures { 1 ≤ result }
{
    let average = matrix.by_rows().nonzeros() / matrix.rows().max(1);
    (NONZEROS / average.max(1)).max(1)
}

// Whether columns have few nonzeros on average.
fn is_sparse(matrix: &RowsAndColumns<'_>) -> bool {
    matrix.by_rows().nonzeros() / FEW <= matrix.columns()
}

// The number of first rows, at most a given number, that have no fault by a tree of the first rows.
fn prefix_without_fault(
    alloc: Global,
    matrix: &RowsAndColumns<'_>,
    rows: u32,
) -> Result<u32, Memory>
    requires { rows ≤ height matrix.now }
    ensures few { IfOk result (λ passed. passed ≤ rows) }
    ensures passed { IfOk result (HasNoFaultBefore matrix.now) }
{
    let lines = LineSet::all(alloc, rows, matrix.columns())?;
    let prefix = matrix.by_rows().part(alloc, &lines)?;
    let columns = matrix.transposed_part(alloc, &lines)?;
    let passed = rows_without_fault(alloc, &RowsAndColumns::of(&prefix, &columns))?;
    Ok(passed.min(rows))
}
