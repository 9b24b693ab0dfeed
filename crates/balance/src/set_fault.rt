// The columns that make a fault with a set of rows.
ghost use Rattle.std.specs.Prelude.{◌≡◌, ◌<◌, ◌≤◌, ◌↔◌, IfOk, IfSome, IfNone, IsTrue, length};
ghost use Rattle.std.specs.List.{AllByRecursion};
ghost use Rattle.cmr_base.specs.LineSets.{AllBelow, IsRowSet};
ghost use Rattle.cmr_base.specs.Matrix.{entry, height, IsMatrix};
ghost use Rattle.balance.specs.BalanceFaults.{column_nonzeros, row_nonzeros, IsBalanceFault};
ghost use Rattle.balance.specs.CandidateColumns.{AreKept, MakeFault};

use crate::kept::{is_candidate, kept_columns};
use cmr_base::{Indices, MAX_COLUMNS, MAX_ROWS, Matrix, Memory};
use parity::is_two_mod_four;
use std::alloc::Global;

/// Gives the kept columns of these rows, if they make a fault with the rows.
pub fn fault_columns(
    alloc: Global,
    matrix: &Matrix,
    rows: &[u32],
) -> Result<Option<Indices>, Memory>
    requires { IsRowSet matrix.now rows.now }
    ensures kept { IfOk result (λ found. IfSome found (AreKept matrix.now rows.now)) }
    ensures fault { IfOk result (λ found.
        IfSome found (IsBalanceFault (entry matrix.now) rows.now)) }
    ensures none { IfOk result (λ found. IfNone found (¬ (MakeFault matrix.now rows.now))) }
    ensures shape { IfOk result (λ found. IsMatrix matrix.now) }
{
    let kept = kept_columns(alloc, matrix, rows)?;
    if is_fault(matrix, rows, kept.as_slice()) {
        Ok(Some(kept))
    } else {
        Ok(None)
    }
}

fn is_fault(matrix: &Matrix, rows: &[u32], columns: &[u32]) -> bool
    requires rows { AllBelow (height matrix.now) rows.now }
    requires columns { AllBelow matrix.now.width columns.now }
    requires few_rows { length rows.now ≤ MAX_ROWS }
    requires few_columns { length columns.now ≤ MAX_COLUMNS }
    ensures { IsTrue result ↔ IsBalanceFault (entry matrix.now) rows.now columns.now }
{
    have_two_in_rows(matrix, rows, columns)
        && have_two_in_columns(matrix, rows, columns)
        && is_two_mod_four(matrix.sum_on(rows, columns))
}

fn have_two_in_rows(matrix: &Matrix, rows: &[u32], columns: &[u32]) -> bool
    requires rows { AllBelow (height matrix.now) rows.now }
    requires columns { AllBelow matrix.now.width columns.now }
    ensures { IsTrue result
        ↔ AllByRecursion (λ row. row_nonzeros (entry matrix.now) columns.now row ≡ 2) rows.now }
{
    for row in rows {
        if !has_two(matrix, *row, columns) {
            return false;
        }
    }
    true
}

// Decides whether the row has exactly two nonzeros in these columns.
fn has_two(matrix: &Matrix, row: u32, columns: &[u32]) -> bool
    requires row { row < height matrix.now }
    requires columns { AllBelow matrix.now.width columns.now }
    ensures { IsTrue result ↔ (row_nonzeros (entry matrix.now) columns.now row ≡ 2) }
{
    let mut count = 0usize;
    for column in columns {
        if matrix.is_nonzero(row, *column) {
            count += 1;
        }
    }
    count == 2
}

fn have_two_in_columns(matrix: &Matrix, rows: &[u32], columns: &[u32]) -> bool
    requires rows { AllBelow (height matrix.now) rows.now }
    requires columns { AllBelow matrix.now.width columns.now }
    ensures { IsTrue result
        ↔ AllByRecursion
        (λ column. column_nonzeros (entry matrix.now) rows.now column ≡ 2)
        columns.now }
{
    for column in columns {
        if !is_candidate(matrix, rows, *column) {
            return false;
        }
    }
    true
}
