// The columns that can make a fault with a set of rows.
ghost use Rattle.std.specs.Prelude.{◌≡◌, ◌<◌, ◌≤◌, ◌↔◌, ℕ, IfOk, IsTrue, length};
ghost use Rattle.std.specs.List.{AllByRecursion};
ghost use Rattle.cmr_base.specs.LineSets.{AllBelow, IsRowSet};
ghost use Rattle.cmr_base.specs.Matrix.{entry, height, is_nonzero, IsMatrix};
ghost use Rattle.cmr_base.specs.Members.{IsIn};
ghost use Rattle.balance.specs.CandidateColumns.{AreAlikeColumns, AreKept, AreKeptBelow, IsCandidate, IsLeastAlike};

use cmr_base::{Indices, MAX_ROWS, Matrix, Memory};
use parity::is_two_mod_four;
use std::alloc::Global;

/// Gives the least column of each class of alike columns with exactly two nonzeros in these rows.
pub fn kept_columns(alloc: Global, matrix: &Matrix, rows: &[u32]) -> Result<Indices, Memory>
    requires { IsRowSet matrix.now rows.now }
    ensures kept { IfOk result (AreKept matrix.now rows.now) }
    ensures shape { IfOk result (λ kept. IsMatrix matrix.now) }
{
    let mut kept = Indices::new(alloc);
    for column in 0..matrix.columns() {
        if is_kept(matrix, rows, kept.as_slice(), column) {
            kept.push(column)?;
        }
    }
    Ok(kept)
}

// Decides whether a column is kept. `before` lists the kept columns before it.
fn is_kept(matrix: &Matrix, rows: &[u32], before: &[u32], column: u32) -> bool
    requires matrix { IsMatrix matrix.now }
    requires rows { IsRowSet matrix.now rows.now }
    requires column { column < matrix.now.width }
    requires before { AreKeptBelow matrix.now rows.now column before.now }
    ensures { IsTrue result ↔ IsLeastAlike matrix.now rows.now column }
{
    is_candidate(matrix, rows, column) && !has_alike(matrix, rows, before, column)
}

/// Decides whether the column has exactly two nonzeros in these rows.
pub fn is_candidate(matrix: &Matrix, rows: &[u32], column: u32) -> bool
    requires rows { AllBelow (height matrix.now) rows.now }
    requires column { column < matrix.now.width }
    ensures { IsTrue result ↔ IsCandidate matrix.now rows.now column }
{
    let mut count = 0usize;
    for row in rows {
        if matrix.is_nonzero(*row, column) {
            count += 1;
        }
    }
    count == 2
}

// Decides whether one of these columns is alike a column.
fn has_alike(matrix: &Matrix, rows: &[u32], columns: &[u32], column: u32) -> bool
    requires matrix { IsMatrix matrix.now }
    requires rows { AllBelow (height matrix.now) rows.now }
    requires few { length rows.now ≤ MAX_ROWS }
    requires columns { AllBelow matrix.now.width columns.now }
    requires column { column < matrix.now.width }
    ensures { IsTrue result
        ↔ ((other : ℕ) × IsIn other columns.now
        × AreAlikeColumns matrix.now rows.now other column) }
{
    for other in columns {
        if are_alike(matrix, rows, *other, column) {
            return true;
        }
    }
    false
}

// Decides whether two columns join the same of these rows and are no fault together.
fn are_alike(matrix: &Matrix, rows: &[u32], first: u32, second: u32) -> bool
    requires matrix { IsMatrix matrix.now }
    requires rows { AllBelow (height matrix.now) rows.now }
    requires few { length rows.now ≤ MAX_ROWS }
    requires first { first < matrix.now.width }
    requires second { second < matrix.now.width }
    ensures { IsTrue result ↔ AreAlikeColumns matrix.now rows.now first second }
{
    if !join_same_rows(matrix, rows, first, second) {
        return false;
    }
    let sum = matrix.column_sum(rows, first) + matrix.column_sum(rows, second);
    !is_two_mod_four(sum)
}

fn join_same_rows(matrix: &Matrix, rows: &[u32], first: u32, second: u32) -> bool
    requires rows { AllBelow (height matrix.now) rows.now }
    requires first { first < matrix.now.width }
    requires second { second < matrix.now.width }
    ensures { IsTrue result
        ↔ AllByRecursion
        (λ row. is_nonzero (entry matrix.now row first) ≡ is_nonzero (entry matrix.now row second))
        rows.now }
{
    for row in rows {
        let is_first = matrix.is_nonzero(*row, first);
        let is_second = matrix.is_nonzero(*row, second);
        if is_first != is_second {
            return false;
        }
    }
    true
}
