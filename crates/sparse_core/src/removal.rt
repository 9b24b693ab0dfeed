// Zero and unit lines are removed.
ghost use Rattle.std.specs.Prelude.{◌≡◌, ◌<◌, IfOk, OnOk, length};
ghost use Rattle.std.specs.List.{AllByRecursion};
ghost use Rattle.sparse_matrix.specs.SparseRows.{AreCrossed, IsNonzeroWithin};
ghost use Rattle.sparse_core.specs.TwoCores.{ColumnHasTwo, IsLater, IsTested, RowHasTwo, HasRemoved};

use crate::nonzeros::{column_reason, row_reason};
use cmr_base::{Line, Memory, Step};
use sparse_matrix::{Nonzero, SparseMatrix};
use std::alloc::Global;

/// The removals in their order, and a mark for each row and each column that remains.
#[derive(Debug, Drop)]
pub struct TwoCore {
    pub steps: Vec<Step>,
    pub rows: Vec<bool>,
    pub columns: Vec<bool>,
}

/// All lines.
pub fn all_lines(alloc: Global, rows: &SparseMatrix) -> Result<TwoCore, Memory>
    ensures { IfOk result (HasRemoved rows.now) }
{
    Ok(TwoCore {
        steps: Vec::new(alloc),
        rows: vec![in alloc; true; rows.rows() as usize]?,
        columns: vec![in alloc; true; rows.columns() as usize]?,
    })
}

/// Removes a row if at most one of its nonzeros remains. Returns whether it is removed.
pub fn remove_row(core: &mut TwoCore, rows: &SparseMatrix, row: u32) -> Result<bool, Memory>
    requires row { row < length rows.now.runs }
    requires stands { HasRemoved rows.now core.old }
    ensures { IfOk result (λ removed.
        IsTested rows.now core.old core.new removed (RowHasTwo rows.now core.new row)) }
{
    if !core.rows[row as usize] {
        return Ok(false);
    }
    let Some(reason) = row_reason(rows.row(row), &core.columns) else {
        return Ok(false);
    };
    core.steps.push(Step {
        line: Line::Row(row),
        reason,
    })?;
    core.rows[row as usize] = false;
    Ok(true)
}

/// Removes a column if at most one of its nonzeros remains. Returns whether it is removed.
pub fn remove_column(
    core: &mut TwoCore,
    _rows: &SparseMatrix,
    columns: &SparseMatrix,
    column: u32,
) -> Result<bool, Memory>
    requires crossed { AreCrossed _rows.now columns.now }
    requires column { column < length columns.now.runs }
    requires stands { HasRemoved _rows.now core.old }
    ensures { IfOk result (λ removed.
        IsTested _rows.now core.old core.new removed (ColumnHasTwo _rows.now core.new column)) }
{
    let _height = _rows.rows();
    if !core.columns[column as usize] {
        return Ok(false);
    }
    let Some(reason) = column_reason(columns.row(column), &core.rows) else {
        return Ok(false);
    };
    core.steps.push(Step {
        line: Line::Column(column),
        reason,
    })?;
    core.columns[column as usize] = false;
    Ok(true)
}

// Takes a removed crossing line out of the count of a line. Returns whether at most one nonzero is left.
fn is_due(counts: &mut [usize], line: u32) -> bool
    requires { line < length counts.old }
    ensures size { length counts.new ≡ length counts.old }
{
    let count = counts[line as usize].saturating_sub(1);
    counts[line as usize] = count;
    count <= 1
}

/// Removes rows that cross a removed column, if at most one of their nonzeros remains. `counts` has the number of nonzeros of each row
/// that are not in removed columns; only the time depends on it.
pub fn remove_rows(
    core: &mut TwoCore,
    counts: &mut [usize],
    rows: &SparseMatrix,
    run: &[Nonzero],
) -> Result<(), Memory>
    requires run { AllByRecursion (IsNonzeroWithin (length rows.now.runs)) run.now }
    requires counts { length counts.old ≡ length rows.now.runs }
    requires stands { HasRemoved rows.now core.old }
    ensures later { OnOk result (IsLater rows.now core.old core.new) }
    ensures counts { length counts.new ≡ length counts.old }
{
    for nonzero in run {
        if is_due(counts, nonzero.line) {
            remove_row(core, rows, nonzero.line)?;
        }
    }
    Ok(())
}

/// Removes columns that cross a removed row, if at most one of their nonzeros remains.
pub fn remove_columns(
    core: &mut TwoCore,
    counts: &mut [usize],
    _rows: &SparseMatrix,
    columns: &SparseMatrix,
    run: &[Nonzero],
) -> Result<(), Memory>
    requires crossed { AreCrossed _rows.now columns.now }
    requires run { AllByRecursion (IsNonzeroWithin (length columns.now.runs)) run.now }
    requires counts { length counts.old ≡ length columns.now.runs }
    requires stands { HasRemoved _rows.now core.old }
    ensures later { OnOk result (IsLater _rows.now core.old core.new) }
    ensures counts { length counts.new ≡ length counts.old }
{
    for nonzero in run {
        if is_due(counts, nonzero.line) {
            remove_column(core, _rows, columns, nonzero.line)?;
        }
    }
    Ok(())
}
