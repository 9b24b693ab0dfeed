// The search for the core: each removed line is followed to its crossing lines.
ghost use Rattle.std.specs.Prelude.{◌≡◌, ◌<◌, ◌||◌, ℕ, IfOk, OnOk, length};
ghost use Rattle.cmr_base.specs.Matrix.{entry};
ghost use Rattle.cmr_base.specs.LineSets.{first_lines};
ghost use Rattle.ghouila.specs.Found.{marked};
ghost use Rattle.sparse_matrix.specs.SparseRows.{AreCrossed, matrix_of_runs};
ghost use Rattle.sparse_core.specs.TwoCores.{ColumnHasTwo, IsTwoCore, IsLater, IsScanned, IsThinRemoval, LinesHaveTwo, RowHasTwo, HasRemoved};

use crate::removal::{TwoCore, all_lines, remove_column, remove_columns, remove_row, remove_rows};
use cmr_base::{Line, Memory};
use sparse_matrix::SparseMatrix;
use std::alloc::Global;

// The number of nonzeros of each row.
fn counts_of(alloc: Global, rows: &SparseMatrix) -> Result<Vec<usize>, Memory>
    ensures { IfOk result (λ counts. length counts.items ≡ length rows.now.runs) }
{
    let mut counts = Vec::with_capacity(alloc, rows.rows() as usize)?;
    for row in 0..rows.rows() {
        counts.push(rows.row(row).len())?;
    }
    Ok(counts)
}

// Follows the removals from a place on, also those that it makes.
fn follow(
    core: &mut TwoCore,
    row_counts: &mut [usize],
    column_counts: &mut [usize],
    rows: &SparseMatrix,
    columns: &SparseMatrix,
    from: usize,
) -> Result<(), Memory>
    requires crossed { AreCrossed rows.now columns.now }
    requires row_counts { length row_counts.old ≡ length rows.now.runs }
    requires column_counts { length column_counts.old ≡ length columns.now.runs }
    requires stands { HasRemoved rows.now core.old }
    ensures later { OnOk result (IsLater rows.now core.old core.new) }
    ensures row_counts { length row_counts.new ≡ length row_counts.old }
    ensures column_counts { length column_counts.new ≡ length column_counts.old }
{
    let mut head = from;
    'steps: while head < core.steps.len() {
        let line = core.steps[head].line;
        head += 1;
        match line {
            Line::Row(row) => {
                remove_columns(core, column_counts, rows, columns, rows.row(row))?;
            }
            Line::Column(column) => {
                remove_rows(core, row_counts, rows, columns.row(column))?;
            }
        }
    }
    Ok(())
}

fn either(first: bool, second: bool) -> bool
    ensures { result ≡ (first || second) }
{
    first || second
}

// Tests each row once. Returns whether one was removed.
fn scan_rows(core: &mut TwoCore, rows: &SparseMatrix) -> Result<bool, Memory>
    requires stands { HasRemoved rows.now core.old }
    ensures { IfOk result (λ more. IsScanned rows.now core.old core.new more
        ((row : ℕ) → row < length rows.now.runs → RowHasTwo rows.now core.new row)) }
{
    let mut more = false;
    for row in 0..rows.rows() {
        let removed = remove_row(core, rows, row)?;
        more = either(more, removed);
    }
    Ok(more)
}

// Tests each column once. Returns whether one was removed.
fn scan_columns(
    core: &mut TwoCore,
    rows: &SparseMatrix,
    columns: &SparseMatrix,
) -> Result<bool, Memory>
    requires crossed { AreCrossed rows.now columns.now }
    requires stands { HasRemoved rows.now core.old }
    ensures { IfOk result (λ more. IsScanned rows.now core.old core.new more
        ((column : ℕ) → column < length columns.now.runs
        → ColumnHasTwo rows.now core.new column)) }
{
    let mut more = false;
    for column in 0..columns.rows() {
        let removed = remove_column(core, rows, columns, column)?;
        more = either(more, removed);
    }
    Ok(more)
}

// Tests each line once. Returns whether one was removed.
fn scan(core: &mut TwoCore, rows: &SparseMatrix, columns: &SparseMatrix) -> Result<bool, Memory>
    requires crossed { AreCrossed rows.now columns.now }
    requires stands { HasRemoved rows.now core.old }
    ensures { IfOk result (λ more. IsScanned rows.now core.old core.new more
        (LinesHaveTwo rows.now core.new)) }
{
    let first = scan_rows(core, rows)?;
    let second = scan_columns(core, rows, columns)?;
    Ok(either(first, second))
}

// Removes lines until each remaining line has two nonzeros.
fn search(
    core: &mut TwoCore,
    row_counts: &mut [usize],
    column_counts: &mut [usize],
    rows: &SparseMatrix,
    columns: &SparseMatrix,
) -> Result<(), Memory>
    requires crossed { AreCrossed rows.now columns.now }
    requires row_counts { length row_counts.old ≡ length rows.now.runs }
    requires column_counts { length column_counts.old ≡ length columns.now.runs }
    requires stands { HasRemoved rows.now core.old }
    ensures { OnOk result (HasRemoved rows.now core.new × LinesHaveTwo rows.now core.new) }
{
    let mut from = 0;
    let mut more = true;
    'passes: while more {
        follow(core, row_counts, column_counts, rows, columns, from)?;
        from = core.steps.len();
        more = scan(core, rows, columns)?;
    }
    Ok(())
}

/// The core of a matrix, in linear time. `columns` is the transposed matrix.
pub fn core_of(
    alloc: Global,
    rows: &SparseMatrix,
    columns: &SparseMatrix,
) -> Result<TwoCore, Memory>
    requires crossed { AreCrossed rows.now columns.now }
    ensures rows { IfOk result (λ core. length core.rows.items ≡ length rows.now.runs) }
    ensures columns { IfOk result (λ core. length core.columns.items ≡ rows.now.width) }
    ensures core { IfOk result (λ core. IsTwoCore (entry (matrix_of_runs rows.now))
        (marked core.rows.items) (marked core.columns.items)) }
    ensures removal { IfOk result (λ core. IsThinRemoval (entry (matrix_of_runs rows.now))
        (first_lines (length rows.now.runs)) (first_lines rows.now.width)
        core.steps.items (marked core.rows.items) (marked core.columns.items)) }
{
    let _height = rows.rows();
    let mut core = all_lines(alloc, rows)?;
    let mut row_counts = counts_of(alloc, rows)?;
    let mut column_counts = counts_of(alloc, columns)?;
    search(
        &mut core,
        &mut row_counts,
        &mut column_counts,
        rows,
        columns,
    )?;
    Ok(core)
}
