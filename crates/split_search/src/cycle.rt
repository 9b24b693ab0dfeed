// The cycle that a column makes with the paths from its two rows to their root.
ghost use Rattle.std.specs.Prelude.{◌≡◌, ◌≢◌, ◌<◌, ◌≤◌, ◌⊎◌, false, length, pos, replicate, true, IfOk, ℕ};
ghost use Rattle.std.specs.List.{AllByRecursion};
ghost use Rattle.ghouila.specs.Found.{marked};
ghost use Rattle.sparse_matrix.specs.SparseRows.{IsNonzeroWithin, value_in};
ghost use Rattle.sparse_matrix.specs.declared.nonzero.TheConstants.{MAX_SPARSE_LINES};
ghost use Rattle.split_search.specs.RowForests.{HasEnds, Spans};
ghost use Rattle.sparse_matrix.specs.LineMarks.{is_marked};
ghost use Rattle.split_search.specs.Paths.{MarkRowsOf, IsCycle};

use crate::forest::Node;
use crate::paths::{turn, turn_path};
use cmr_base::{Indices, Memory};
use sparse_matrix::{Nonzero, SparseMatrix};
use std::alloc::Global;

// No marks.
fn unmarked(alloc: Global, count: u32) -> Result<Vec<bool>, Memory>
    ensures { IfOk result (λ marks. marks.items ≡ replicate count false) }
{
    Ok(vec![in alloc; false; count as usize]?)
}

/// Marks the columns of the cycle.
pub fn cycle_columns(
    alloc: Global,
    nodes: &[Option<Node>],
    columns: &SparseMatrix,
    column: u32,
    first: Nonzero,
    second: Nonzero,
) -> Result<Vec<bool>, Memory>
    requires spans { Spans columns.now nodes.now }
    requires ends { HasEnds columns.now column first second }
    requires apart { first.line ≢ second.line }
    ensures { IfOk result (λ marks. IsCycle columns.now nodes.now column marks.items) }
{
    let mut marks = unmarked(alloc, columns.rows())?;
    let _root = turn_path(nodes, columns, &mut marks, first.line);
    let _same = turn_path(nodes, columns, &mut marks, second.line);
    turn(&mut marks, column);
    Ok(marks)
}

// Marks the lines of nonzeros.
fn mark_lines(marks: &mut Vec<bool>, run: &[Nonzero])
    requires { AllByRecursion (IsNonzeroWithin (length marks.old.items)) run.now }
    ensures size { length marks.new.items ≡ length marks.old.items }
    ensures kept { (line : ℕ) → is_marked marks.old.items line ≡ true
        → is_marked marks.new.items line ≡ true }
    ensures marked { AllByRecursion (λ x. is_marked marks.new.items x.line ≡ true) run.now }
    ensures only { (line : ℕ) → is_marked marks.new.items line ≡ true
        → (is_marked marks.old.items line ≡ true) ⊎ (value_in run.now line ≢ pos 0) }
{
    for nonzero in run {
        marks[nonzero.line as usize] = true;
    }
}

/// Marks the rows of the marked columns.
pub fn crossing_rows(
    alloc: Global,
    columns: &SparseMatrix,
    marks: &[bool],
) -> Result<Vec<bool>, Memory>
    requires { length marks.now ≡ length columns.now.runs }
    ensures size { IfOk result (λ in_rows. length in_rows.items ≡ columns.now.width) }
    ensures crossing { IfOk result (λ in_rows. MarkRowsOf columns.now marks.now in_rows.items) }
{
    let mut in_rows = unmarked(alloc, columns.columns())?;
    for column in 0..columns.rows() {
        if marks[column as usize] {
            mark_lines(&mut in_rows, columns.row(column));
        }
    }
    Ok(in_rows)
}

/// The marked lines.
pub fn marked_lines(alloc: Global, marks: &[bool]) -> Result<Indices, Memory>
    requires { length marks.now ≤ MAX_SPARSE_LINES }
    ensures { IfOk result (λ lines. lines ≡ marked marks.now) }
{
    let mut lines = Indices::new(alloc);
    for (line, mark) in marks.iter().enumerate() {
        if *mark {
            lines.push(line as u32)?;
        }
    }
    Ok(lines)
}
