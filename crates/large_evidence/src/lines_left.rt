// The lines that the steps leave.
ghost use Rattle.std.specs.Prelude.{◌≡◌, ◌≢◌, ◌<◌, ◌↔◌, ℕ, pos, Bool, true, List, length, replicate, IfOk, IfSome, IsTrue, MatchOption};
ghost use Rattle.std.specs.List.{AllByRecursion};
ghost use Rattle.cmr_base.specs.declared.line.Line.TheVariants.{Column, Row};
ghost use Rattle.sparse_matrix.specs.LineMarks.{is_marked};
ghost use Rattle.sparse_matrix.specs.SparseRows.{AreCrossed, IsNonzeroWithin, sparse_entry, value_in};
ghost use Rattle.sparse_core.specs.Nonzeros.{HasThinReason, IsOnly, IsZeroOn};
ghost use Rattle.large_evidence.specs.RemovedMarks.{AreRemovals, HasMark, HasMarksFor, MayBeRemoved, column_marks_after, row_marks_after};

use cmr_base::{Line, Memory, Reason, Step};
use sparse_matrix::{Nonzero, SparseMatrix};
use std::alloc::Global;

/// A mark for each row and each column that remains.
#[derive(Debug, Drop)]
pub struct LinesLeft {
    pub rows: Vec<bool>,
    pub columns: Vec<bool>,
}

fn all_lines(alloc: Global, rows: &SparseMatrix) -> Result<LinesLeft, Memory>
    ensures rows { IfOk result (λ left. left.rows.items ≡ replicate (length rows.now.runs) true) }
    ensures columns { IfOk result (λ left. left.columns.items ≡ replicate rows.now.width true) }
{
    Ok(LinesLeft {
        rows: vec![in alloc; true; rows.rows() as usize]?,
        columns: vec![in alloc; true; rows.columns() as usize]?,
    })
}

// Whether the run has no nonzero in a marked line.
fn has_none(run: &[Nonzero], marks: &[bool]) -> bool
    requires { AllByRecursion (IsNonzeroWithin (length marks.now)) run.now }
    ensures { IsTrue result ↔ IsZeroOn (value_in run.now) marks.now }
{
    for nonzero in run {
        if marks[nonzero.line as usize] {
            return false;
        }
    }
    true
}

// Whether the run has no nonzero in a marked line other than this one.
fn has_no_other(run: &[Nonzero], marks: &[bool], only: u32) -> bool
    requires { AllByRecursion (IsNonzeroWithin (length marks.now)) run.now }
    ensures { IsTrue result
        ↔ ((k : ℕ) → k ≢ only → is_marked marks.now k ≡ true → value_in run.now k ≡ pos 0) }
{
    for nonzero in run {
        if nonzero.line != only && marks[nonzero.line as usize] {
            return false;
        }
    }
    true
}

// Whether the only nonzero of a line in a marked crossing line is in this one.
fn has_only(lines: &SparseMatrix, line: u32, marks: &[bool], only: u32) -> bool
    requires line { line < length lines.now.runs }
    requires marks { length marks.now ≡ lines.now.width }
    ensures { IsTrue result ↔ IsOnly (sparse_entry lines.now line) marks.now only }
{
    let _width = lines.columns();
    if only as usize >= marks.len() {
        return false;
    }
    if !marks[only as usize] {
        return false;
    }
    if lines.entry(line, only) == 0 {
        return false;
    }
    has_no_other(lines.row(line), marks, only)
}

// Whether a row is a zero row or a unit row as the reason says.
fn row_has_reason(rows: &SparseMatrix, row: u32, marks: &[bool], reason: Reason) -> bool
    requires row { row < length rows.now.runs }
    requires marks { length marks.now ≡ rows.now.width }
    ensures { IsTrue result ↔ HasThinReason (sparse_entry rows.now row) marks.now Column reason }
{
    let _width = rows.columns();
    match reason {
        Reason::Zero => has_none(rows.row(row), marks),
        Reason::Unit(Line::Column(column)) => has_only(rows, row, marks, column),
        _ => false,
    }
}

// Whether a column is a zero column or a unit column as the reason says.
fn column_has_reason(columns: &SparseMatrix, column: u32, marks: &[bool], reason: Reason) -> bool
    requires column { column < length columns.now.runs }
    requires marks { length marks.now ≡ columns.now.width }
    ensures { IsTrue result
        ↔ HasThinReason (sparse_entry columns.now column) marks.now Row reason }
{
    let _width = columns.columns();
    match reason {
        Reason::Zero => has_none(columns.row(column), marks),
        Reason::Unit(Line::Row(row)) => has_only(columns, column, marks, row),
        _ => false,
    }
}

fn is_marked(marks: &[bool], line: u32) -> bool
    ensures { IsTrue result ↔ (is_marked marks.now line ≡ true) }
{
    if line as usize >= marks.len() {
        return false;
    }
    marks[line as usize]
}

// Whether the step removes a line that remains, and is a zero line or a unit line then.
fn is_removal(left: &LinesLeft, rows: &SparseMatrix, columns: &SparseMatrix, step: Step) -> bool
    requires crossed { AreCrossed rows.now columns.now }
    requires marks { HasMarksFor rows.now left.now }
    ensures { IsTrue result
        ↔ MayBeRemoved (sparse_entry rows.now) left.now.rows.items left.now.columns.items
        step.line step.reason }
{
    match step.line {
        Line::Row(row) => {
            is_marked(&left.rows, row) && row_has_reason(rows, row, &left.columns, step.reason)
        }
        Line::Column(column) => {
            is_marked(&left.columns, column)
                && column_has_reason(columns, column, &left.rows, step.reason)
        }
    }
}

fn remove(left: &mut LinesLeft, line: Line)
    requires { HasMark left.old.rows.items left.old.columns.items line }
    ensures rows { left.new.rows.items ≡ row_marks_after left.old.rows.items line }
    ensures columns { left.new.columns.items ≡ column_marks_after left.old.columns.items line }
{
    match line {
        Line::Row(row) => left.rows[row as usize] = false,
        Line::Column(column) => left.columns[column as usize] = false,
    }
}

/// The lines that the steps leave, and `None` if a step removes a line that is gone, or is neither a zero line nor a unit line.
pub fn lines_left(
    alloc: Global,
    steps: &[Step],
    rows: &SparseMatrix,
    columns: &SparseMatrix,
) -> Result<Option<LinesLeft>, Memory>
    requires { AreCrossed rows.now columns.now }
    ensures left { IfOk result (λ found. MatchOption found
        ((r c : List Bool) → AreRemovals (sparse_entry rows.now)
        (replicate (length rows.now.runs) true) (replicate rows.now.width true)
        steps.now r c → ⊥)
        (λ left. AreRemovals (sparse_entry rows.now)
        (replicate (length rows.now.runs) true) (replicate rows.now.width true)
        steps.now left.rows.items left.columns.items)) }
    ensures marks { IfOk result (λ found. IfSome found (HasMarksFor rows.now)) }
{
    let mut left = all_lines(alloc, rows)?;
    for step in steps {
        if !is_removal(&left, rows, columns, *step) {
            return Ok(None);
        }
        remove(&mut left, step.line);
    }
    Ok(Some(left))
}
