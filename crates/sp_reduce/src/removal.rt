// The stated order of removals.
ghost use Rattle.std.specs.Prelude.{◌≡◌, ◌+◌, length, MatchOption, None, Some, IfOk, IfSome, OnOk};
ghost use Rattle.cmr_base.specs.Matrix.{height, entry, IsMatrix};
ghost use Rattle.cmr_base.specs.LineSets.{AllBelow, without};
ghost use Rattle.cmr_base.specs.Reductions.{first_step, lines_of, rows_without, columns_without, removal, removal_on};
ghost use Rattle.sp_reduce.specs.declared.kind.LineKind.TheVariants.{Rows};
ghost use Rattle.sp_reduce.specs.LineKinds.{index_of_line, line_named};
ghost use Rattle.sp_reduce.specs.StayingSides.{first_step_of};
ghost use Rattle.sp_reduce.specs.Changes.{ArePaired, removal_from};

use crate::kind::LineKind;
use crate::side::StayingLines;
use cmr_base::{Indices, LineSet, Matrix, Memory, Step, StepList};
use std::alloc::Global;

/// Removals in the stated order, and the remaining lines.
#[derive(Debug, Drop)]
pub struct Reduction {
    pub steps: StepList,
    pub rest: LineSet,
}

/// Removes the first reducible row, or the first reducible column if no row is reducible, until no line is reducible. With
/// `binary` a line is not reducible as the negative of another line.
pub fn reduce(alloc: Global, matrix: &Matrix, binary: bool) -> Result<Reduction, Memory>
    ensures steps { IfOk result (λ reduction. reduction.steps ≡ (removal binary matrix.now).steps) }
    ensures rows { IfOk result (λ reduction. reduction.rest.rows
        ≡ (removal binary matrix.now).rows) }
    ensures columns { IfOk result (λ reduction. reduction.rest.columns
        ≡ (removal binary matrix.now).columns) }
{
    let lines = LineSet::all(alloc, matrix.rows(), matrix.columns())?;
    reduce_lines(alloc, matrix, &lines, binary)
}

// Removes lines in the same order, starting with these lines.
pub fn reduce_lines(
    alloc: Global,
    matrix: &Matrix,
    lines: &LineSet,
    binary: bool,
) -> Result<Reduction, Memory>
    requires shape { IsMatrix matrix.now }
    requires rows { AllBelow (height matrix.now) lines.now.rows }
    requires columns { AllBelow matrix.now.width lines.now.columns }
    ensures steps { IfOk result (λ reduction. reduction.steps
        ≡ (removal_on binary (entry matrix.now) (length lines.now.rows + length lines.now.columns)
        lines.now.rows lines.now.columns).steps) }
    ensures rows { IfOk result (λ reduction. reduction.rest.rows
        ≡ (removal_on binary (entry matrix.now) (length lines.now.rows + length lines.now.columns)
        lines.now.rows lines.now.columns).rows) }
    ensures columns { IfOk result (λ reduction. reduction.rest.columns
        ≡ (removal_on binary (entry matrix.now) (length lines.now.rows + length lines.now.columns)
        lines.now.rows lines.now.columns).columns) }
{
    let row_numbers = lines.rows.as_slice();
    let column_numbers = lines.columns.as_slice();
    let mut rows = StayingLines::new(alloc, matrix, LineKind::Rows, row_numbers, column_numbers)?;
    let mut columns = StayingLines::new(
        alloc,
        matrix,
        LineKind::Columns,
        column_numbers,
        row_numbers,
    )?;
    reduce_sides(alloc, matrix, &mut rows, &mut columns, binary)
}

// Removes lines in the same order, starting with the lines of two sides.
fn reduce_sides(
    alloc: Global,
    matrix: &Matrix,
    rows: &mut StayingLines,
    columns: &mut StayingLines,
    binary: bool,
) -> Result<Reduction, Memory>
    requires shape { IsMatrix matrix.now }
    requires kind { rows.old.kind ≡ Rows }
    requires paired { ArePaired binary matrix.now rows.old columns.old }
    ensures { IfOk result (λ reduction. removal_from binary matrix.now rows.old columns.old
        ≡ record {
          steps = reduction.steps;
          rows = reduction.rest.rows;
          columns = reduction.rest.columns;
        }) }
{
    let steps = remove_all(alloc, matrix, rows, columns, binary)?;
    let rest = LineSet {
        rows: Indices::of(alloc, &rows.stays)?,
        columns: Indices::of(alloc, &columns.stays)?,
    };
    Ok(Reduction { steps, rest })
}

// Makes all steps of the stated order.
fn remove_all(
    alloc: Global,
    matrix: &Matrix,
    rows: &mut StayingLines,
    columns: &mut StayingLines,
    binary: bool,
) -> Result<StepList, Memory>
    requires shape { IsMatrix matrix.now }
    requires kind { rows.old.kind ≡ Rows }
    requires paired { ArePaired binary matrix.now rows.old columns.old }
    ensures paired { OnOk result (ArePaired binary matrix.now rows.new columns.new) }
    ensures end { IfOk result (λ steps. removal_from binary matrix.now rows.old columns.old
        ≡ record {
          steps = steps;
          rows = rows.new.stays.items;
          columns = columns.new.stays.items;
        }) }
{
    let mut steps = StepList::new(alloc);
    'steps: while let Some(step) = next_step(matrix, rows, columns, binary) {
        steps.push(step)?;
    }
    Ok(steps)
}

// Makes the next step of the stated order.
fn next_step(
    matrix: &Matrix,
    rows: &mut StayingLines,
    columns: &mut StayingLines,
    binary: bool,
) -> Option<Step>
    requires shape { IsMatrix matrix.now }
    requires kind { rows.old.kind ≡ Rows }
    requires paired { ArePaired binary matrix.now rows.old columns.old }
    ensures kind { rows.new.kind ≡ Rows }
    ensures paired { ArePaired binary matrix.now rows.new columns.new }
    ensures step { MatchOption result
        ((first_step binary (entry matrix.now) rows.old.stays.items columns.old.stays.items
        (lines_of rows.old.stays.items columns.old.stays.items)
        ≡ None)
        × (rows.new.stays.items ≡ rows.old.stays.items)
        × (columns.new.stays.items ≡ columns.old.stays.items))
        (λ step. (first_step binary (entry matrix.now) rows.old.stays.items columns.old.stays.items
        (lines_of rows.old.stays.items columns.old.stays.items)
        ≡ Some step)
        × (rows.new.stays.items ≡ rows_without rows.old.stays.items step.line)
        × (columns.new.stays.items ≡ columns_without columns.old.stays.items step.line)) }
{
    match remove_first(matrix, rows, columns, binary) {
        Some(step) => Some(step),
        None => remove_first(matrix, columns, rows, binary),
    }
}

// Removes the first reducible line of one side.
fn remove_first(
    matrix: &Matrix,
    own: &mut StayingLines,
    across: &mut StayingLines,
    binary: bool,
) -> Option<Step>
    requires shape { IsMatrix matrix.now }
    requires paired { ArePaired binary matrix.now own.old across.old }
    ensures kind { own.new.kind ≡ own.old.kind }
    ensures paired { ArePaired binary matrix.now own.new across.new }
    ensures across { across.new.stays.items ≡ across.old.stays.items }
    ensures named { IfSome result (λ step. step.line ≡ line_named own.old.kind
        (index_of_line step.line)) }
    ensures step { MatchOption result
        ((first_step_of binary (entry matrix.now) own.old.kind own.old.stays.items
        across.old.stays.items own.old.stays.items
        ≡ None)
        × (own.new.stays.items ≡ own.old.stays.items))
        (λ step. (first_step_of binary (entry matrix.now) own.old.kind own.old.stays.items
        across.old.stays.items own.old.stays.items
        ≡ Some step)
        × (own.new.stays.items ≡ without own.old.stays.items (index_of_line step.line))) }
{
    let found = own.first_reducible(matrix, &across.stays, binary)?;
    let line = own.remove(found.place);
    across.renew(matrix, line, found.reason, &own.stays, binary);
    Some(Step {
        line: own.kind.line(line),
        reason: found.reason,
    })
}
