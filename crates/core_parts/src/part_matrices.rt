// The matrix of a part of the core.
ghost use Rattle.std.specs.Prelude.{◌≡◌, ◌<◌, [], length, IfOk, OnOk};
ghost use Rattle.std.specs.List.{AllByRecursion};
ghost use Rattle.std.specs.List.Sorted.{IsStrictlyIncreasing};
ghost use Rattle.cmr_base.specs.LineSets.{AllBelow, submatrix};
ghost use Rattle.cmr_base.specs.Matrix.{entry};
ghost use Rattle.sparse_matrix.specs.SparseRows.{AreInDistinctLines, IsNonzeroWithin, matrix_of_runs, run_of};
ghost use Rattle.core_parts.specs.CoreParts.{HasColumnsAtPlaces};
ghost use Rattle.core_parts.specs.PartRuns.{AreAtPlaces, HasRun, placed_run};

use cmr_base::{LineSet, Memory};
use sparse_matrix::{Nonzero, SparseMatrix};
use std::alloc::Global;

// Writes the nonzeros in marked columns into a zero row, at the places of these columns. The part has the columns `_columns`.
fn copy_run(
    part: &mut SparseMatrix,
    row: u32,
    run: &[Nonzero],
    marks: &[bool],
    places: &[u32],
    _columns: &[u32],
) -> Result<(), Memory>
    requires row { row < length part.old.runs }
    requires width { part.old.width ≡ length _columns.now }
    requires run { AllByRecursion (IsNonzeroWithin (length marks.now)) run.now }
    requires distinct { AreInDistinctLines run.now }
    requires size { length places.now ≡ length marks.now }
    requires increasing { IsStrictlyIncreasing _columns.now }
    requires placed { AreAtPlaces _columns.now marks.now places.now run.now }
    requires empty { run_of part.old row ≡ [] }
    ensures { OnOk result (HasRun part.old row (placed_run marks.now places.now run.now) part.new) }
{
    for nonzero in run {
        if marks[nonzero.line as usize] {
            part.push(row, places[nonzero.line as usize], nonzero.value)?;
        }
    }
    Ok(())
}

/// The submatrix on the lines of a part. The marks and the places are those of the columns of its core.
pub fn part_matrix(
    alloc: Global,
    matrix: &SparseMatrix,
    lines: &LineSet,
    marks: &[bool],
    places: &[u32],
) -> Result<SparseMatrix, Memory>
    requires rows { AllBelow (length matrix.now.runs) lines.now.rows }
    requires columns { AllBelow matrix.now.width lines.now.columns }
    requires marks { length marks.now ≡ matrix.now.width }
    requires places { length places.now ≡ matrix.now.width }
    requires placed { HasColumnsAtPlaces (entry (matrix_of_runs matrix.now)) marks.now places.now
        lines.now }
    ensures { IfOk result (λ found. matrix_of_runs found
        ≡ submatrix (matrix_of_runs matrix.now) lines.now.rows lines.now.columns) }
{
    let _height = matrix.rows();
    let rows = lines.rows.as_slice();
    let columns = lines.columns.as_slice();
    let mut part = SparseMatrix::zero(alloc, rows.len() as u32, columns.len() as u32)?;
    for place in 0..rows.len() {
        let run = matrix.row(rows[place]);
        copy_run(&mut part, place as u32, run, marks, places, columns)?;
    }
    let _rows = part.rows();
    Ok(part)
}
