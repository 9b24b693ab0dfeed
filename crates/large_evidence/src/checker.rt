// The check of evidence.
ghost use Rattle.std.specs.Prelude.{length, IfOk, IsTrue};
ghost use Rattle.std.specs.List.{AllByRecursion};
ghost use Rattle.cmr_base.specs.Matrix.{entry};
ghost use Rattle.sparse_matrix.specs.SparseRows.{matrix_of_runs};
ghost use Rattle.tree_laws.specs.Laws.{IsProved};
ghost use Rattle.large_evidence.specs.LargeEvidence.{HasReasonIn, IsAccepted};
ghost use Rattle.large_evidence.specs.LineDivisions.{AreDividedParts, HasPlacesFor, IsPlacedPart, sets_of};
ghost use Rattle.large_evidence.specs.RemovedMarks.{HasMarksFor};

use crate::evidence::{PartEvidence, UnimodularityEvidence};
use crate::lines_left::{LinesLeft, lines_left};
use crate::numbering::{PartPlaces, Side, are_places, are_together, part_places};
use crate::reasons::is_reason;
use cmr_base::Memory;
use core_parts::part_matrix;
use sparse_matrix::SparseMatrix;
use std::alloc::Global;

// Whether the reason of a part is one for its submatrix.
fn has_reason(
    alloc: Global,
    matrix: &SparseMatrix,
    marks: &[bool],
    places: &[u32],
    part: &PartEvidence,
) -> Result<bool, Memory>
    requires placed { IsPlacedPart matrix.now marks.now places.now part.now.lines }
    ensures { IfOk result (λ yes. IsTrue yes → HasReasonIn (matrix_of_runs matrix.now) part.now) }
{
    let part_rows = part_matrix(alloc, matrix, &part.lines, marks, places)?;
    is_reason(alloc, &part_rows, &part.reason)
}

// Whether each part has a reason.
fn have_reasons(
    alloc: Global,
    matrix: &SparseMatrix,
    marks: &[bool],
    places: &[u32],
    parts: &[PartEvidence],
) -> Result<bool, Memory>
    requires placed { AllByRecursion
        (λ part. IsPlacedPart matrix.now marks.now places.now part.lines) parts.now }
    ensures { IfOk result (λ yes. IsTrue yes
        → AllByRecursion (HasReasonIn (matrix_of_runs matrix.now)) parts.now) }
{
    for part in parts {
        if !has_reason(alloc, matrix, marks, places, part)? {
            return Ok(false);
        }
    }
    Ok(true)
}

// Whether the lines that are left are in parts, with these numbers and places.
fn are_divided(
    matrix: &SparseMatrix,
    left: &LinesLeft,
    of_rows: &PartPlaces,
    of_columns: &PartPlaces,
    parts: &[PartEvidence],
) -> bool
    requires marks { HasMarksFor matrix.now left.now }
    requires of_rows { HasPlacesFor (length matrix.now.runs) of_rows.now }
    requires of_columns { HasPlacesFor matrix.now.width of_columns.now }
    ensures divided { IsTrue result
        → AreDividedParts (entry (matrix_of_runs matrix.now)) left.now.rows.items
        left.now.columns.items (sets_of parts.now) }
    ensures placed { IsTrue result
        → AllByRecursion (λ part. IsPlacedPart matrix.now left.now.columns.items
        of_columns.now.places.items part.lines) parts.now }
{
    let _height = matrix.rows();
    are_places(of_rows, &left.rows, parts, Side::Rows)
        && are_places(of_columns, &left.columns, parts, Side::Columns)
        && are_together(matrix, left, &of_rows.numbers, &of_columns.numbers)
}

/// Whether the evidence is accepted: the steps remove zero and unit lines, each line that remains is in one part, no nonzero is between two
/// parts, and each part has a reason. Then the matrix is totally unimodular.
pub fn accepts(
    alloc: Global,
    matrix: &SparseMatrix,
    evidence: &UnimodularityEvidence,
) -> Result<bool, Memory>
    ensures accepted { IfOk result (λ yes. IsTrue yes
        → IsAccepted (matrix_of_runs matrix.now) evidence.now) }
    ensures proved { IfOk result (λ yes. IsTrue yes → IsProved (matrix_of_runs matrix.now)) }
{
    let _height = matrix.rows();
    let columns = matrix.transposed(alloc)?;
    let Some(left) = lines_left(alloc, &evidence.steps, matrix, &columns)? else {
        return Ok(false);
    };
    let of_rows = part_places(alloc, &evidence.parts, Side::Rows, left.rows.len())?;
    let of_columns = part_places(alloc, &evidence.parts, Side::Columns, left.columns.len())?;
    if !are_divided(matrix, &left, &of_rows, &of_columns, &evidence.parts) {
        return Ok(false);
    }
    have_reasons(
        alloc,
        matrix,
        &left.columns,
        &of_columns.places,
        &evidence.parts,
    )
}
