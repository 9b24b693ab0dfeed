// Sets of lines of which every line is needed.
ghost use Rattle.std.specs.Prelude.{◌≡◌, ◌<◌, ℕ, true, false, length, slice_index, IfOk, None};
ghost use Rattle.std.specs.List.Sorted.{IsStrictlyIncreasing};
ghost use Rattle.cmr_base.specs.Matrix.{height, entry, IsMatrix};
ghost use Rattle.cmr_base.specs.LineSets.{AllBelow, IsRowSet, IsColumnSet};
ghost use Rattle.cmr_base.specs.Reductions.{first_step, lines_of};
ghost use Rattle.sp_reduce.specs.LineKinds.{count_of_kind};
ghost use Rattle.sp_reduce.specs.NeededLines.{HaveTwoNonzeros, NeedsAllLines};
ghost use Rattle.sp_reduce.specs.StayingSides.{IsAcross};

use crate::kind::LineKind;
use crate::minimal::is_series_parallel;
use crate::removal::reduce_lines;
use crate::side::StayingLines;
use cmr_base::{LineSet, Matrix, Memory};
use std::alloc::Global;

// Says yes to a cycle: each line has two nonzeros, no line is reducible, and the lines without the first row are
// series-parallel. Then the lines without any other line are series-parallel too.
pub fn needs_all_lines(
    alloc: Global,
    matrix: &Matrix,
    lines: &LineSet,
    binary: bool,
) -> Result<bool, Memory>
    requires shape { IsMatrix matrix.now }
    requires rows { IsRowSet matrix.now lines.now.rows }
    requires columns { IsColumnSet matrix.now lines.now.columns }
    ensures { IfOk result (λ yes. yes ≡ true
        → NeedsAllLines binary matrix.now lines.now.rows lines.now.columns) }
{
    let rows = lines.rows.as_slice();
    let columns = lines.columns.as_slice();
    if rows.is_empty()
        || !have_two_nonzeros(alloc, matrix, LineKind::Rows, rows, columns)?
        || !have_two_nonzeros(alloc, matrix, LineKind::Columns, columns, rows)?
        || has_reducible(alloc, matrix, lines, binary)?
    {
        return Ok(false);
    }
    let fewer = lines.without_row(alloc, rows[0])?;
    is_series_parallel(alloc, matrix, &fewer, binary)
}

// Whether any of the lines is reducible among them.
fn has_reducible(
    alloc: Global,
    matrix: &Matrix,
    lines: &LineSet,
    binary: bool,
) -> Result<bool, Memory>
    requires shape { IsMatrix matrix.now }
    requires rows { AllBelow (height matrix.now) lines.now.rows }
    requires columns { AllBelow matrix.now.width lines.now.columns }
    ensures { IfOk result (λ yes. yes ≡ false → (0 < length lines.now.rows)
        → first_step binary (entry matrix.now) lines.now.rows lines.now.columns
        (lines_of lines.now.rows lines.now.columns)
        ≡ None) }
{
    let reduction = reduce_lines(alloc, matrix, lines, binary)?;
    Ok(reduction.steps.len() > 0)
}

// Whether each of these lines has two nonzeros in these crossing lines.
fn have_two_nonzeros(
    alloc: Global,
    matrix: &Matrix,
    kind: LineKind,
    own: &[u32],
    across: &[u32],
) -> Result<bool, Memory>
    requires shape { IsMatrix matrix.now }
    requires own_increases { IsStrictlyIncreasing own.now }
    requires own_in { AllBelow (count_of_kind matrix.now kind) own.now }
    requires across { IsAcross matrix.now kind across.now }
    ensures { IfOk result (λ yes. yes ≡ true
        → HaveTwoNonzeros matrix.now kind own.now across.now) }
{
    let side = StayingLines::new(alloc, matrix, kind, own, across)?;
    Ok(are_two(&side.counts))
}

fn are_two(counts: &[u32]) -> bool
    ensures { result ≡ true → (at : ℕ) → at < length counts.now
        → slice_index counts.now at ≡ 2 }
{
    'counts: for count in counts {
        if *count != 2 {
            return false;
        }
    }
    true
}
