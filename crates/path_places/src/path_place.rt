// Positions of pivots along shortest paths.
ghost use Rattle.std.specs.Prelude.{◌≡◌, ℕ, true, IfOk, MatchOption};
ghost use Rattle.cmr_base.specs.ColumnSets.{has_column};
ghost use Rattle.cmr_base.specs.LineSets.{AllBelow};
ghost use Rattle.cmr_base.specs.Matrix.{height};
ghost use Rattle.cmr_base.specs.Separations.{Lines};
ghost use Rattle.path_places.specs.PathPlaces.{HasNoCutPlace, HasNoPath, IsCutPlace, IsPathPlace};
ghost use Rattle.path_places.specs.ReachedColumns.{IsNext};
ghost use Rattle.path_places.specs.SideMasks.{IsSideOf, side_of};

use crate::side::Side;
use crate::submatrix::Submatrix;
use cmr_base::{BitSet, LineSet, Matrix, Memory, Position};
use std::alloc::Global;

/// The position of the pivot of the cut with these lines in side one: the first edge of a shortest path in side one, or in side two if
/// side one is fit. `None` if both sides are fit or the side has no path.
pub fn cut_place(
    alloc: Global,
    matrix: &Matrix,
    lines: &LineSet,
) -> Result<Option<Position>, Memory>
    requires rows { AllBelow (height matrix.now) lines.now.rows }
    requires columns { AllBelow matrix.now.width lines.now.columns }
    ensures { IfOk result (λ found. MatchOption found
        (HasNoCutPlace matrix.now (side_of lines.now))
        (λ place. IsCutPlace matrix.now (side_of lines.now) place.row place.column)) }
{
    let one = Side::one(alloc, matrix, lines)?;
    if !one.is_fit() {
        return one.path_place(alloc);
    }
    let two = Side::two(alloc, matrix, lines)?;
    if !two.is_fit() {
        return two.path_place(alloc);
    }
    Ok(None)
}

impl Side<'_> {
    /// The first edge of a shortest path from an end row to an end column through inner lines, the first by rows and then by columns;
    /// `None` if there is no such path.
    pub fn path_place(&self, alloc: Global) -> Result<Option<Position>, Memory>
        ensures { IfOk result (λ found. (lines : Lines) → IsSideOf lines self.now
            → MatchOption found
            (HasNoPath self.now.matrix.now lines)
            (λ place. IsPathPlace self.now.matrix.now lines place.row place.column)) }
    {
        let mut reached = self.ends.columns.copied(alloc)?;
        let mut more = self.next_columns(alloc, &reached)?;
        'steps: while !more.is_within(&reached) {
            let edges = Submatrix {
                matrix: self.matrix,
                rows: &self.ends.rows,
                columns: &more,
            };
            if let Some(place) = edges.first_nonzero() {
                return Ok(Some(place));
            }
            reached.add_all(&more);
            more = self.next_columns(alloc, &reached)?;
        }
        Ok(None)
    }

    // The inner columns that some inner row links to a reached column.
    fn next_columns(&self, alloc: Global, reached: &BitSet) -> Result<BitSet, Memory>
        requires { reached.now.size ≡ self.now.matrix.now.width }
        ensures size { IfOk result (λ more. more.size ≡ self.now.matrix.now.width) }
        ensures only { IfOk result (λ more. (c : ℕ) → has_column more.words c ≡ true
            → IsNext self.now reached.now c) }
        ensures all { IfOk result (λ more. (c : ℕ) → IsNext self.now reached.now c
            → has_column more.words c ≡ true) }
    {
        let inner_rows = Submatrix {
            matrix: self.matrix,
            rows: &self.inner.rows,
            columns: reached,
        };
        let rows = inner_rows.meeting_rows(alloc)?;
        let inner_columns = Submatrix {
            matrix: self.matrix,
            rows: &rows,
            columns: &self.inner.columns,
        };
        inner_columns.meeting_columns(alloc)
    }
}
