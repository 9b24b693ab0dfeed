// A side of a cut.
ghost use Rattle.std.specs.Prelude.{◌≡◌, ◌&&◌, not, ℕ, IfOk};
ghost use Rattle.cmr_base.specs.ColumnSets.{has_column};
ghost use Rattle.cmr_base.specs.LineMasks.{IsMaskOf};
ghost use Rattle.cmr_base.specs.Matrix.{IsMatrix};

use crate::submatrix::Submatrix;
use cmr_base::{BitSet, LineMask, LineSet, Matrix, Memory};
use std::alloc::Global;

/// A side of a cut of a matrix: the ends, which are not 0 on the other side, and the inner lines.
#[derive(Drop)]
pub struct Side<'a> {
    pub matrix: &'a Matrix,
    pub ends: LineMask,
    pub inner: LineMask,
    ghost shape: { IsMatrix matrix.now },
    ghost ends_fit: { IsMaskOf matrix.now ends },
    ghost inner_fit: { IsMaskOf matrix.now inner },
}

impl<'a> Side<'a> {
    ghost use Rattle.std.specs.Prelude.{◌≡◌, ◌↔◌, IfOk, IsTrue};
    ghost use Rattle.cmr_base.specs.LineMasks.{IsMaskOf};
    ghost use Rattle.cmr_base.specs.LineSets.{AllBelow};
    ghost use Rattle.cmr_base.specs.Matrix.{height};
    ghost use Rattle.cmr_base.specs.Separations.{Lines, opposite};
    ghost use Rattle.path_places.specs.PathPlaces.{IsFit};
    ghost use Rattle.path_places.specs.SideMasks.{AreSideLines, IsSideOf, side_of};

    /// Side one of the cut with these lines in side one.
    pub fn one(alloc: Global, matrix: &'a Matrix, lines: &LineSet) -> Result<Side<'a>, Memory>
        requires rows { AllBelow (height matrix.now) lines.now.rows }
        requires columns { AllBelow matrix.now.width lines.now.columns }
        ensures matrix { IfOk result (λ side. side.matrix.now ≡ matrix.entry.now) }
        ensures side { IfOk result (IsSideOf (side_of lines.now)) }
    {
        let one = LineMask::of(alloc, matrix.rows(), matrix.columns(), lines)?;
        let two = one.others(alloc)?;
        let (_rows, _columns) = (two.rows.size(), two.columns.size());
        Side::between(alloc, matrix, &one, &two)
    }

    /// Side two of the cut with these lines in side one.
    pub fn two(alloc: Global, matrix: &'a Matrix, lines: &LineSet) -> Result<Side<'a>, Memory>
        requires rows { AllBelow (height matrix.now) lines.now.rows }
        requires columns { AllBelow matrix.now.width lines.now.columns }
        ensures matrix { IfOk result (λ side. side.matrix.now ≡ matrix.entry.now) }
        ensures side { IfOk result (IsSideOf (opposite (side_of lines.now))) }
    {
        let one = LineMask::of(alloc, matrix.rows(), matrix.columns(), lines)?;
        let two = one.others(alloc)?;
        let (_rows, _columns) = (two.rows.size(), two.columns.size());
        Side::between(alloc, matrix, &two, &one)
    }

    // The side with these lines, of which the other side has the others.
    fn between(
        alloc: Global,
        matrix: &'a Matrix,
        own: &LineMask,
        other: &LineMask,
    ) -> Result<Side<'a>, Memory>
        requires own { IsMaskOf matrix.now own.now }
        requires other { IsMaskOf matrix.now other.now }
        ensures matrix { IfOk result (λ side. side.matrix.now ≡ matrix.entry.now) }
        ensures side { IfOk result (λ side. (lines : Lines)
            → AreSideLines matrix.entry.now lines own.now
            → AreSideLines matrix.entry.now (opposite lines) other.now
            → IsSideOf lines side) }
    {
        let _rows = matrix.rows();
        let rows = Submatrix {
            matrix,
            rows: &own.rows,
            columns: &other.columns,
        };
        let columns = Submatrix {
            matrix,
            rows: &other.rows,
            columns: &own.columns,
        };
        let ends = LineMask {
            rows: rows.meeting_rows(alloc)?,
            columns: columns.meeting_columns(alloc)?,
        };
        let inner = LineMask {
            rows: outside(alloc, &own.rows, &ends.rows)?,
            columns: outside(alloc, &own.columns, &ends.columns)?,
        };
        Ok(Side {
            matrix,
            ends,
            inner,
        })
    }

    /// Whether the ends cross in a zero and in a nonzero.
    pub fn is_fit(&self) -> bool
        ensures { (lines : Lines) → IsSideOf lines self.now
            → IsTrue result ↔ IsFit self.now.matrix.now lines }
    {
        let ends = Submatrix {
            matrix: self.matrix,
            rows: &self.ends.rows,
            columns: &self.ends.columns,
        };
        if !ends.has_zero() {
            return false;
        }
        match ends.first_nonzero() {
            Some(_place) => true,
            None => false,
        }
    }
}

// The numbers that are in one set and not in another.
fn outside(alloc: Global, one: &BitSet, other: &BitSet) -> Result<BitSet, Memory>
    requires { other.now.size ≡ one.now.size }
    ensures size { IfOk result (λ set. set.size ≡ one.now.size) }
    ensures members { IfOk result (λ set. (x : ℕ) → has_column set.words x
        ≡ (has_column one.now.words x && not (has_column other.now.words x))) }
{
    let mut set = BitSet::new(alloc, one.size())?;
    set.add_outside(one, other);
    Ok(set)
}
