// Patterns of the rows and of the columns outside a side, and two larger sides that they give.
ghost use Rattle.std.specs.Prelude.{◌≡◌, ◌<◌, ◌+◌, true};
ghost use Rattle.cuts.specs.Patterns.{AreAtMostBeside};

use crate::LEAST_SIDE;
use crate::patterns::Patterns;
use crate::sides::Side;
use cmr_base::{BitSet, LineMask, Memory, RowsAndColumns};
use std::alloc::Global;

/// Two larger sides.
#[derive(Drop)]
pub struct Halves {
    pub one: Side,
    pub other: Side,
}

/// Patterns of the rows outside a side on its columns, and of the columns outside on its rows.
#[derive(Clone, Copy)]
pub struct LinePatterns<'s> {
    pub side: &'s Side,
    rows: Patterns,
    columns: Patterns,
    ghost most_rows: { AreAtMostBeside side.now.lines.rows side.now.row_numbers.items rows.most },
    ghost most_columns: { AreAtMostBeside side.now.lines.columns side.now.column_numbers.items columns.most },
}

impl<'s> LinePatterns<'s> {
    ghost use Rattle.std.specs.Prelude.{◌≡◌, ◌<◌, ◌+◌, true, IfOk, MatchOption};
    ghost use Rattle.cmr_base.specs.LineMasks.{as_set, AreAlike};
    ghost use Rattle.cmr_base.specs.Matrix.{Matrix, IsMatrix};
    ghost use Rattle.cmr_base.specs.Separations.{Lines};
    ghost use Rattle.cmr_base.specs.declared.line.Line.{Line};
    ghost use Rattle.cuts.specs.Covers.{Covers};
    ghost use Rattle.cuts.specs.CutSides.{AreHalves, HasNumbers, heap_of};

    /// The patterns of the lines outside a side.
    pub fn of(alloc: Global, side: &'s Side) -> Result<LinePatterns<'s>, Memory>
        ensures { IfOk result (λ patterns. patterns.side.now ≡ side.entry.now) }
    {
        Ok(LinePatterns {
            side,
            rows: Patterns::of(alloc, &side.rows())?,
            columns: Patterns::of(alloc, &side.columns())?,
        })
    }

    /// Whether the other side of each cut with the lines of the side on one side has too few lines.
    pub fn are_few(&self) -> bool
        ensures near { result ≡ true → (m : Matrix) → IsMatrix m → HasNumbers m self.now.side.now
            → (K P : Lines) → Covers m (as_set self.now.side.now.lines) K P }
        ensures far { result ≡ true → (m : Matrix) → IsMatrix m → HasNumbers m self.now.side.now
            → (H P : Lines) → Covers m H (as_set self.now.side.now.lines) P }
    {
        are_too_few(self.rows.most, self.columns.most)
    }

    /// The number of lines in the lighter of the two heaps, or 0 if there are no two heaps.
    pub fn lighter(&self) -> u32 {
        self.rows.heaps.lighter.max(self.columns.heaps.lighter)
    }

    /// The number of lines with class 0.
    pub fn zeros(&self) -> u32 {
        self.rows.zeros.saturating_add(self.columns.zeros)
    }

    /// Whether there are no two heaps.
    pub fn have_one_class(&self) -> bool {
        self.lighter() == 0
    }

    /// The side with one heap, and with the other heap: a cut that has the side's lines in side one also has one of the heaps
    /// there. `None` if the lighter heap has fewer lines than `least`.
    pub fn halves(
        &self,
        alloc: Global,
        matrix: &RowsAndColumns<'_>,
        least: u32,
    ) -> Result<Option<Halves>, Memory>
        requires { HasNumbers matrix.now self.now.side.now }
        ensures { IfOk result (λ found.
            MatchOption found (Unit {0}) (AreHalves matrix.now self.now.side.now)) }
    {
        if self.have_one_class() || self.lighter() < least {
            return Ok(None);
        }
        let _shape = matrix.rows();
        let one = self.heap(alloc, true)?;
        let other = self.heap(alloc, false)?;
        Ok(Some(Halves {
            one: self.side.grown(alloc, matrix, &one)?,
            other: self.side.grown(alloc, matrix, &other)?,
        }))
    }

    // The lines of one heap, or of the other: the rows or the columns, whose lighter heap is heavier.
    fn heap(&self, alloc: Global, inside: bool) -> Result<LineMask, Memory>
        ensures size { IfOk result (AreAlike self.now.side.now.lines) }
        ensures lines { IfOk result (λ heap. (x : Line) → as_set heap x ≡ true
            → heap_of self.now inside x ≡ true) }
    {
        let (rows, columns) = (self.side.rows(), self.side.columns());
        if self.rows.heaps.lighter >= self.columns.heaps.lighter {
            return Ok(LineMask {
                rows: rows.heap(alloc, &self.rows.heaps, inside)?,
                columns: BitSet::new(alloc, columns.own.size())?,
            });
        }
        Ok(LineMask {
            rows: BitSet::new(alloc, rows.own.size())?,
            columns: columns.heap(alloc, &self.columns.heaps, inside)?,
        })
    }
}

// Whether these are too few lines for a side of a cut.
fn are_too_few(rows: u32, columns: u32) -> bool
    ensures { result ≡ true → rows + columns < LEAST_SIDE }
{
    rows < LEAST_SIDE && columns < LEAST_SIDE - rows
}
