// Growing sides of a cut. Each line has a number for its pattern on the lines of the side that cross it.
ghost use Rattle.std.specs.Prelude.{◌≡◌, length};

use crate::line_classes::LineClasses;
use crate::numbered_set::NumberedSet;
use cmr_base::{Line, LineMask, Memory, RowsAndColumns};
use std::alloc::Global;

/// The least number of lines of each side of a cut.
pub const LEAST_SIDE: u32 = 4;

/// The lines of one side, a number for the pattern of each row on the columns of the side, and a number for the pattern of each
/// column on the rows of the side. Lines with equal patterns have one number.
#[derive(Drop)]
pub struct Side {
    pub lines: LineMask,
    row_numbers: Vec<u64>,
    column_numbers: Vec<u64>,
    ghost row_size: { length row_numbers.items ≡ lines.rows.size },
    ghost column_size: { length column_numbers.items ≡ lines.columns.size },
}

impl Side {
    ghost use Rattle.std.specs.Prelude.{◌≡◌, ◌⊎◌, true, false, length, IfOk, MatchOption};
    ghost use Rattle.cmr_base.specs.Components.{IsLineOf};
    ghost use Rattle.cmr_base.specs.LineMasks.{as_set, AreAlike};
    ghost use Rattle.cmr_base.specs.Seeds.{IsLine};
    ghost use Rattle.cmr_base.specs.declared.line.Line.{Line};
    ghost use Rattle.cuts.specs.Covers.{AddsAtMost};
    ghost use Rattle.cuts.specs.CutSides.{HasNumbers, IsForced};

    /// No lines.
    pub fn empty(alloc: Global, matrix: &RowsAndColumns<'_>) -> Result<Side, Memory>
        ensures numbers { IfOk result (HasNumbers matrix.now) }
        ensures none { IfOk result (λ side. (x : Line) → as_set side.lines x ≡ false) }
    {
        let rows = matrix.rows();
        let columns = matrix.columns();
        Ok(Side {
            lines: LineMask::new(alloc, rows, columns)?,
            row_numbers: vec![in alloc; 0u64; rows as usize]?,
            column_numbers: vec![in alloc; 0u64; columns as usize]?,
        })
    }

    /// The classes of the rows.
    pub fn rows(&self) -> LineClasses<'_>
        ensures own { result.own.now ≡ self.now.lines.rows }
        ensures numbers { result.numbers.now ≡ self.now.row_numbers.items }
    {
        LineClasses {
            own: &self.lines.rows,
            numbers: &self.row_numbers,
        }
    }

    /// The classes of the columns.
    pub fn columns(&self) -> LineClasses<'_>
        ensures own { result.own.now ≡ self.now.lines.columns }
        ensures numbers { result.numbers.now ≡ self.now.column_numbers.items }
    {
        LineClasses {
            own: &self.lines.columns,
            numbers: &self.column_numbers,
        }
    }

    /// Whether a line of the side is in another set.
    pub fn meets(&self, others: &LineMask) -> bool
        requires { AreAlike self.now.lines others.now }
        ensures { result ≡ true
            → (x : Line)
            × IsLine self.now.lines.rows.size self.now.lines.columns.size x
            × (as_set self.now.lines x ≡ true)
            × (as_set others.now x ≡ true) }
    {
        let _rows = self.lines.rows.size();
        let _columns = self.lines.columns.size();
        self.lines.meets(others)
    }

    /// The side with further lines.
    pub fn grown(
        &self,
        alloc: Global,
        matrix: &RowsAndColumns<'_>,
        lines: &LineMask,
    ) -> Result<Side, Memory>
        requires numbers { HasNumbers matrix.now self.now }
        requires lines { AreAlike self.now.lines lines.now }
        ensures numbers { IfOk result (HasNumbers matrix.now) }
        ensures lines { IfOk result (λ side.
            AddsAtMost matrix.now (as_set side.lines) (as_set self.now.lines) (as_set lines.now)) }
    {
        let mut rows = NumberedSet::of(alloc, &self.lines.rows, &self.column_numbers)?;
        rows.add(matrix.by_rows(), &lines.rows);
        let mut columns = NumberedSet::of(alloc, &self.lines.columns, &self.row_numbers)?;
        columns.add(matrix.by_columns(), &lines.columns);
        Ok(Side {
            lines: LineMask {
                rows: rows.set,
                columns: columns.set,
            },
            row_numbers: columns.numbers,
            column_numbers: rows.numbers,
        })
    }

    /// The side with another line.
    pub fn with_line(
        &self,
        alloc: Global,
        matrix: &RowsAndColumns<'_>,
        line: Line,
    ) -> Result<Side, Memory>
        requires numbers { HasNumbers matrix.now self.now }
        requires line { IsLineOf matrix.now line }
        ensures numbers { IfOk result (HasNumbers matrix.now) }
        ensures lines { IfOk result (λ side. (x : Line) → IsLineOf matrix.now x
            → as_set side.lines x ≡ true → (as_set self.now.lines x ≡ true) ⊎ (x ≡ line)) }
    {
        let mut lines = LineMask::new(alloc, matrix.rows(), matrix.columns())?;
        lines.insert(line);
        self.grown(alloc, matrix, &lines)
    }

    /// The side with the forced lines, and `None` if there are none. A line is forced if it is unlike a line of `far`: each cut
    /// with this side's lines on one side and the lines of `far` on the other side has it on this side.
    pub fn forced(
        &self,
        alloc: Global,
        matrix: &RowsAndColumns<'_>,
        far: &LineMask,
    ) -> Result<Option<Side>, Memory>
        requires numbers { HasNumbers matrix.now self.now }
        requires far { AreAlike self.now.lines far.now }
        ensures { IfOk result (λ found.
            MatchOption found (Unit {0}) (IsForced matrix.now self.now far.now)) }
    {
        let _shape = matrix.rows();
        let lines = LineMask {
            rows: self.rows().unlike(alloc, &far.rows)?,
            columns: self.columns().unlike(alloc, &far.columns)?,
        };
        if lines.is_empty() {
            return Ok(None);
        }
        Ok(Some(self.grown(alloc, matrix, &lines)?))
    }
}
