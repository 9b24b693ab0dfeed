// The next line that a search puts into side one, and then into side two.
ghost use Rattle.std.specs.Prelude.{◌≡◌, MatchOption};
ghost use Rattle.cmr_base.specs.Components.{IsLineOf};
ghost use Rattle.cmr_base.specs.LineMasks.{IsMaskOf};
ghost use Rattle.cmr_base.specs.Matrix.{height};

use cmr_base::{BitSet, Line, LineMask, Matrix, RowsAndColumns, columns_of};

/// A line has a greater value than lines with more nonzeros if it crosses a line of side one, and then if no cut is known to
/// separate it.
const CROSSING: u32 = 4096;

const NOT_SEPARATED: u32 = 2048;

/// The line with the greatest value among the lines on neither side. Lines that cross a line of side one come first, then lines
/// that are not in `separated`, then lines with many nonzeros.
pub fn next_line(
    matrix: &RowsAndColumns<'_>,
    one: &LineMask,
    two: &LineMask,
    separated: &LineMask,
) -> Option<Line>
    requires one { IsMaskOf matrix.now one.now }
    requires two { IsMaskOf matrix.now two.now }
    requires separated { IsMaskOf matrix.now separated.now }
    ensures { MatchOption result (Unit {0}) (IsLineOf matrix.now) }
{
    let rows = RowChoice {
        matrix: matrix.by_rows(),
        one: &one.rows,
        two: &two.rows,
        separated: &separated.rows,
        crossing: &one.columns,
    };
    let columns = RowChoice {
        matrix: matrix.by_columns(),
        one: &one.columns,
        two: &two.columns,
        separated: &separated.columns,
        crossing: &one.rows,
    };
    let row = rows.best();
    let column = columns.best();
    if row.value == 0 && column.value == 0 {
        return None;
    }
    if row.value >= column.value && row.line < matrix.rows() {
        return Some(Line::Row(row.line));
    }
    if column.line < matrix.columns() {
        return Some(Line::Column(column.line));
    }
    None
}

// A row and its value. The value 0 means that there is no row.
#[derive(Clone, Copy)]
struct Candidate {
    line: u32,
    value: u32,
}

// The rows of a matrix, those on each side, those that some cut separates, and the columns of side one.
#[derive(Clone, Copy)]
struct RowChoice<'s> {
    matrix: &'s Matrix,
    one: &'s BitSet,
    two: &'s BitSet,
    separated: &'s BitSet,
    crossing: &'s BitSet,
    ghost one_size: { one.now.size ≡ height matrix.now },
    ghost two_size: { two.now.size ≡ height matrix.now },
    ghost separated_size: { separated.now.size ≡ height matrix.now },
    ghost crossing_size: { crossing.now.size ≡ matrix.now.width },
}

impl<'s> RowChoice<'s> {
    ghost use Rattle.std.specs.Prelude.{◌<◌};
    ghost use Rattle.cmr_base.specs.Matrix.{height};

    // The row with the greatest value among the rows on neither side.
    fn best(&self) -> Candidate {
        let mut best = Candidate { line: 0, value: 0 };
        for row in 0..self.matrix.rows() {
            if !self.one.has(row) && !self.two.has(row) {
                let value = self.value_of(row);
                if value > best.value {
                    best = Candidate { line: row, value };
                }
            }
        }
        best
    }

    // The value of a row.
    fn value_of(&self, row: u32) -> u32
        requires { row < height self.now.matrix.now }
    {
        let words = columns_of(self.matrix, row);
        let mut value = 1u32;
        for word in words {
            value = value.saturating_add(word.count_ones());
        }
        if self.crossing.meets_words(words) {
            value = value.saturating_add(CROSSING);
        }
        if !self.separated.has(row) {
            value = value.saturating_add(NOT_SEPARATED);
        }
        value
    }
}
