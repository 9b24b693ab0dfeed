// The block made from two columns and two rows.
ghost use Rattle.std.specs.Prelude.{◌≡◌, ◌<◌, ◌≤◌, ◌↔◌, ℕ, IsTrue};
ghost use Rattle.cmr_base.specs.Cores.{IsBounded};
ghost use Rattle.cmr_base.specs.Matrix.{height, IsEntry};
ghost use Rattle.sum_ops.specs.Spreads.{LinesAreThere, spread_entry};

use cmr_base::{Core, Matrix};

/// The block made from columns 0 and 1 of the second matrix and from rows `model` and `model + 1` of the first
/// matrix. These rows continue as rows 1 and 2 of the second matrix. Each row of the block combines the two rows of
/// the first matrix. The same row of the second matrix, in columns 0 and 1, combines its rows 1 and 2 with the same
/// coefficients. `determinant` is the determinant of the four entries in rows 1 and 2 and columns 0 and 1. In a
/// concentrated sum it is 1 or -1.
#[derive(Clone, Copy, Debug)]
pub struct Spread {
    pub determinant: i8,
    pub model: u32,
}

impl Spread {
    /// Gives the entry in a row of the second matrix and a column of the first matrix.
    pub fn entry(self, first: &Matrix, second: &Matrix, row: u32, column: u32) -> i8
        requires lines { LinesAreThere self first.now second.now }
        requires row { row < height second.now }
        requires column { column < first.now.width }
        ensures value { result ≡ spread_entry self first.now second.now row column }
        ensures small { IsBounded 8 result }
    {
        let core = Core::at(second, 1, 2, 0, 1);
        let factors = core.factors(self.determinant, second.entry(row, 0), second.entry(row, 1));
        let one = first.entry(self.model, column);
        let other = first.entry(self.model + 1, column);
        factors.entry(one, other)
    }

    /// Decides whether all entries in the first `columns` columns are -1, 0 or 1, except in row 0.
    pub fn has_small_entries(self, first: &Matrix, second: &Matrix, columns: u32) -> bool
        requires lines { LinesAreThere self first.now second.now }
        requires columns { columns ≤ first.now.width }
        ensures { IsTrue result
            ↔ ((row column : ℕ) → 1 ≤ row → row < height second.now → column < columns
            → IsEntry (spread_entry self first.now second.now row column)) }
    {
        for row in 1..second.rows() {
            if !self.has_small_row(first, second, row, columns) {
                return false;
            }
        }
        true
    }

    fn has_small_row(self, first: &Matrix, second: &Matrix, row: u32, columns: u32) -> bool
        requires lines { LinesAreThere self first.now second.now }
        requires row { row < height second.now }
        requires columns { columns ≤ first.now.width }
        ensures { IsTrue result
            ↔ ((column : ℕ) → column < columns
            → IsEntry (spread_entry self first.now second.now row column)) }
    {
        for column in 0..columns {
            if !is_entry(self.entry(first, second, row, column)) {
                return false;
            }
        }
        true
    }
}

fn is_entry(number: i8) -> bool
    ensures { IsTrue result ↔ IsEntry number }
{
    (-1..=1).contains(&number)
}
