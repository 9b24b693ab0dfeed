ghost use Rattle.std.specs.Prelude.{◌≡◌, ◌<◌, ◌≤◌, ℕ, true, false, IfSome, MatchOption};
ghost use Rattle.cmr_base.specs.Matrix.{height};
ghost use Rattle.cmr_base.specs.Trees.{support};

use crate::planes::has_bit;
use crate::{MAX_COLUMNS, Matrix};

impl Matrix {
    /// Whether the entry in a row and a column is not 0.
    pub fn is_nonzero(&self, row: u32, column: u32) -> bool
        requires row { row < height self.now }
        requires column { column < self.now.width }
        ensures { result ≡ support self.now row column }
    {
        has_bit(self.support_word(row, column / 64), column % 64)
    }

    /// The first column that is at least `from` and in which the row is not 0. It reads 64 columns at a time.
    pub fn next_nonzero(&self, row: u32, from: u32) -> Option<u32>
        requires row { row < height self.now }
        requires from { from ≤ MAX_COLUMNS }
        ensures first { MatchOption result
            ((column : ℕ) → from ≤ column → support self.now row column ≡ false)
            (λ next. (from ≤ next)
            × (next < self.now.width)
            × (support self.now row next ≡ true)
            × ((column : ℕ) → from ≤ column → column < next
            → support self.now row column ≡ false)) }
        ensures small { IfSome result (λ next. next < MAX_COLUMNS) }
    {
        let mut column = from;
        while column < self.columns() {
            let word = self.support_word(row, column / 64) >> (column % 64);
            if word != 0 {
                return Some(column + word.trailing_zeros());
            }
            column = column - column % 64 + 64;
        }
        None
    }
}
