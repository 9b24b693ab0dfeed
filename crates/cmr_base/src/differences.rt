ghost use Rattle.std.specs.Prelude.{◌≡◌, ◌<◌, ◌+◌, ◌*◌, cond, ℕ};
ghost use Rattle.std.specs.Int.{bit_at};
ghost use Rattle.cmr_base.specs.Matrix.{height, IsEntry};
ghost use Rattle.cmr_base.specs.Differences.{differs_at};

use crate::Matrix;

impl Matrix {
    /// The bits of the 64 columns of a chunk in which a row is not `factor` times the row `model`.
    // Two entries differ if and only if exactly one of them is 0, or exactly one of them is -1. The negative of a row
    // is -1 in the columns in which the row is neither 0 nor -1.
    pub fn difference_word(&self, row: u32, factor: i8, model: u32, chunk: u32) -> u64
        requires row { row < height self.now }
        requires model { model < height self.now }
        requires factor { IsEntry factor }
        requires chunk { 64 * chunk < self.now.width }
        ensures { (i : ℕ) → i < 64
            → bit_at result i ≡ cond (differs_at self.now row factor model (64 * chunk + i)) 1 0 }
    {
        let _rows = self.rows();
        let support = self.support_word(row, chunk);
        if factor == 0 {
            return support;
        }
        let minus = self.minus_word(row, chunk);
        let other_support = self.support_word(model, chunk);
        let other_minus = self.minus_word(model, chunk);
        if factor == 1 {
            (support ^ other_support) | (minus ^ other_minus)
        } else {
            (support ^ other_support) | (minus ^ (other_support ^ other_minus))
        }
    }
}
