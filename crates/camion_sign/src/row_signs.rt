// Rows whose signs agree in their common columns.
ghost use Rattle.std.specs.Prelude.{◌≡◌, ◌≢◌, ◌<◌, ◌⊎◌, ◌↔◌, ◌/◌, ℕ, true, length, IsTrue};
ghost use Rattle.cmr_base.specs.ColumnSets.{has_column};
ghost use Rattle.cmr_base.specs.Matrix.{height, IsMatrix};
ghost use Rattle.cmr_base.specs.Planes.{has_bit};
ghost use Rattle.camion_sign.specs.RowSigns.{AgreeInSigns, AgreesBefore, HaveEqualSigns, HaveOppositeSigns};

use cmr_base::{Matrix, has_bit};

/// Whether a row agrees with each row before it, up to the sign of the row, in the columns in which both are not 0.
pub fn agrees_with_earlier(matrix: &Matrix, row: u32) -> bool
    requires row { row < height matrix.now }
    requires shape { IsMatrix matrix.now }
    ensures { IsTrue result → AgreesBefore matrix.now row }
{
    for other in 0..row {
        if !agree(matrix, other, row) {
            return false;
        }
    }
    true
}

/// Whether a row has the same sign in two columns in which it is not 0. The columns in which it is -1 are given as words.
pub fn has_one_sign(minus: &[u64], one: u32, other: u32) -> bool
    requires one { one / 64 < length minus.now }
    requires other { other / 64 < length minus.now }
    ensures { IsTrue result ↔ (has_column minus.now one ≡ has_column minus.now other) }
{
    is_in(minus, one) == is_in(minus, other)
}

/// Whether a column is in a set that is given as words.
pub fn is_in(columns: &[u64], column: u32) -> bool
    requires { column / 64 < length columns.now }
    ensures { result ≡ has_column columns.now column }
{
    has_bit(columns[column as usize / 64], column % 64)
}

// Whether two rows agree, up to the sign of a row, in the columns in which both are not 0.
fn agree(matrix: &Matrix, one: u32, two: u32) -> bool
    requires one { one < height matrix.now }
    requires two { two < height matrix.now }
    requires shape { IsMatrix matrix.now }
    ensures { IsTrue result → AgreeInSigns matrix.now one two }
{
    signs_agree(
        matrix.support_words(one),
        matrix.minus_words(one),
        matrix.support_words(two),
        matrix.minus_words(two),
    )
}

// The same for the words of the rows.
fn signs_agree(support: &[u64], minus: &[u64], other: &[u64], other_minus: &[u64]) -> bool
    requires minus { length minus.now ≡ length support.now }
    requires other { length other.now ≡ length support.now }
    requires other_minus { length other_minus.now ≡ length support.now }
    ensures { IsTrue result
        → HaveEqualSigns support.now minus.now other.now other_minus.now
        ⊎ HaveOppositeSigns support.now minus.now other.now other_minus.now }
{
    let mut opposite = 0;
    let mut equal = 0;
    for chunk in 0..support.len() {
        let common = support[chunk] & other[chunk];
        opposite |= opposite_bits(common, minus[chunk], other_minus[chunk]);
        equal |= equal_bits(common, minus[chunk], other_minus[chunk]);
    }
    opposite == 0 || equal == 0
}

// The bits of `common` in which two words differ.
fn opposite_bits(common: u64, word: u64, other: u64) -> u64
    ensures { result ≡ 0
        → (k : ℕ) → k < 64 → has_bit common k ≡ true → has_bit word k ≡ has_bit other k }
{
    common & (word ^ other)
}

// The bits of `common` in which two words are equal.
fn equal_bits(common: u64, word: u64, other: u64) -> u64
    ensures { result ≡ 0
        → (k : ℕ) → k < 64 → has_bit common k ≡ true → has_bit word k ≢ has_bit other k }
{
    common & !(word ^ other)
}
