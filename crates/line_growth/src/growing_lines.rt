// The rows, or the columns, of a growing set of lines.
ghost use Rattle.std.specs.Prelude.{◌≡◌, ◌<◌, ◌≤◌, ◌+◌, ◌*◌, ◌*ℤ◌, ◌&&◌, ◌⊎◌, ◌↔◌, not, ℕ, true, false, length, IfOk, OnOk, IsTrue, MatchOption};
ghost use Rattle.cmr_base.specs.Differences.{differs_at};
ghost use Rattle.cmr_base.specs.Planes.{has_bit, words_for};
ghost use Rattle.cmr_base.specs.Matrix.{height, entry, IsEntry};
ghost use Rattle.cmr_base.specs.Trees.{support};
ghost use Rattle.line_growth.specs.Rules.{IsSumOf, sum_at};
ghost use Rattle.line_growth.specs.GrowingLines.{DecidesUnlike, HasAdded, HasGrown, HasPulled, HasTaken, IsBitOf, IsNextOutside, count_left, is_inside};

use crate::rule::{Multiple, Sum};
use crate::waiting::Waiting;
use cmr_base::columns::{next_column, outside};
use cmr_base::{BitSet, MAX_ROWS, Matrix, Memory, columns_of, words_for};
use std::alloc::Global;
use std::marker::Model;

/// The rows, or the columns, of a growing set of lines: the lines inside, the number of lines outside, and the lines inside
/// whose pulls are not followed yet.
#[derive(Drop)]
pub struct GrowingLines {
    inside: BitSet,
    left: u32,
    fresh: Waiting,
}

impl Model for GrowingLines {
    ghost use Rattle.line_growth.specs.GrowingLines.{Growth, IsGrowth};

    ghost Value = { Growth };

    ghost view = { λ lines. record { inside = lines.inside; fresh = lines.fresh } };

    ghost invariant = { λ lines. IsGrowth (record { inside = lines.inside; fresh = lines.fresh }) lines.left };
}

impl GrowingLines {
    /// `size` lines, all outside the set.
    pub fn new(alloc: Global, size: u32) -> Result<GrowingLines, Memory>
        requires { size ≤ MAX_ROWS }
        ensures size { IfOk result (λ lines. lines.inside.size ≡ size) }
        ensures none { IfOk result (λ lines. (line : ℕ) → is_inside lines line ≡ false) }
    {
        Ok(GrowingLines {
            inside: BitSet::new(alloc, size)?,
            left: size,
            fresh: Waiting::new(alloc, size)?,
        })
    }

    /// Removes all lines.
    pub fn clear(&mut self)
        ensures size { self.new.inside.size ≡ self.old.inside.size }
        ensures none { (line : ℕ) → is_inside self.new line ≡ false }
    {
        self.inside.clear();
        self.left = self.inside.size();
        self.fresh.clear();
    }

    /// Becomes equal to `other`, which has the same size.
    pub fn copy(&mut self, other: &GrowingLines) -> Result<(), Memory>
        requires { other.now.inside.size ≡ self.old.inside.size }
        ensures size { self.new.inside.size ≡ self.old.inside.size }
        ensures same { OnOk result (self.new ≡ other.now) }
    {
        self.fresh.clear();
        self.inside.copy(&other.inside);
        self.left = other.left;
        self.fresh.copy(&other.fresh)?;
        Ok(())
    }

    /// The lines inside.
    pub fn inside(&self) -> &BitSet
        ensures { result.now ≡ self.now.inside }
    {
        &self.inside
    }

    /// The number of lines outside.
    pub fn left(&self) -> u32
        ensures left { result ≡ count_left self.now }
        ensures few { result ≤ MAX_ROWS }
    {
        let _size = self.inside.size();
        self.left
    }

    /// The number of lines whose pulls are not followed yet.
    pub fn waiting(&self) -> usize
        ensures { result ≡ length self.now.fresh }
    {
        self.fresh.len()
    }

    /// The line that waits longest. It then counts as followed.
    pub fn next(&mut self) -> Option<u32>
        ensures { MatchOption result (length self.old.fresh ≡ 0) (λ line.
            HasTaken line self.old self.new) }
    {
        self.fresh.next()
    }

    /// Adds a line.
    pub fn add(&mut self, line: u32) -> Result<(), Memory>
        requires { line < self.old.inside.size }
        ensures size { self.new.inside.size ≡ self.old.inside.size }
        ensures added { OnOk result (HasAdded line self.old self.new) }
    {
        if self.inside.has(line) {
            return Ok(());
        }
        self.inside.insert(line);
        self.left -= 1;
        self.fresh.push(line)?;
        Ok(())
    }

    /// Adds each line outside at which the entry of a row differs from the entry of a sum. The lines are the columns of the
    /// matrix.
    pub fn pull(&mut self, matrix: &Matrix, row: u32, sum: Sum) -> Result<(), Memory>
        requires width { matrix.now.width ≡ self.old.inside.size }
        requires row { row < height matrix.now }
        requires sum { IsSumOf matrix.now sum }
        ensures size { self.new.inside.size ≡ self.old.inside.size }
        ensures pulled { OnOk result (HasPulled
            (λ line. entry matrix.now row line ≡ sum_at matrix.now sum line) self.old self.new) }
    {
        match sum.as_multiple() {
            Some(multiple) => self.pull_by_words(matrix, row, multiple),
            None => self.pull_by_nonzeros(matrix, row, sum),
        }
    }

    // The same for a multiple, a word at a time.
    fn pull_by_words(&mut self, matrix: &Matrix, row: u32, multiple: Multiple) -> Result<(), Memory>
        requires width { matrix.now.width ≡ self.old.inside.size }
        requires row { row < height matrix.now }
        requires model { multiple.model < height matrix.now }
        requires factor { IsEntry multiple.factor }
        ensures size { self.new.inside.size ≡ self.old.inside.size }
        ensures pulled { OnOk result (HasPulled
            (λ line. entry matrix.now row line
            ≡ multiple.factor *ℤ entry matrix.now multiple.model line) self.old self.new) }
    {
        for chunk in 0..words_for(matrix.columns()) {
            let word = self.unlike(matrix, row, multiple, chunk);
            if word != 0 {
                self.add_word(64 * chunk as u32, word)?;
            }
        }
        Ok(())
    }

    /// The first line outside that is at least `from`.
    pub fn next_outside(&self, from: u32) -> Option<u32>
        ensures { MatchOption result
            ((line : ℕ) → from ≤ line → line < self.now.inside.size
            → is_inside self.now line ≡ true)
            (IsNextOutside self.now from) }
    {
        let size = self.inside.size();
        let mut line = from;
        while line < size {
            let others = [self.others(line as usize / 64)];
            if let Some(bit) = next_column(&others, line % 64) {
                let next = line - line % 64 + bit;
                if next < size {
                    return Some(next);
                }
                return None;
            }
            line = line - line % 64 + 64;
        }
        None
    }

    // The lines of a chunk of 64 that are not inside.
    fn others(&self, chunk: usize) -> u64
        requires chunk { chunk < words_for self.now.inside.size }
        ensures { (k : ℕ) → k < 64
            → has_bit result k ≡ not (is_inside self.now (64 * chunk + k)) }
    {
        let _size = self.inside.size();
        let inside = self.inside.words();
        !inside[chunk]
    }

    /// Counts the pulls of all lines inside as followed.
    pub fn forget_waiting(&mut self)
        ensures inside { self.new.inside ≡ self.old.inside }
        ensures none { length self.new.fresh ≡ 0 }
    {
        self.fresh.clear();
    }

    /// Whether the entry of a row differs from the entry of a sum in some line inside. The lines are the columns of the matrix.
    pub fn has_unlike(&self, matrix: &Matrix, row: u32, sum: Sum) -> bool
        requires width { matrix.now.width ≡ self.now.inside.size }
        requires row { row < height matrix.now }
        requires sum { IsSumOf matrix.now sum }
        ensures { DecidesUnlike result
            (λ line. entry matrix.now row line ≡ sum_at matrix.now sum line) self.now }
    {
        match sum.as_multiple() {
            Some(multiple) => self.has_unlike_word(matrix, row, multiple),
            None => self.has_unlike_entry(matrix, row, sum),
        }
    }

    // The same for a multiple, a word at a time.
    fn has_unlike_word(&self, matrix: &Matrix, row: u32, multiple: Multiple) -> bool
        requires width { matrix.now.width ≡ self.now.inside.size }
        requires row { row < height matrix.now }
        requires model { multiple.model < height matrix.now }
        requires factor { IsEntry multiple.factor }
        ensures { DecidesUnlike result
            (λ line. entry matrix.now row line
            ≡ multiple.factor *ℤ entry matrix.now multiple.model line) self.now }
    {
        let _size = self.inside.size();
        for chunk in 0..words_for(matrix.columns()) {
            if self.has_unlike_bit(matrix, row, multiple, chunk) {
                return true;
            }
        }
        false
    }

    // The same in the lines of a chunk of 64.
    fn has_unlike_bit(&self, matrix: &Matrix, row: u32, multiple: Multiple, chunk: usize) -> bool
        requires width { matrix.now.width ≡ self.now.inside.size }
        requires row { row < height matrix.now }
        requires model { multiple.model < height matrix.now }
        requires factor { IsEntry multiple.factor }
        requires chunk { chunk < words_for matrix.now.width }
        ensures { IsTrue result ↔ ((k : ℕ) × (k < 64)
            × (differs_at matrix.now row multiple.factor multiple.model (64 * chunk + k) ≡ true)
            × (is_inside self.now (64 * chunk + k) ≡ true)) }
    {
        let inside = self.inside.words();
        have_common_bit(difference(matrix, row, multiple, chunk), inside[chunk])
    }

    // The same, over the lines inside.
    fn has_unlike_entry(&self, matrix: &Matrix, row: u32, sum: Sum) -> bool
        requires width { matrix.now.width ≡ self.now.inside.size }
        requires row { row < height matrix.now }
        requires sum { IsSumOf matrix.now sum }
        ensures { DecidesUnlike result
            (λ line. entry matrix.now row line ≡ sum_at matrix.now sum line) self.now }
    {
        let _size = self.inside.size();
        let mut from = 0;
        while let Some(line) = self.inside.next(from) {
            if !sum.is_at(matrix, row, line) {
                return true;
            }
            from = line + 1;
        }
        false
    }

    // The columns of a chunk of 64 that are outside and in which a row differs from a multiple of another row.
    fn unlike(&self, matrix: &Matrix, row: u32, multiple: Multiple, chunk: usize) -> u64
        requires width { matrix.now.width ≡ self.now.inside.size }
        requires row { row < height matrix.now }
        requires model { multiple.model < height matrix.now }
        requires factor { IsEntry multiple.factor }
        requires chunk { chunk < words_for matrix.now.width }
        ensures { (k : ℕ) → k < 64
            → has_bit result k
            ≡ (differs_at matrix.now row multiple.factor multiple.model (64 * chunk + k)
            && not (is_inside self.now (64 * chunk + k))) }
    {
        let _rows = matrix.rows();
        let inside = self.inside.words();
        outside(difference(matrix, row, multiple, chunk), inside[chunk])
    }

    // Adds the lines of the bits of a word. Bit k is the line `first` + k.
    fn add_word(&mut self, first: u32, word: u64) -> Result<(), Memory>
        requires first { first ≤ MAX_ROWS }
        requires lines { (k : ℕ) → k < 64 → has_bit word k ≡ true
            → first + k < self.old.inside.size }
        ensures size { self.new.inside.size ≡ self.old.inside.size }
        ensures taken { OnOk result ((k : ℕ) → k < 64 → has_bit word k ≡ true
            → is_inside self.new (first + k) ≡ true) }
        ensures grown { OnOk result (HasGrown (IsBitOf first word) self.old
            self.new) }
    {
        let bits = [word];
        let mut from = 0;
        while let Some(bit) = next_column(&bits, from) {
            self.add(first + bit)?;
            from = bit + 1;
        }
        Ok(())
    }

    // The same as `pull`, over the nonzeros of the three rows.
    fn pull_by_nonzeros(&mut self, matrix: &Matrix, row: u32, sum: Sum) -> Result<(), Memory>
        requires width { matrix.now.width ≡ self.old.inside.size }
        requires row { row < height matrix.now }
        requires sum { IsSumOf matrix.now sum }
        ensures size { self.new.inside.size ≡ self.old.inside.size }
        ensures pulled { OnOk result (HasPulled
            (λ line. entry matrix.now row line ≡ sum_at matrix.now sum line) self.old self.new) }
    {
        self.pull_along(matrix, row, row, sum)?;
        self.pull_along(matrix, sum.first, row, sum)?;
        self.pull_along(matrix, sum.other, row, sum)?;
        Ok(())
    }

    // Adds such lines among the columns in which the row `along` is not 0. If all three rows are 0 in a column, the sum is
    // right there.
    fn pull_along(&mut self, matrix: &Matrix, along: u32, row: u32, sum: Sum) -> Result<(), Memory>
        requires width { matrix.now.width ≡ self.old.inside.size }
        requires along { along < height matrix.now }
        requires row { row < height matrix.now }
        requires sum { IsSumOf matrix.now sum }
        ensures size { self.new.inside.size ≡ self.old.inside.size }
        ensures grown { OnOk result (HasGrown
            (λ line. ¬ (entry matrix.now row line ≡ sum_at matrix.now sum line))
            self.old self.new) }
        ensures agree { OnOk result ((line : ℕ) → support matrix.now along line ≡ true
            → is_inside self.new line ≡ false
            → entry matrix.now row line ≡ sum_at matrix.now sum line) }
    {
        let mut from = 0;
        while let Some(line) = matrix.next_nonzero(along, from) {
            if self.is_unlike(matrix, row, sum, line) {
                self.add(line)?;
            }
            from = line + 1;
        }
        Ok(())
    }

    // Whether a line is outside and the entry of a row differs there from the entry of a sum.
    fn is_unlike(&self, matrix: &Matrix, row: u32, sum: Sum, line: u32) -> bool
        requires width { matrix.now.width ≡ self.now.inside.size }
        requires row { row < height matrix.now }
        requires sum { IsSumOf matrix.now sum }
        requires line { line < self.now.inside.size }
        ensures yes { result ≡ true
            → ¬ (entry matrix.now row line ≡ sum_at matrix.now sum line) }
        ensures no { result ≡ false
            → (is_inside self.now line ≡ true)
            ⊎ (entry matrix.now row line ≡ sum_at matrix.now sum line) }
    {
        if self.inside.has(line) {
            return false;
        }
        !sum.is_at(matrix, row, line)
    }
}

// The columns of a chunk of 64 in which a row differs from a multiple of another row.
fn difference(matrix: &Matrix, row: u32, multiple: Multiple, chunk: usize) -> u64
    requires row { row < height matrix.now }
    requires model { multiple.model < height matrix.now }
    requires factor { IsEntry multiple.factor }
    requires chunk { chunk < words_for matrix.now.width }
    ensures { (k : ℕ) → k < 64
        → has_bit result k
        ≡ differs_at matrix.now row multiple.factor multiple.model (64 * chunk + k) }
{
    let _rows = matrix.rows();
    if multiple.factor == 0 {
        return columns_of(matrix, row)[chunk];
    }
    matrix.difference_word(row, multiple.factor, multiple.model, chunk as u32)
}

fn have_common_bit(word: u64, other: u64) -> bool
    ensures { IsTrue result
        ↔ ((k : ℕ) × (k < 64) × (has_bit word k ≡ true) × (has_bit other k ≡ true)) }
{
    word & other != 0
}
