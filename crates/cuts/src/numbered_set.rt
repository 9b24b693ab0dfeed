// Growing sets of rows, with a number for the pattern of each column.
ghost use Rattle.std.specs.Prelude.{◌≡◌, ◌<◌, ◌≤◌, ◌⊎◌, ℕ, true, false, length, slice_index_or, IfOk};
ghost use Rattle.std.specs.Int.Bits.{bit_xor};
ghost use Rattle.cmr_base.specs.ColumnSets.{has_column};
ghost use Rattle.cmr_base.specs.Matrix.{height};
ghost use Rattle.cuts.specs.CutSides.{HasSetNumbers};

use cmr_base::columns::next_column;
use cmr_base::{BitSet, Matrix, Memory, columns_of};
use digests::mixed;
use std::alloc::Global;

/// A set of rows, and a number for the pattern of each column on them.
#[derive(Drop)]
pub struct NumberedSet {
    pub set: BitSet,
    pub numbers: Vec<u64>,
}

impl NumberedSet {
    /// A copy of a set and of the numbers.
    pub fn of(alloc: Global, set: &BitSet, numbers: &[u64]) -> Result<NumberedSet, Memory>
        ensures set { IfOk result (λ numbered. numbered.set ≡ set.now) }
        ensures numbers { IfOk result (λ numbered. numbered.numbers.items ≡ numbers.now) }
    {
        Ok(NumberedSet {
            set: set.copied(alloc)?,
            numbers: Vec::from_slice(alloc, numbers)?,
        })
    }

    /// Adds further rows.
    pub fn add(&mut self, matrix: &Matrix, rows: &BitSet)
        requires numbers { HasSetNumbers matrix.now self.old }
        requires rows { rows.now.size ≡ height matrix.now }
        ensures numbers { HasSetNumbers matrix.now self.new }
        ensures only { (x : ℕ) → has_column self.new.set.words x ≡ true
            → (has_column self.old.set.words x ≡ true) ⊎ (has_column rows.now.words x ≡ true) }
    {
        let _rows = matrix.rows();
        let mut from = 0;
        while let Some(row) = rows.next(from) {
            if !self.set.has(row) {
                self.add_row(matrix, row);
            }
            from = row + 1;
        }
    }

    // Adds a row, and adds its weight to the numbers of the columns in which it is not 0.
    fn add_row(&mut self, matrix: &Matrix, row: u32)
        requires row { row < height matrix.now }
        requires numbers { HasSetNumbers matrix.now self.old }
        ensures numbers { HasSetNumbers matrix.now self.new }
        ensures only { (x : ℕ) → has_column self.new.set.words x ≡ true
            → (x ≡ row) ⊎ (has_column self.old.set.words x ≡ true) }
    {
        let _columns = matrix.columns();
        add_weight(&mut self.numbers, columns_of(matrix, row), weight_of(row));
        self.set.insert(row);
    }
}

// The weight that a line adds to the numbers of the lines that are not 0 on it.
fn weight_of(line: u32) -> u64 {
    let seed = u64::from(line) | 1 << 32;
    mixed(mixed(mixed(0, seed), seed), seed)
}

// Adds a weight to the numbers of some lines.
fn add_weight(numbers: &mut Vec<u64>, lines: &[u64], weight: u64)
    requires few { length lines.now ≤ 16 }
    requires inside { (x : ℕ) → has_column lines.now x ≡ true → x < length numbers.old.items }
    ensures size { length numbers.new.items ≡ length numbers.old.items }
    ensures changed { (x : ℕ) → has_column lines.now x ≡ true
        → slice_index_or numbers.new.items x 0
        ≡ bit_xor (slice_index_or numbers.old.items x 0) weight }
    ensures same { (x : ℕ) → has_column lines.now x ≡ false
        → slice_index_or numbers.new.items x 0 ≡ slice_index_or numbers.old.items x 0 }
{
    let mut from = 0;
    while let Some(line) = next_column(lines, from) {
        numbers[line as usize] ^= weight;
        from = line + 1;
    }
}
