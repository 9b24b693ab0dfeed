// Classes of the rows: rows with equal numbers have one class, and number 0 is no class.
ghost use Rattle.std.specs.Prelude.{◌≡◌, length};

use crate::heaps::Heaps;
use cmr_base::{BitSet, Memory};
use std::alloc::Global;

/// The rows of a side, and a number for the class of each row of the matrix.
#[derive(Clone, Copy)]
pub struct LineClasses<'s> {
    pub own: &'s BitSet,
    pub numbers: &'s [u64],
    ghost size: { length numbers.now ≡ own.now.size },
}

impl<'s> LineClasses<'s> {
    ghost use Rattle.std.specs.Prelude.{◌≢◌, ◌<◌, ℕ, true, slice_index_or, IfOk};
    ghost use Rattle.cmr_base.specs.ColumnSets.{has_column};
    ghost use Rattle.cuts.specs.Classes.{IsUnlikeOne, is_in_heap};

    /// The rows that are not in the side and have a class other than the class of a row of `far`.
    pub fn unlike(&self, alloc: Global, far: &BitSet) -> Result<BitSet, Memory>
        requires { far.now.size ≡ self.now.own.now.size }
        ensures size { IfOk result (λ set. set.size ≡ self.now.own.now.size) }
        ensures unlike { IfOk result (λ set. (x : ℕ) → has_column set.words x ≡ true
            → IsUnlikeOne self.now.own.now.size self.now.numbers.now far.now.words x) }
    {
        let class = self.class_of(far);
        if class == 0 {
            return Ok(BitSet::new(alloc, self.own.size())?);
        }
        self.others(alloc, class)
    }

    // The class of one of the rows of `far`, or 0 if none has a class.
    fn class_of(&self, far: &BitSet) -> u64
        requires { far.now.size ≡ self.now.own.now.size }
        ensures { result ≢ 0
            → (k : ℕ)
            × (k < self.now.own.now.size)
            × (has_column far.now.words k ≡ true)
            × (slice_index_or self.now.numbers.now k 0 ≡ result) }
    {
        for row in 0..far.size() {
            if self.numbers[row as usize] != 0 && far.has(row) {
                return self.numbers[row as usize];
            }
        }
        0
    }

    // The rows that are not in the side and have a class other than `class`.
    fn others(&self, alloc: Global, class: u64) -> Result<BitSet, Memory>
        ensures size { IfOk result (λ set. set.size ≡ self.now.own.now.size) }
        ensures others { IfOk result (λ set. (x : ℕ) → has_column set.words x ≡ true
            → (slice_index_or self.now.numbers.now x 0 ≢ 0)
            × (slice_index_or self.now.numbers.now x 0 ≢ class)) }
    {
        let mut set = BitSet::new(alloc, self.own.size())?;
        for row in 0..self.own.size() {
            let number = self.numbers[row as usize];
            if number != 0 && number != class && !self.own.has(row) {
                set.insert(row);
            }
        }
        Ok(set)
    }

    /// The rows of one heap of classes, or of the other.
    pub fn heap(&self, alloc: Global, heaps: &Heaps, inside: bool) -> Result<BitSet, Memory>
        ensures size { IfOk result (λ set. set.size ≡ self.now.own.now.size) }
        ensures heap { IfOk result (λ set. (x : ℕ) → has_column set.words x ≡ true
            → is_in_heap heaps.now (slice_index_or self.now.numbers.now x 0) inside ≡ true) }
    {
        let mut set = BitSet::new(alloc, self.own.size())?;
        for row in 0..self.own.size() {
            if heaps.has(self.numbers[row as usize], inside) {
                set.insert(row);
            }
        }
        Ok(set)
    }
}
