// A set of rows or of columns as a type.
ghost use Rattle.std.specs.Prelude.{◌≡◌, ◌<◌, ◌≤◌, ◌⊎◌, ◌↔◌, ◌&&◌, ◌||◌, ◌==◌, not, filter, ℕ, true, false, length, IfOk, IsTrue, MatchOption};
ghost use Rattle.std.specs.List.{list_any};
ghost use Rattle.cmr_base.specs.BitSets.{IsBitSet, IsNextOf, AreWordsOf};
ghost use Rattle.cmr_base.specs.ColumnSets.{has_column, Denies, HasCommon, IsApart, IsWithin};
ghost use Rattle.cmr_base.specs.LineSets.{AllBelow, first_lines};
ghost use Rattle.cmr_base.specs.Matrix.{height};
ghost use Rattle.cmr_base.specs.Seeds.{count};
ghost use Rattle.cmr_base.specs.Trees.{support};

use crate::columns::{
    add_column, add_common, add_outside, add_set, clear_set, count_below, empty_set, has_column,
    is_cut, is_empty, is_within, meets, next_column, remove_column,
};
use crate::{Indices, MAX_COLUMNS, Matrix, Memory};
use std::alloc::Global;
use std::marker::Model;

/// A set of rows or of columns: a bit for each number below its size.
#[derive(Debug, Drop)]
pub struct BitSet {
    words: Vec<u64>,
    size: u32,
}

impl Model for BitSet {
    ghost use Rattle.cmr_base.specs.BitSets.{Bits, IsBitSet};

    ghost Value = { Bits };

    ghost view = { λ set. record { size = set.size; words = set.words.items } };

    ghost invariant = { λ set. IsBitSet (record { size = set.size; words = set.words.items }) };
}

impl BitSet {
    /// The empty set of numbers below `size`.
    pub fn new(alloc: Global, size: u32) -> Result<BitSet, Memory>
        requires { size ≤ MAX_COLUMNS }
        ensures size { IfOk result (λ set. set.size ≡ size) }
        ensures none { IfOk result (λ set. (x : ℕ) → has_column set.words x ≡ false) }
    {
        Ok(BitSet {
            words: empty_set(alloc, size)?,
            size,
        })
    }

    /// The set of these numbers.
    pub fn of(alloc: Global, size: u32, numbers: &[u32]) -> Result<BitSet, Memory>
        requires size { size ≤ MAX_COLUMNS }
        requires numbers { AllBelow size numbers.now }
        ensures size { IfOk result (λ set. set.size ≡ size) }
        ensures numbers { IfOk result (λ set. (x : ℕ)
            → has_column set.words x ≡ list_any (λ other. other == x) numbers.now) }
    {
        let mut set = BitSet::new(alloc, size)?;
        for number in numbers {
            set.insert(*number);
        }
        Ok(set)
    }

    /// A copy of the set.
    pub fn copied(&self, alloc: Global) -> Result<BitSet, Memory>
        ensures { IfOk result (λ set. set ≡ self.now) }
    {
        Ok(BitSet {
            words: Vec::from_slice(alloc, &self.words)?,
            size: self.size,
        })
    }

    /// Becomes equal to a set of the same size.
    pub fn copy(&mut self, other: &BitSet)
        requires { other.now.size ≡ self.old.size }
        ensures { self.new ≡ other.now }
    {
        self.words.copy_from_slice(&other.words);
    }

    /// The numbers below the size that are not in the set.
    pub fn others(&self, alloc: Global) -> Result<BitSet, Memory>
        ensures size { IfOk result (λ rest. rest.size ≡ self.now.size) }
        ensures only { IfOk result (λ rest. (x : ℕ) → has_column rest.words x ≡ true
            → (x < self.now.size) × (has_column self.now.words x ≡ false)) }
        ensures all { IfOk result (λ rest. (x : ℕ) → x < self.now.size
            → has_column self.now.words x ≡ false → has_column rest.words x ≡ true) }
    {
        let size = self.size();
        let mut rest = BitSet::new(alloc, size)?;
        for x in 0..size {
            if !self.has(x) {
                rest.insert(x);
            }
        }
        Ok(rest)
    }

    /// The number of bits.
    pub fn size(&self) -> u32
        ensures size { result ≡ self.now.size }
        ensures whole { IsBitSet self.now }
    {
        self.size
    }

    /// The words of the set.
    pub fn words(&self) -> &[u64]
        ensures words { result.now ≡ self.now.words }
        ensures whole { IsBitSet self.now }
    {
        &self.words
    }

    /// Whether a number is in the set.
    pub fn has(&self, x: u32) -> bool
        requires { x < self.now.size }
        ensures { result ≡ has_column self.now.words x }
    {
        has_column(&self.words, x)
    }

    /// Removes all numbers.
    pub fn clear(&mut self)
        ensures size { self.new.size ≡ self.old.size }
        ensures none { (x : ℕ) → has_column self.new.words x ≡ false }
    {
        clear_set(&mut self.words);
    }

    /// Adds a number.
    pub fn insert(&mut self, x: u32)
        requires { x < self.old.size }
        ensures size { self.new.size ≡ self.old.size }
        ensures only { (y : ℕ) → has_column self.new.words y ≡ true
            → (y ≡ x) ⊎ (has_column self.old.words y ≡ true) }
        ensures here { has_column self.new.words x ≡ true }
        ensures kept { (y : ℕ) → has_column self.old.words y ≡ true
            → has_column self.new.words y ≡ true }
    {
        add_column(&mut self.words, x);
    }

    /// Removes a number.
    pub fn remove(&mut self, x: u32)
        requires { x < self.old.size }
        ensures size { self.new.size ≡ self.old.size }
        ensures only { (y : ℕ) → has_column self.new.words y ≡ false
            → (y ≡ x) ⊎ (has_column self.old.words y ≡ false) }
        ensures here { has_column self.new.words x ≡ false }
        ensures kept { (y : ℕ) → has_column self.old.words y ≡ false
            → has_column self.new.words y ≡ false }
    {
        remove_column(&mut self.words, x);
    }

    /// Adds the numbers of another set.
    pub fn add_all(&mut self, other: &BitSet)
        requires { other.now.size ≡ self.old.size }
        ensures size { self.new.size ≡ self.old.size }
        ensures columns { (x : ℕ) → has_column self.new.words x
            ≡ (has_column self.old.words x || has_column other.now.words x) }
    {
        add_set(&mut self.words, &other.words);
    }

    /// Adds the numbers that are in `one` and not in `other`.
    pub fn add_outside(&mut self, one: &BitSet, other: &BitSet)
        requires one { one.now.size ≡ self.old.size }
        requires other { other.now.size ≡ self.old.size }
        ensures size { self.new.size ≡ self.old.size }
        ensures columns { (x : ℕ) → has_column self.new.words x
            ≡ (has_column self.old.words x
            || (has_column one.now.words x && not (has_column other.now.words x))) }
    {
        add_outside(&mut self.words, &one.words, &other.words);
    }

    /// Whether the set is empty.
    pub fn is_empty(&self) -> bool
        ensures { IsTrue result ↔ ((x : ℕ) → has_column self.now.words x ≡ false) }
    {
        is_empty(&self.words)
    }

    /// Whether some number is in both sets.
    pub fn meets(&self, other: &BitSet) -> bool
        requires { other.now.size ≡ self.now.size }
        ensures { IsTrue result ↔ HasCommon self.now.words other.now.words }
    {
        meets(&self.words, &other.words)
    }

    /// Whether each number of this set is in the other.
    pub fn is_within(&self, other: &BitSet) -> bool
        requires { other.now.size ≡ self.now.size }
        ensures { IsTrue result ↔ IsWithin self.now.words other.now.words }
    {
        is_within(&self.words, &other.words)
    }

    /// The first number of the set that is at least `from`.
    pub fn next(&self, from: u32) -> Option<u32>
        ensures { MatchOption result
            ((x : ℕ) → from ≤ x → has_column self.now.words x ≡ false)
            (IsNextOf self.now from) }
    {
        if from >= self.size {
            return None;
        }
        next_column(&self.words, from)
    }

    /// The number of members.
    pub fn count(&self) -> u32
        ensures count { result ≡ count (has_column self.now.words) self.now.size }
        ensures few { result ≤ MAX_COLUMNS }
    {
        count_below(&self.words, self.size)
    }

    /// The number of numbers below the size that are not in the set.
    pub fn count_others(&self) -> u32
        ensures count { result ≡ count (λ x. not (has_column self.now.words x)) self.now.size }
        ensures few { result ≤ MAX_COLUMNS }
    {
        self.size - count_below(&self.words, self.size)
    }

    /// The members, as a list.
    pub fn listed(&self, alloc: Global) -> Result<Indices, Memory>
        ensures { IfOk result (λ members. members
            ≡ filter (has_column self.now.words) (first_lines self.now.size)) }
    {
        let size = self.size();
        let mut members = Indices::new(alloc);
        for x in 0..size {
            if self.has(x) {
                members.push(x)?;
            }
        }
        Ok(members)
    }
}

// -- rows of a matrix, whose columns with a nonzero are given as words

/// The columns in which a row is not 0.
pub fn columns_of(matrix: &Matrix, row: u32) -> &[u64]
    requires { row < height matrix.now }
    ensures columns { (column : ℕ) → has_column result.now column ≡ support matrix.now row column }
    ensures whole { AreWordsOf matrix.now.width result.now }
{
    let _rows = matrix.rows();
    matrix.support_words(row)
}

impl BitSet {
    /// Adds the numbers of a set that is given as words.
    pub fn add_words(&mut self, words: &[u64])
        requires { AreWordsOf self.old.size words.now }
        ensures size { self.new.size ≡ self.old.size }
        ensures columns { (x : ℕ) → has_column self.new.words x
            ≡ (has_column self.old.words x || has_column words.now x) }
    {
        add_set(&mut self.words, words);
    }

    /// Adds the numbers that are in `one` and in a set that is given as words.
    pub fn add_common_words(&mut self, one: &BitSet, words: &[u64])
        requires one { one.now.size ≡ self.old.size }
        requires words { AreWordsOf self.old.size words.now }
        ensures size { self.new.size ≡ self.old.size }
        ensures columns { (x : ℕ) → has_column self.new.words x
            ≡ (has_column self.old.words x
            || (has_column one.now.words x && has_column words.now x)) }
    {
        add_common(&mut self.words, &one.words, words);
    }

    /// Adds the numbers that are in `one` and not in a set that is given as words.
    pub fn add_outside_words(&mut self, one: &BitSet, words: &[u64])
        requires one { one.now.size ≡ self.old.size }
        requires words { AreWordsOf self.old.size words.now }
        ensures size { self.new.size ≡ self.old.size }
        ensures columns { (x : ℕ) → has_column self.new.words x
            ≡ (has_column self.old.words x
            || (has_column one.now.words x && not (has_column words.now x))) }
    {
        add_outside(&mut self.words, &one.words, words);
    }

    /// Whether some number is in the set and in a set that is given as words.
    pub fn meets_words(&self, words: &[u64]) -> bool
        requires { AreWordsOf self.now.size words.now }
        ensures { IsTrue result ↔ HasCommon self.now.words words.now }
    {
        meets(&self.words, words)
    }

    /// Whether a set that is given as words has some numbers of the set, but not all.
    pub fn is_cut_by_words(&self, words: &[u64]) -> bool
        requires { AreWordsOf self.now.size words.now }
        ensures { Denies result
            (IsWithin self.now.words words.now ⊎ IsApart self.now.words words.now) }
    {
        is_cut(&self.words, words)
    }
}
