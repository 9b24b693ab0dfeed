//! Sets of columns as words: column c is in a set if and only if the bit 2^(c mod 64) of word c / 64 is 1.

ghost use Rattle.std.specs.Prelude.{◌≡◌, ◌<◌, ◌≤◌, ◌*◌, ◌/◌, ◌↔◌, ◌⊎◌, ◌&&◌, ◌||◌, not, ℕ, true, false, length, count_by, IfOk, IsTrue, MatchOption};
ghost use Rattle.cmr_base.specs.LineSets.{first_lines};
ghost use Rattle.cmr_base.specs.Planes.{has_bit, words_for};
ghost use Rattle.cmr_base.specs.ColumnSets.{has_column, Denies, HasCommon, IsApart, IsWithin};
ghost use Rattle.cmr_base.specs.Seeds.{count};

use crate::runs::first_bits;
use crate::{MAX_COLUMNS, Memory, has_bit, with_bit, words_for};
use std::alloc::Global;

/// The empty set of columns, with the words for a matrix of `columns` columns.
pub fn empty_set(alloc: Global, columns: u32) -> Result<Vec<u64>, Memory>
    requires { columns ≤ MAX_COLUMNS }
    ensures size { IfOk result (λ set. length set.items ≡ words_for columns) }
    ensures none { IfOk result (λ set. (column : ℕ) → has_column set.items column ≡ false) }
{
    Ok(vec![in alloc; 0u64; words_for(columns)]?)
}

/// Removes all columns from a set.
pub fn clear_set(set: &mut Vec<u64>)
    ensures size { length set.new.items ≡ length set.old.items }
    ensures none { (column : ℕ) → has_column set.new.items column ≡ false }
{
    set.fill(0);
}

/// Whether a column is in a set.
pub(crate) fn has_column(set: &[u64], column: u32) -> bool
    requires { column / 64 < length set.now }
    ensures { result ≡ has_column set.now column }
{
    has_bit(set[column as usize / 64], column % 64)
}

/// Adds a column to a set.
pub fn add_column(set: &mut Vec<u64>, column: u32)
    requires { column / 64 < length set.old.items }
    ensures size { length set.new.items ≡ length set.old.items }
    ensures only { (x : ℕ) → has_column set.new.items x ≡ true
        → (x ≡ column) ⊎ (has_column set.old.items x ≡ true) }
    ensures here { has_column set.new.items column ≡ true }
    ensures kept { (x : ℕ) → has_column set.old.items x ≡ true
        → has_column set.new.items x ≡ true }
{
    let place = column as usize / 64;
    set[place] = with_bit(set[place], column % 64, true);
}

/// Removes a column from a set.
pub fn remove_column(set: &mut Vec<u64>, column: u32)
    requires { column / 64 < length set.old.items }
    ensures size { length set.new.items ≡ length set.old.items }
    ensures only { (x : ℕ) → has_column set.new.items x ≡ false
        → (x ≡ column) ⊎ (has_column set.old.items x ≡ false) }
    ensures here { has_column set.new.items column ≡ false }
    ensures kept { (x : ℕ) → has_column set.old.items x ≡ false
        → has_column set.new.items x ≡ false }
{
    let place = column as usize / 64;
    set[place] = with_bit(set[place], column % 64, false);
}

/// Adds the columns of another set.
pub fn add_set(set: &mut Vec<u64>, other: &[u64])
    requires { length other.now ≡ length set.old.items }
    ensures size { length set.new.items ≡ length set.old.items }
    ensures columns { (column : ℕ)
        → has_column set.new.items column
        ≡ (has_column set.old.items column || has_column other.now column) }
{
    for chunk in 0..set.len() {
        set[chunk] |= other[chunk];
    }
}

/// Adds the columns that are in both `one` and `two`.
pub(crate) fn add_common(set: &mut Vec<u64>, one: &[u64], two: &[u64])
    requires one { length one.now ≡ length set.old.items }
    requires two { length two.now ≡ length set.old.items }
    ensures size { length set.new.items ≡ length set.old.items }
    ensures columns { (column : ℕ)
        → has_column set.new.items column
        ≡ (has_column set.old.items column
        || (has_column one.now column && has_column two.now column)) }
{
    for chunk in 0..set.len() {
        set[chunk] |= one[chunk] & two[chunk];
    }
}

/// Adds the columns that are in `one` and not in `other`.
pub fn add_outside(set: &mut Vec<u64>, one: &[u64], other: &[u64])
    requires one { length one.now ≡ length set.old.items }
    requires other { length other.now ≡ length set.old.items }
    ensures size { length set.new.items ≡ length set.old.items }
    ensures columns { (column : ℕ)
        → has_column set.new.items column
        ≡ (has_column set.old.items column
        || (has_column one.now column && not (has_column other.now column))) }
{
    for chunk in 0..set.len() {
        set[chunk] |= outside(one[chunk], other[chunk]);
    }
}

/// The bits of `word` that `other` does not have.
pub fn outside(word: u64, other: u64) -> u64
    ensures { (k : ℕ) → k < 64 → has_bit result k ≡ (has_bit word k && not (has_bit other k)) }
{
    word & !other
}

/// Whether no column is in a set.
pub fn is_empty(set: &[u64]) -> bool
    ensures { IsTrue result ↔ ((column : ℕ) → has_column set.now column ≡ false) }
{
    for chunk in 0..set.len() {
        if set[chunk] != 0 {
            return false;
        }
    }
    true
}

/// Whether some column is in both sets.
pub fn meets(one: &[u64], two: &[u64]) -> bool
    requires { length one.now ≡ length two.now }
    ensures { IsTrue result ↔ HasCommon one.now two.now }
{
    for chunk in 0..one.len() {
        if share_bit(one[chunk], two[chunk]) {
            return true;
        }
    }
    false
}

/// Whether each column of the first set is in the second.
pub fn is_within(one: &[u64], two: &[u64]) -> bool
    requires { length one.now ≡ length two.now }
    ensures { IsTrue result ↔ IsWithin one.now two.now }
{
    for chunk in 0..one.len() {
        if !is_part(one[chunk], two[chunk]) {
            return false;
        }
    }
    true
}

// Whether `other` has each bit of `word`.
fn is_part(word: u64, other: u64) -> bool
    ensures { IsTrue result ↔ ((k : ℕ) → k < 64 → has_bit word k ≡ true → has_bit other k ≡ true) }
{
    word & !other == 0
}

// Whether two words have a bit in common.
fn share_bit(one: u64, two: u64) -> bool
    ensures { IsTrue result
        ↔ ((k : ℕ) × (k < 64) × (has_bit one k ≡ true) × (has_bit two k ≡ true)) }
{
    one & two != 0
}

/// The first column of a set that is at least `from`.
pub fn next_column(set: &[u64], from: u32) -> Option<u32>
    requires size { length set.now ≤ 16 }
    requires from { from ≤ 1024 }
    ensures { MatchOption result
        ((column : ℕ) → from ≤ column → has_column set.now column ≡ false)
        (λ next. (from ≤ next)
        × (next < 64 * length set.now)
        × (has_column set.now next ≡ true)
        × ((column : ℕ) → from ≤ column → column < next → has_column set.now column ≡ false)) }
{
    let mut column = from;
    while (column as usize) < 64 * set.len() {
        let word = set[column as usize / 64] >> (column % 64);
        if word != 0 {
            return Some(column + word.trailing_zeros());
        }
        column = column - column % 64 + 64;
    }
    None
}

/// Whether the second set has some columns of the first set, but not all.
pub fn is_cut(one: &[u64], two: &[u64]) -> bool
    requires { length one.now ≡ length two.now }
    ensures { Denies result (IsWithin one.now two.now ⊎ IsApart one.now two.now) }
{
    meets(one, two) && !is_within(one, two)
}

/// The number of columns in a set.
pub fn count_columns(set: &[u64]) -> u32
    requires { length set.now ≤ 16 }
    ensures count { (width : ℕ) → ((column : ℕ) → has_column set.now column ≡ true → column < width)
        → result ≡ count_by (has_column set.now) (first_lines width) }
    ensures few { result ≤ 1024 }
{
    let mut count = 0;
    let mut from = 0;
    while let Some(column) = next_column(set, from) {
        count += 1;
        from = column + 1;
    }
    count
}

/// The number of columns below `columns` in a set.
pub(crate) fn count_below(set: &[u64], columns: u32) -> u32
    requires { length set.now ≡ words_for columns }
    ensures count { result ≡ count (has_column set.now) columns }
    ensures few { result ≤ columns }
{
    let mut count = 0;
    for chunk in 0..set.len() {
        let places = (columns - 64 * chunk as u32).min(64);
        count += first_bits(set[chunk], places).count_ones();
    }
    count
}
