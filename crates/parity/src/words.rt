//! Sets of columns as bits of words: column c is the bit 2^(c mod 64) of word c / 64.

ghost use Rattle.std.specs.Prelude.{◌≡◌, ◌<◌, ◌≤◌, ◌+◌, ◌*◌, ◌/◌, ◌^◌, ◌↔◌, take, drop, IsTrue, IfOk, IfSome, IfNone, length, bit_xor};
ghost use Rattle.std.specs.Int.{bit_at};
ghost use Rattle.parity.specs.Equations.{number_of, common, IsLowest};

use cmr_base::{Memory, xor_words};
use std::alloc::Global;

/// Gives the words of the set at a position, if each set has `words` words.
pub fn words_at(flat: &[u64], place: usize, words: usize) -> &[u64]
    requires { place * words + words ≤ length flat.now }
    ensures { result.now ≡ take words (drop (place * words) flat.now) }
{
    let from = place * words;
    &flat[from..from + words]
}

/// Gives the empty set, in `words` words.
pub fn empty_set(alloc: Global, words: usize) -> Result<Vec<u64>, Memory>
    ensures len { IfOk result (λ set. length set.items ≡ words) }
    ensures none { IfOk result (λ set. number_of set.items ≡ 0) }
{
    Ok(vec![in alloc; 0u64; words]?)
}

/// Removes all columns from the set.
pub fn clear(words: &mut [u64])
    ensures { number_of words.new ≡ 0 }
{
    words.fill(0);
}

/// Decides whether a column is in the set.
pub fn is_set(words: &[u64], column: u32) -> bool
    requires { column / 64 < length words.now }
    ensures { IsTrue result ↔ (bit_at (number_of words.now) column ≡ 1) }
{
    (words[column as usize / 64] >> (column % 64)) & 1 == 1
}

/// Adds a column to the set, or removes it if the set contains it.
pub fn toggle(words: &mut [u64], column: u32)
    requires { column / 64 < length words.old }
    ensures { number_of words.new ≡ bit_xor (number_of words.old) (2 ^ column) }
{
    words[column as usize / 64] ^= 1u64 << (column % 64);
}

/// Replaces the set by the symmetric difference of both sets.
pub fn add(words: &mut [u64], other: &[u64])
    requires { length words.old ≡ length other.now }
    ensures { number_of words.new ≡ bit_xor (number_of words.old) (number_of other.now) }
{
    xor_words(words, other);
}

/// Gives the least column of the set, and `None` if the set is empty.
pub fn lowest(words: &[u64]) -> Option<u32>
    requires { 64 * length words.now < 2 ^ 32 }
    ensures some { IfSome result (IsLowest (number_of words.now)) }
    ensures inside { IfSome result (λ column. column < 64 * length words.now) }
    ensures none { IfNone result (number_of words.now ≡ 0) }
{
    for place in 0..words.len() {
        if words[place] != 0 {
            return Some(64 * place as u32 + words[place].trailing_zeros());
        }
    }
    None
}

/// Decides whether the two sets have an odd number of columns in common.
pub fn have_odd_common(left: &[u64], right: &[u64]) -> bool
    requires { length left.now ≡ length right.now }
    ensures { IsTrue result ↔ (common (number_of left.now) (number_of right.now) ≡ 1) }
{
    let mut odd = 0u32;
    for place in 0..left.len() {
        odd = (odd + (left[place] & right[place]).count_ones()) % 2;
    }
    odd == 1
}
