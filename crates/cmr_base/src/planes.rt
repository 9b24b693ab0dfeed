//! Rows of entries as bits of words: column c is the bit 2^(c mod 64) of word c / 64.

ghost use Rattle.std.specs.Prelude.{◌≡◌, ◌≢◌, ◌<◌, ◌≤◌, ◌+◌, ◌*◌, ◌/◌, ◌++◌, ℕ, IfOk, OnOk, take, drop, length, count_ones};
ghost use Rattle.std.specs.Int.{bit_at};
ghost use Rattle.std.specs.Int.Bits.{bit_xor};
ghost use Rattle.std.specs.List.{flat_map, sum_by};
ghost use Rattle.std.specs.Simd.Lanes.{chunk, put_chunk, zip2};
ghost use Rattle.cmr_base.specs.Matrix.{is_nonzero, rows_of};
ghost use Rattle.cmr_base.specs.Planes.{bits_of, has_bit, is_minus, IsXorBefore, words_for, words_of};
ghost use Rattle.cmr_base.specs.PlaneTests.{test_of};

use crate::{MAX_COLUMNS, MAX_ROWS, Memory};
use std::alloc::Global;
use std::simd::prelude::*;

/// Which entries have a bit.
#[derive(Clone, Copy)]
pub enum Plane {
    Support,
    Minus,
}

/// The number of words that hold the bits of `columns` columns.
pub fn words_for(columns: u32) -> usize
    ensures { result ≡ words_for columns }
{
    (columns as usize + 63) / 64
}

/// The index of the word with the bit for a column of a row. Each row has the words for `columns` columns.
pub fn place_of(columns: u32, row: u32, column: u32) -> usize
    requires row { row ≤ MAX_ROWS }
    requires columns { columns ≤ MAX_COLUMNS }
    ensures { result ≡ row * words_for columns + column / 64 }
{
    row as usize * words_for(columns) + column as usize / 64
}

/// The words of a row of a plane in which each row has `words` words.
pub fn row_words(plane: &[u64], row: u32, words: usize) -> &[u64]
    requires row { row * words + words ≤ length plane.now }
    requires words { words ≤ 16 }
    ensures { result.now ≡ take words (drop (row * words) plane.now) }
{
    let from = row as usize * words;
    &plane[from..from + words]
}

/// The plane of the nonzeros of cells, and the plane of their entries -1.
#[derive(Drop)]
pub struct Planes {
    pub support: Vec<u64>,
    pub minus: Vec<u64>,
}

/// The planes of cells that are listed row by row.
pub fn planes_of(alloc: Global, cells: &[i8], rows: u32, columns: u32) -> Result<Planes, Memory>
    requires rows { rows ≤ MAX_ROWS }
    requires columns { columns ≤ MAX_COLUMNS }
    requires whole { length cells.now ≡ rows * columns }
    ensures support { IfOk result (λ made. made.support.items
        ≡ flat_map (words_of (words_for columns) is_nonzero) (rows_of rows columns cells.now)) }
    ensures minus { IfOk result (λ made. made.minus.items
        ≡ flat_map (words_of (words_for columns) is_minus) (rows_of rows columns cells.now)) }
{
    let words = words_for(columns);
    let mut support = Vec::with_capacity(alloc, rows as usize * words)?;
    let mut minus = Vec::with_capacity(alloc, rows as usize * words)?;
    for row in 0..rows {
        let from = row as usize * columns as usize;
        push_row(
            &mut support,
            &mut minus,
            &cells[from..from + columns as usize],
            words,
        )?;
    }
    Ok(Planes { support, minus })
}

fn push_row(
    support: &mut Vec<u64>,
    minus: &mut Vec<u64>,
    row: &[i8],
    words: usize,
) -> Result<(), Memory>
    requires words { words ≡ words_for (length row.now) }
    requires few { length row.now ≤ MAX_COLUMNS }
    ensures support { OnOk result (support.new.items
        ≡ support.old.items ++ words_of words is_nonzero row.now) }
    ensures minus { OnOk result (minus.new.items
        ≡ minus.old.items ++ words_of words is_minus row.now) }
{
    for word in 0..words {
        let from = 64 * word;
        let to = row.len().min(from + 64);
        let (nonzero, negative) = words_in(&row[from..to]);
        support.push(nonzero)?;
        minus.push(negative)?;
    }
    Ok(())
}

// The words of at most 64 entries in both planes.
fn words_in(entries: &[i8]) -> (u64, u64)
    requires { length entries.now ≤ 64 }
    ensures support { result.0 ≡ bits_of is_nonzero entries.now }
    ensures minus { result.1 ≡ bits_of is_minus entries.now }
{
    let mut support = 0u64;
    let mut minus = 0u64;
    for place in 0..entries.len() {
        let entry = entries[place];
        support |= u64::from(passes(entry, Plane::Support)) << place;
        minus |= u64::from(passes(entry, Plane::Minus)) << place;
    }
    (support, minus)
}

/// Whether the entry has a bit in the plane.
pub fn passes(entry: i8, plane: Plane) -> bool
    ensures { result ≡ test_of plane entry }
{
    match plane {
        Plane::Support => entry != 0,
        Plane::Minus => entry < 0,
    }
}

/// Whether the word has a bit at a position.
pub fn has_bit(word: u64, place: u32) -> bool
    requires { place < 64 }
    ensures { result ≡ has_bit word place }
{
    (word >> place) & 1 == 1
}

/// The word with the bit at a position set to `has`.
pub fn with_bit(word: u64, place: u32, has: bool) -> u64
    requires { place < 64 }
    ensures here { has_bit result place ≡ has }
    ensures others { (k : ℕ) → k < 64 → k ≢ place → bit_at result k ≡ bit_at word k }
{
    if has {
        word | (1u64 << place)
    } else {
        word & !(1u64 << place)
    }
}

/// The number of bits in the words.
pub fn count_bits(words: &[u64]) -> u32
    requires { length words.now ≤ 16 * MAX_ROWS }
    ensures { result ≡ sum_by count_ones words.now }
{
    let mut count = 0;
    for word in words {
        count += word.count_ones();
    }
    count
}

// The number of words that are taken at a time.
const LANES: usize = 8;

/// Replaces each word of `into` by its exclusive or with the word of `from` at the same index. It takes eight words at
/// a time, and then the remaining words one by one.
pub fn xor_words(into: &mut [u64], from: &[u64])
    requires { length into.old ≡ length from.now }
    ensures { into.new ≡ zip2 bit_xor into.old from.now }
{
    let whole = xor_lanes(into, from);
    for place in whole..into.len() {
        into[place] ^= from[place];
    }
}

// Does this for the words before the last multiple of eight, and returns that multiple.
fn xor_lanes(into: &mut [u64], from: &[u64]) -> usize
    requires { length into.old ≡ length from.now }
    ensures { IsXorBefore result into.old from.now into.new }
{
    let count = into.len() / LANES;
    for lane in 0..count {
        xor_at(into, from, LANES * lane);
    }
    LANES * count
}

// Does this for the eight words from an index on.
fn xor_at(into: &mut [u64], from: &[u64], place: usize)
    requires room { place + LANES ≤ length into.old }
    requires other { place + LANES ≤ length from.now }
    ensures { into.new ≡ put_chunk place into.old (zip2 bit_xor (chunk place LANES into.old)
        (chunk place LANES from.now)) }
{
    let lanes = u64x8::from_slice(&into[place..]) ^ u64x8::from_slice(&from[place..]);
    lanes.copy_to_slice(&mut into[place..]);
}
