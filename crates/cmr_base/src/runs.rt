//! Bitwise copies of parts of rows, for chosen columns that form runs.

ghost use Rattle.std.specs.Prelude.{◌≡◌, ◌<◌, ◌≤◌, ◌+◌, ◌*◌, ◌/◌, ◌%◌, ℕ, false, length, slice_index, IfOk};
ghost use Rattle.cmr_base.specs.ColumnSets.{has_column};
ghost use Rattle.cmr_base.specs.LineSets.{AllBelow};
ghost use Rattle.cmr_base.specs.Planes.{has_bit, words_for};
ghost use Rattle.cmr_base.specs.Runs.{AreRuns, IsPlaneChosen, IsRowChosen, IsRun, IsRunAdded};

use crate::planes::{row_words, words_for};
use crate::{MAX_COLUMNS, MAX_ROWS, Memory};
use std::alloc::Global;

/// Consecutive columns among the chosen ones whose bits are in one word of a part.
#[derive(Clone, Copy)]
pub struct Run {
    /// Its first column.
    pub column: u32,
    /// The index of that column in the list of chosen columns.
    pub place: u32,
    /// The number of its columns.
    pub size: u32,
}

/// The runs of the chosen columns.
pub fn runs_of(alloc: Global, columns: &[u32]) -> Result<Vec<Run>, Memory>
    requires { length columns.now ≤ MAX_COLUMNS }
    ensures { IfOk result (λ runs. AreRuns columns.now runs.items (length columns.now)) }
{
    let mut runs = Vec::new(alloc);
    let mut place = 0;
    while place < columns.len() {
        let size = run_size(columns, place);
        runs.push(Run {
            column: columns[place],
            place: place as u32,
            size,
        })?;
        place += size as usize;
    }
    Ok(runs)
}

// The number of consecutive columns from an index of the chosen columns on, up to the end of the part's word.
fn run_size(columns: &[u32], place: usize) -> u32
    requires inside { place < length columns.now }
    requires few { length columns.now ≤ MAX_COLUMNS }
    ensures { IsRun columns.now (slice_index columns.now place) place result }
{
    let room = (columns.len() - place).min(64 - place % 64);
    let first = columns[place] as usize;
    let mut size = 1;
    while size < room && columns[place + size] as usize == first + size {
        size += 1;
    }
    size as u32
}

/// The words of the chosen rows of a plane, with the bits of the chosen columns only.
pub fn chosen_plane(
    alloc: Global,
    plane: &[u64],
    width: u32,
    rows: &[u32],
    columns: &[u32],
    runs: &[Run],
) -> Result<Vec<u64>, Memory>
    requires width { width ≤ MAX_COLUMNS }
    requires few { length rows.now ≤ MAX_ROWS }
    requires rows { (k : ℕ) → k < length rows.now
        → slice_index rows.now k * words_for width + words_for width ≤ length plane.now }
    requires columns { AllBelow width columns.now }
    requires short { length columns.now ≤ MAX_COLUMNS }
    requires runs { AreRuns columns.now runs.now (length columns.now) }
    ensures { IfOk result (λ made.
        IsPlaneChosen width plane.now rows.now columns.now (length rows.now) made.items) }
{
    let from = words_for(width);
    let to = words_for(columns.len() as u32);
    let mut made = vec![in alloc; 0u64; rows.len() * to]?;
    for place in 0..rows.len() {
        let words = row_words(plane, rows[place], from);
        add_row(words, columns, runs, &mut made, place * to);
    }
    Ok(made)
}

// Adds the bits of the chosen columns to empty words from word `at` on.
fn add_row(words: &[u64], _columns: &[u32], runs: &[Run], made: &mut Vec<u64>, at: usize)
    requires few { length words.now ≤ 16 }
    requires columns { AllBelow (64 * length words.now) _columns.now }
    requires short { length _columns.now ≤ MAX_COLUMNS }
    requires runs { AreRuns _columns.now runs.now (length _columns.now) }
    requires room { at + words_for (length _columns.now) ≤ length made.old.items }
    requires empty { (k : ℕ) → k < length _columns.now
        → has_column made.old.items (64 * at + k) ≡ false }
    ensures { IsRowChosen words.now _columns.now (64 * at) (length _columns.now) made.old.items
        made.new.items }
{
    for number in 0..runs.len() {
        add_run(words, runs[number], made, at);
    }
}

// Adds the bits of a run.
fn add_run(words: &[u64], run: Run, made: &mut Vec<u64>, at: usize)
    requires few { length words.now ≤ 16 }
    requires some { 1 ≤ run.size }
    requires in_word { run.place % 64 + run.size ≤ 64 }
    requires inside { run.column + run.size ≤ 64 * length words.now }
    requires room { at + run.place / 64 < length made.old.items }
    ensures { IsRunAdded words.now run.column run.size (64 * at + run.place) made.old.items
        made.new.items }
{
    let bits = first_bits(bits_from(words, run.column, run.size), run.size);
    made[at + run.place as usize / 64] |= bits << (run.place % 64);
}

// A word whose first `count` bits are the bits of the words from `column` on.
fn bits_from(words: &[u64], column: u32, count: u32) -> u64
    requires few { length words.now ≤ 16 }
    requires some { (1 ≤ count) × (count ≤ 64) }
    requires inside { column + count ≤ 64 * length words.now }
    ensures { (k : ℕ) → k < count → has_bit result k ≡ has_column words.now (column + k) }
{
    let chunk = column as usize / 64;
    let shift = column % 64;
    let low = words[chunk] >> shift;
    if shift + count <= 64 {
        return low;
    }
    low | (words[chunk + 1] << (64 - shift))
}

/// The first `count` bits of a word.
pub fn first_bits(word: u64, count: u32) -> u64
    requires { (1 ≤ count) × (count ≤ 64) }
    ensures inside { (k : ℕ) → k < count → has_bit result k ≡ has_bit word k }
    ensures past { (k : ℕ) → count ≤ k → has_bit result k ≡ false }
{
    word & (u64::MAX >> (64 - count))
}
