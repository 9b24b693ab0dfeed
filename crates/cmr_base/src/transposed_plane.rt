//! The planes of transposed matrices, word by word.

ghost use Rattle.std.specs.Prelude.{◌≡◌, ◌<◌, ◌≤◌, ◌+◌, ◌*◌, ℕ, true, false, length, IfOk};
ghost use Rattle.cmr_base.specs.ColumnSets.{has_column};
ghost use Rattle.cmr_base.specs.MatrixLayout.{is_in};
ghost use Rattle.cmr_base.specs.Planes.{has_bit, words_for};
ghost use Rattle.cmr_base.specs.TransposedPlanes.{HasNoBitPast, IsPlaneTransposed, IsRowTransposed, IsWordTransposed};

use crate::planes::{row_words, with_bit, words_for};
use crate::{MAX_COLUMNS, MAX_ROWS, Memory};
use std::alloc::Global;

/// The plane in which the rows of a plane are columns.
pub fn transposed_plane(
    alloc: Global,
    plane: &[u64],
    rows: u32,
    columns: u32,
) -> Result<Vec<u64>, Memory>
    requires rows { rows ≤ MAX_ROWS }
    requires columns { columns ≤ MAX_COLUMNS }
    requires whole { length plane.now ≡ rows * words_for columns }
    requires ends { HasNoBitPast plane.now rows columns }
    ensures { IfOk result (λ made.
        IsPlaneTransposed columns (words_for rows) plane.now rows made.items) }
{
    let from = words_for(columns);
    let to = words_for(rows);
    let mut made = vec![in alloc; 0u64; columns as usize * to]?;
    for row in 0..rows {
        transpose_row(row_words(plane, row, from), row, to, &mut made);
    }
    Ok(made)
}

// Sets the bits of a row in its empty column. Each row of the new plane has `to` words.
fn transpose_row(words: &[u64], row: u32, to: usize, made: &mut [u64])
    requires few { length words.now ≤ 16 }
    requires to { to ≤ 16 }
    requires row { row < 64 * to }
    requires inside { (column : ℕ) → has_column words.now column ≡ true
        → column * to + to ≤ length made.old }
    requires empty { (column : ℕ) → is_in to made.old column row ≡ false }
    ensures { IsRowTransposed to row words.now (64 * length words.now) made.old made.new }
{
    for chunk in 0..words.len() {
        transpose_word(words[chunk], 64 * chunk, row, to, made);
    }
}

// Sets the bits of a word, the lowest first. The first column of the word is `first`.
fn transpose_word(word: u64, first: usize, row: u32, to: usize, made: &mut [u64])
    requires first { first ≤ 1024 }
    requires to { to ≤ 16 }
    requires row { row < 64 * to }
    requires inside { (k : ℕ) → k < 64 → has_bit word k ≡ true
        → (first + k) * to + to ≤ length made.old }
    requires empty { (k : ℕ) → k < 64 → is_in to made.old (first + k) row ≡ false }
    ensures { IsWordTransposed to row first word made.old made.new }
{
    let mut rest = word;
    while rest != 0 {
        let place = rest.trailing_zeros();
        let at = (first + place as usize) * to + row as usize / 64;
        made[at] = with_bit(made[at], row % 64, true);
        rest = with_bit(rest, place, false);
    }
}
