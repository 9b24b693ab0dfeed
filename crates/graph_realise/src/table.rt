// Tables of truth values.
ghost use Rattle.std.specs.Prelude.{◌≡◌, ◌<◌, ◌≤◌, ◌+◌, ◌*◌, ◌&&◌, ◌||◌, not, ℕ, false, length, IfOk};
ghost use Rattle.cmr_base.specs.Matrix.{height};
ghost use Rattle.cmr_base.specs.Planes.{has_bit, words_for};
ghost use Rattle.cmr_base.specs.Trees.{support};
ghost use Rattle.cmr_base.specs.BitSets.{AreWordsOf};
ghost use Rattle.cmr_base.specs.ColumnSets.{has_column};
ghost use Rattle.graph_realise.specs.BitTables.{cell, AreChunksOf, IsCellSet, IsRowFilled, IsWordSet};

use cmr_base::columns::outside;
use cmr_base::{BitSet, MAX_COLUMNS, MAX_ROWS, Matrix, Memory, has_bit, with_bit, words_for};
use std::alloc::Global;
use std::marker::Model;

/// A table of truth values. Each row is a list of words: the value in column c is the bit 2^(c mod 64) of word c / 64.
#[derive(Debug, Drop)]
pub struct Table {
    height: u32,
    width: u32,
    words: Vec<u64>,
}

impl Model for Table {
    ghost use Rattle.graph_realise.specs.BitTables.{Grid};

    ghost Value = { Grid };

    ghost use Rattle.graph_realise.specs.TableLayout.{grid_of, IsLaidOut};

    ghost view = { grid_of };

    ghost invariant = { IsLaidOut };
}

impl Table {
    /// The table of the value `false`.
    pub fn new(alloc: Global, height: u32, width: u32) -> Result<Table, Memory>
        requires height { height ≤ MAX_ROWS }
        requires width { width ≤ MAX_COLUMNS }
        ensures height { IfOk result (λ table. table.height ≡ height) }
        ensures width { IfOk result (λ table. table.width ≡ width) }
        ensures none { IfOk result (λ table. (row column : ℕ) → cell table row column ≡ false) }
    {
        Ok(Table {
            height,
            width,
            words: vec![in alloc; 0u64; height as usize * words_for(width)]?,
        })
    }

    /// The value in a row and a column.
    pub fn get(&self, row: u32, column: u32) -> bool
        requires row { row < self.now.height }
        requires column { column < self.now.width }
        ensures { result ≡ cell self.now row column }
    {
        has_bit(self.word(row, column / 64), column % 64)
    }

    /// Changes only the value in this row and column.
    pub fn set(&mut self, row: u32, column: u32, value: bool)
        requires row { row < self.old.height }
        requires column { column < self.old.width }
        ensures { IsCellSet self.old self.new row column value }
    {
        let chunk = column / 64;
        let word = with_bit(self.word(row, chunk), column % 64, value);
        self.set_word(row, chunk, word);
    }

    /// Negates the values in the columns that are marked in a line of another table, and clears the rest of the row.
    pub fn reverse(&mut self, row: u32, marks: &Table, line: u32)
        requires row { row < self.old.height }
        requires line { line < marks.now.height }
        requires width { marks.now.width ≡ self.old.width }
        ensures { IsRowFilled
            (λ column. cell marks.now line column && not (cell self.old row column))
            self.old self.new row self.old.width }
    {
        for chunk in 0..self.chunks() {
            let word = outside(marks.word(line, chunk), self.word(row, chunk));
            self.set_word(row, chunk, word);
        }
    }

    /// Clears the values of the row in the columns in which a row of a matrix is not 0. `chunks` contains the chunks of all
    /// these columns.
    pub fn take_out(&mut self, row: u32, matrix: &Matrix, other: u32, chunks: &[u32])
        requires row { row < self.old.height }
        requires other { other < height matrix.now }
        requires width { matrix.now.width ≡ self.old.width }
        requires chunks { AreChunksOf (support matrix.now other) matrix.now.width chunks.now }
        ensures { IsRowFilled
            (λ column. cell self.old row column && not (support matrix.now other column))
            self.old self.new row self.old.width }
    {
        for chunk in chunks {
            let word = self.word(row, *chunk);
            let gone = matrix.support_word(other, *chunk);
            if word & gone != 0 {
                self.set_word(row, *chunk, outside(word, gone));
            }
        }
    }

    /// Sets the values of the row in the columns that are marked in a line of another table.
    pub fn add(&mut self, row: u32, marks: &Table, line: u32)
        requires row { row < self.old.height }
        requires line { line < marks.now.height }
        requires width { marks.now.width ≡ self.old.width }
        ensures { IsRowFilled
            (λ column. cell self.old row column || cell marks.now line column)
            self.old self.new row self.old.width }
    {
        for chunk in 0..self.chunks() {
            let word = self.word(row, chunk) | marks.word(line, chunk);
            self.set_word(row, chunk, word);
        }
    }

    /// Sets the values of the row in the columns in which both rows of a matrix are not 0. `chunks` contains the chunks of all
    /// columns of the other row.
    pub fn add_common(&mut self, row: u32, matrix: &Matrix, one: u32, other: u32, chunks: &[u32])
        requires row { row < self.old.height }
        requires one { one < height matrix.now }
        requires other { other < height matrix.now }
        requires width { matrix.now.width ≡ self.old.width }
        requires chunks { AreChunksOf (support matrix.now other) matrix.now.width chunks.now }
        ensures { IsRowFilled
            (λ column. cell self.old row column
            || support matrix.now one column && support matrix.now other column)
            self.old self.new row self.old.width }
    {
        for chunk in chunks {
            let common = matrix.support_word(one, *chunk) & matrix.support_word(other, *chunk);
            if common != 0 {
                self.set_word(row, *chunk, self.word(row, *chunk) | common);
            }
        }
    }

    /// Clears all values of a row.
    pub fn clear(&mut self, row: u32)
        requires { row < self.old.height }
        ensures { IsRowFilled (λ column. false) self.old self.new row self.old.width }
    {
        for chunk in 0..self.chunks() {
            self.set_word(row, chunk, 0);
        }
    }

    /// Sets the values of a row in the columns that are in both sets, the first of them given as words, and clears the rest.
    pub fn fill_common(&mut self, row: u32, one: &[u64], two: &BitSet)
        requires row { row < self.old.height }
        requires one { AreWordsOf self.old.width one.now }
        requires two { two.now.size ≡ self.old.width }
        ensures { IsRowFilled
            (λ column. has_column one.now column && has_column two.now.words column)
            self.old self.new row self.old.width }
    {
        let two = two.words();
        for chunk in 0..self.chunks() {
            let word = one[chunk as usize] & two[chunk as usize];
            self.set_word(row, chunk, word);
        }
    }

    /// Sets the values of a row in the columns that are in `one`, given as words, and not in `other`, and clears the rest.
    pub fn fill_outside(&mut self, row: u32, one: &[u64], other: &BitSet)
        requires row { row < self.old.height }
        requires one { AreWordsOf self.old.width one.now }
        requires other { other.now.size ≡ self.old.width }
        ensures { IsRowFilled
            (λ column. has_column one.now column && not (has_column other.now.words column))
            self.old self.new row self.old.width }
    {
        let other = other.words();
        for chunk in 0..self.chunks() {
            let word = one[chunk as usize] & !other[chunk as usize];
            self.set_word(row, chunk, word);
        }
    }

    // The number of words of a row.
    fn chunks(&self) -> u32
        ensures { result ≡ words_for self.now.width }
    {
        (self.width + 63) / 64
    }

    fn word(&self, row: u32, chunk: u32) -> u64
        requires row { row < self.now.height }
        requires chunk { 64 * chunk < self.now.width }
        ensures { (k : ℕ) → k < 64 → 64 * chunk + k < self.now.width
            → has_bit result k ≡ cell self.now row (64 * chunk + k) }
    {
        self.words[row as usize * words_for(self.width) + chunk as usize]
    }

    fn set_word(&mut self, row: u32, chunk: u32, word: u64)
        requires row { row < self.old.height }
        requires chunk { 64 * chunk < self.old.width }
        ensures { IsWordSet self.old self.new row chunk word }
    {
        self.words[row as usize * words_for(self.width) + chunk as usize] = word;
    }
}
