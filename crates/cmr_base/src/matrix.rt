ghost use Rattle.std.specs.Prelude.{◌≡◌, ◌<◌, ◌≤◌, ◌*◌, ℕ, length, slice_index_or, IfOk, pos, replicate};
ghost use Rattle.std.specs.List.Sorted.{IsStrictlyIncreasing};
ghost use Rattle.cmr_base.specs.CopiedEntries.{ArePlaces, IsEmptyRow, IsRowCopied};
ghost use Rattle.cmr_base.specs.Matrix.{Matrix, height, row_of, entry, with_entry, transposed, IsMatrix, IsEntry, rows_of, nonzeros_of, is_nonzero};
ghost use Rattle.cmr_base.specs.LineSets.{AllBelow, submatrix};
ghost use Rattle.cmr_base.specs.MatrixLayout.{value_of};
ghost use Rattle.cmr_base.specs.Planes.{is_minus, word_of, words_for, words_of};
ghost use Rattle.cmr_base.specs.Runs.{AreRuns};

use crate::planes::{
    Plane, count_bits, has_bit, passes, place_of, planes_of, row_words, with_bit, words_for,
};
use crate::runs::{Run, chosen_plane, runs_of};
use crate::transposed_plane::transposed_plane;
use crate::{Indices, LineSet, MAX_COLUMNS, MAX_ROWS, Memory};
use std::alloc::Global;
use std::marker::Model;

// The largest number of runs for each word of a row with which `part_on` copies rows bitwise.
const RUNS_FOR_A_WORD: usize = 4;

/// A matrix with entries -1, 0 and 1. Contracts see the list of its rows and its width, so that a matrix without rows
/// also has a width. Threads may share it.
///
/// It has two planes with the same number of words for each row: the bits of the nonzeros, and the bits of the entries
/// -1. Column c is the bit 2^(c mod 64) of the row's word c / 64.
#[derive(Debug, Drop)]
pub struct Matrix {
    rows: u32,
    columns: u32,
    support: Vec<u64>,
    minus: Vec<u64>,
}

impl Model for Matrix {
    ghost use Rattle.cmr_base.specs.Matrix.{Matrix};

    ghost Value = { Matrix };

    ghost use Rattle.cmr_base.specs.MatrixLayout.{matrix_of, IsLaidOut};

    ghost view = { matrix_of };

    ghost invariant = { IsLaidOut };
}

impl Matrix {
    /// The matrix of zeros.
    pub fn zero(alloc: Global, rows: u32, columns: u32) -> Result<Matrix, Memory>
        requires rows { rows ≤ MAX_ROWS }
        requires columns { columns ≤ MAX_COLUMNS }
        ensures { IfOk result (λ m. m ≡ record {
          rows = replicate rows (replicate columns (pos 0));
          width = columns;
        }) }
    {
        let words = rows as usize * words_for(columns);
        Ok(Matrix {
            rows,
            columns,
            support: vec![in alloc; 0u64; words]?,
            minus: vec![in alloc; 0u64; words]?,
        })
    }

    /// The matrix of these cells, which are listed row by row.
    pub fn from_cells(
        alloc: Global,
        rows: u32,
        columns: u32,
        cells: &[i8],
    ) -> Result<Matrix, Memory>
        requires rows { rows ≤ MAX_ROWS }
        requires columns { columns ≤ MAX_COLUMNS }
        requires whole { length cells.now ≡ rows * columns }
        requires small { (k : ℕ) → IsEntry (slice_index_or cells.now k (pos 0)) }
        ensures { IfOk result (λ m. m ≡ record {
          rows = rows_of rows columns cells.now;
          width = columns;
        }) }
    {
        let planes = planes_of(alloc, cells, rows, columns)?;
        Ok(Matrix {
            rows,
            columns,
            support: planes.support,
            minus: planes.minus,
        })
    }

    /// A copy of the matrix.
    pub fn copy(&self, alloc: Global) -> Result<Matrix, Memory>
        ensures copy { IfOk result (λ copy. copy ≡ self.now) }
        ensures shape { IsMatrix self.now }
    {
        let _rows = self.rows();
        let mut support = Vec::new(alloc);
        support.extend_from_slice(&self.support)?;
        let mut minus = Vec::new(alloc);
        minus.extend_from_slice(&self.minus)?;
        Ok(Matrix {
            rows: self.rows,
            columns: self.columns,
            support,
            minus,
        })
    }

    /// The number of rows.
    pub fn rows(&self) -> u32
        ensures rows { result ≡ height self.now }
        ensures shape { IsMatrix self.now }
    {
        self.rows
    }

    /// The number of columns.
    pub fn columns(&self) -> u32
        ensures columns { result ≡ self.now.width }
        ensures shape { IsMatrix self.now }
    {
        self.columns
    }

    /// The entry in a row and a column.
    pub fn entry(&self, row: u32, column: u32) -> i8
        requires row { row < height self.now }
        requires column { column < self.now.width }
        ensures value { result ≡ entry self.now row column }
        ensures small { IsEntry result }
    {
        let place = place_of(self.columns, row, column);
        let is_nonzero = has_bit(self.support[place], column % 64);
        let is_minus = has_bit(self.minus[place], column % 64);
        value_of(is_nonzero, is_minus)
    }

    /// The bits of the nonzeros of a row in the 64 columns of a chunk: column c is the bit 2^(c mod 64) of chunk c /
    /// 64. The bits past the last column are 0.
    pub fn support_word(&self, row: u32, chunk: u32) -> u64
        requires row { row < height self.now }
        requires chunk { 64 * chunk < self.now.width }
        ensures { result ≡ word_of is_nonzero (row_of self.now row) chunk }
    {
        self.support[place_of(self.columns, row, 64 * chunk)]
    }

    /// The bits of the entries -1 of a row in the same columns. They are a subset of the support's bits.
    pub fn minus_word(&self, row: u32, chunk: u32) -> u64
        requires row { row < height self.now }
        requires chunk { 64 * chunk < self.now.width }
        ensures { result ≡ word_of is_minus (row_of self.now row) chunk }
    {
        self.minus[place_of(self.columns, row, 64 * chunk)]
    }

    /// The words of a row's support, chunk by chunk.
    pub fn support_words(&self, row: u32) -> &[u64]
        requires { row < height self.now }
        ensures { result.now ≡ words_of (words_for self.now.width) is_nonzero
            (row_of self.now row) }
    {
        row_words(&self.support, row, words_for(self.columns))
    }

    /// The words of the columns in which a row is -1, chunk by chunk.
    pub fn minus_words(&self, row: u32) -> &[u64]
        requires { row < height self.now }
        ensures { result.now ≡ words_of (words_for self.now.width) is_minus (row_of self.now row) }
    {
        row_words(&self.minus, row, words_for(self.columns))
    }

    /// Changes one entry.
    pub fn set(&mut self, row: u32, column: u32, value: i8)
        requires row { row < height self.old }
        requires column { column < self.old.width }
        requires small { IsEntry value }
        ensures { self.new ≡ with_entry self.old row column value }
    {
        let place = place_of(self.columns, row, column);
        let is_nonzero = passes(value, Plane::Support);
        let is_minus = passes(value, Plane::Minus);
        self.support[place] = with_bit(self.support[place], column % 64, is_nonzero);
        self.minus[place] = with_bit(self.minus[place], column % 64, is_minus);
    }

    /// The number of nonzeros.
    pub fn nonzeros(&self) -> u32
        ensures { result ≡ nonzeros_of self.now.rows }
    {
        count_bits(&self.support)
    }

    /// The submatrix on these lines. Its rows and columns keep the matrix's order.
    pub fn part(&self, alloc: Global, lines: &LineSet) -> Result<Matrix, Memory>
        requires rows { AllBelow (height self.now) lines.now.rows }
        requires columns { AllBelow self.now.width lines.now.columns }
        ensures { IfOk result (λ part. part ≡ submatrix self.now lines.now.rows lines.now.columns) }
    {
        self.part_on(alloc, &lines.rows, &lines.columns)
    }

    /// The submatrix on these rows and columns, in the matrix's order.
    pub(crate) fn part_on(
        &self,
        alloc: Global,
        rows: &Indices,
        columns: &Indices,
    ) -> Result<Matrix, Memory>
        requires rows { AllBelow (height self.now) rows.now }
        requires columns { AllBelow self.now.width columns.now }
        ensures { IfOk result (λ part. part ≡ submatrix self.now rows.now columns.now) }
    {
        let rows = rows.as_slice();
        let columns = columns.as_slice();
        prove!(rows.len() <= self.rows() as usize);
        prove!(columns.len() <= self.columns() as usize);
        let runs = runs_of(alloc, columns)?;
        if runs.len() <= RUNS_FOR_A_WORD * words_for(self.columns) {
            return self.part_by_runs(alloc, rows, columns, &runs);
        }
        self.part_by_nonzeros(alloc, rows, columns)
    }

    // The same submatrix, bitwise. This is fast if the columns form few runs.
    fn part_by_runs(
        &self,
        alloc: Global,
        rows: &[u32],
        columns: &[u32],
        runs: &[Run],
    ) -> Result<Matrix, Memory>
        requires rows { AllBelow (height self.now) rows.now }
        requires columns { AllBelow self.now.width columns.now }
        requires few_rows { length rows.now ≤ MAX_ROWS }
        requires few_columns { length columns.now ≤ MAX_COLUMNS }
        requires runs { AreRuns columns.now runs.now (length columns.now) }
        ensures { IfOk result (λ part. part ≡ submatrix self.now rows.now columns.now) }
    {
        Ok(Matrix {
            rows: rows.len() as u32,
            columns: columns.len() as u32,
            support: chosen_plane(alloc, &self.support, self.columns, rows, columns, runs)?,
            minus: chosen_plane(alloc, &self.minus, self.columns, rows, columns, runs)?,
        })
    }

    // The same submatrix, nonzero by nonzero.
    fn part_by_nonzeros(
        &self,
        alloc: Global,
        rows: &[u32],
        columns: &[u32],
    ) -> Result<Matrix, Memory>
        requires rows { AllBelow (height self.now) rows.now }
        requires columns { AllBelow self.now.width columns.now }
        requires increasing { IsStrictlyIncreasing columns.now }
        requires few_rows { length rows.now ≤ MAX_ROWS }
        requires few_columns { length columns.now ≤ MAX_COLUMNS }
        ensures { IfOk result (λ part. part ≡ submatrix self.now rows.now columns.now) }
    {
        let places = places_of(alloc, columns, self.columns())?;
        let mut part = Matrix::zero(alloc, rows.len() as u32, columns.len() as u32)?;
        for place in 0..rows.len() {
            self.copy_row(rows[place], columns, &places, &mut part, place as u32);
        }
        Ok(part)
    }

    /// The matrix with rows and columns exchanged.
    pub fn transposed(&self, alloc: Global) -> Result<Matrix, Memory>
        ensures { IfOk result (λ m. m ≡ transposed self.now) }
    {
        Ok(Matrix {
            rows: self.columns,
            columns: self.rows,
            support: transposed_plane(alloc, &self.support, self.rows, self.columns)?,
            minus: transposed_plane(alloc, &self.minus, self.rows, self.columns)?,
        })
    }

    // Writes the chosen entries of a row into an empty row, nonzero by nonzero.
    fn copy_row(&self, row: u32, _columns: &[u32], places: &[u32], part: &mut Matrix, to: u32)
        requires row { row < height self.now }
        requires to { to < height part.old }
        requires width { part.old.width ≡ length _columns.now }
        requires places { ArePlaces self.now.width _columns.now places.now }
        requires shape { IsMatrix part.old }
        requires empty { IsEmptyRow part.old to }
        ensures { IsRowCopied self.now row _columns.now to part.old part.new }
    {
        let mut from = 0;
        while let Some(column) = self.next_nonzero(row, from) {
            let place = places[column as usize];
            if place < part.columns() {
                part.set(to, place, self.entry(row, column));
            }
            from = column + 1;
        }
    }
}

// For each of `columns` columns its index in `chosen`, and a number that is no index if the column is not chosen.
fn places_of(alloc: Global, chosen: &[u32], columns: u32) -> Result<Vec<u32>, Memory>
    requires increasing { IsStrictlyIncreasing chosen.now }
    requires below { AllBelow columns chosen.now }
    requires columns { columns ≤ MAX_COLUMNS }
    ensures { IfOk result (λ places. ArePlaces columns chosen.now places.items) }
{
    let mut places = vec![in alloc; MAX_COLUMNS; columns as usize]?;
    for place in 0..chosen.len() {
        places[chosen[place] as usize] = place as u32;
    }
    Ok(places)
}

// The entry with these bits.
fn value_of(is_nonzero: bool, is_minus: bool) -> i8
    ensures { result ≡ value_of is_nonzero is_minus }
{
    if !is_nonzero {
        0
    } else if is_minus {
        -1
    } else {
        1
    }
}

fn is_shared<T: Send + Sync>(_value: &T) {}

// This function proves that threads may share a matrix.
fn matrix_is_shared(matrix: &Matrix) {
    is_shared(matrix);
}
