ghost use Rattle.std.specs.Prelude.{◌≡◌, ◌≤◌, ◌<◌, ◌*◌, ◌+◌, ◌-◌, length, map, fold, Ok, IsTrue, IfOk, OnOk, slice_index_or, true, false};
ghost use Rattle.cmr_base.specs.Matrix.{Matrix, IsEntry, height, row_of};
ghost use Rattle.cmr_base.specs.Trees.{IsBinary};
ghost use Rattle.text_fields.specs.TextWords.{text_of};
ghost use Rattle.text_fields.specs.Spelling.{words_in};
ghost use Rattle.text_fields.specs.Reading.{Gives, Reads};
ghost use Rattle.text_fields.specs.Written.{with_line};
ghost use Rattle.matrix_text.specs.Sparse.{IsSparse, sparse, free_place, matrix_by_triples};
ghost use Rattle.matrix_text.specs.CanonicalMatrices.{sparse_text, row_triples, triple_line};

use crate::error::{TextError, TextKind};
use crate::field;
use cmr_base::{MAX_COLUMNS, MAX_ROWS, Matrix, Memory};
use std::alloc::Global;
use text_fields::{Words, Writer};

/// The matrix that a sparse text represents, or the text's first fault. The allocated memory depends on the matrix's
/// sizes, and not on the count of triples.
pub fn read_sparse(alloc: Global, bytes: &[u8], binary: bool) -> Result<Matrix, TextError>
    // The text is a sparse text of the matrix.
    ensures found { IfOk result (IsSparse binary (words_in bytes.now)) }
    // Each sparse text of a matrix is read as this matrix, except if an allocation fails.
    ensures only { (m : Matrix) → IsSparse binary (words_in bytes.now) m
        → Gives (λ m. m) result (Ok m) }
    // With `binary`, the matrix has entries 0 and 1 only.
    ensures zeros_and_ones { IsTrue binary → IfOk result IsBinary }
    // This clause determines the first fault.
    ensures exact { Gives (λ m. m) result (sparse binary (text_of bytes.now)) }
{
    sparse_matrix(alloc, bytes, binary)
}

fn sparse_matrix(alloc: Global, bytes: &[u8], binary: bool) -> Result<Matrix, TextError>
    ensures { Gives (λ m. m) result (sparse binary (text_of bytes.now)) }
{
    let mut words = Words::new(bytes);
    let rows = field::limited(&mut words, MAX_ROWS, TextKind::TooManyRows)?;
    let columns = field::limited(&mut words, MAX_COLUMNS, TextKind::TooManyColumns)?;
    let count = field::count(&mut words)?;
    let matrix = matrix_by_triples(alloc, &mut words, rows, columns, count, binary)?;
    words.end(TextKind::Extra)?;
    Ok(matrix)
}

fn matrix_by_triples(
    alloc: Global,
    words: &mut Words<'_>,
    rows: u32,
    columns: u32,
    count: u32,
    binary: bool,
) -> Result<Matrix, TextError>
    requires rows { rows ≤ MAX_ROWS }
    requires columns { columns ≤ MAX_COLUMNS }
    ensures { Reads (λ m. m) words.new result
        (matrix_by_triples binary rows columns count words.old) }
{
    let mut matrix = Matrix::zero(alloc, rows, columns)?;
    let mut taken = vec![in alloc; false; rows as usize * columns as usize]?;
    for _ in 0..count {
        let (row, column) = free_place(words, rows, columns, &taken)?;
        let value = field::entry(words, binary)?;
        let place = (row as usize - 1) * columns as usize + (column as usize - 1);
        matrix.set(row - 1, column - 1, value);
        taken[place] = true;
    }
    Ok(matrix)
}

// The row and the column of a position that is not taken.
fn free_place(
    words: &mut Words<'_>,
    rows: u32,
    columns: u32,
    taken: &[bool],
) -> Result<(u32, u32), TextError>
    requires columns { columns ≤ MAX_COLUMNS }
    requires whole { length taken.now ≡ rows * columns }
    ensures read { Reads (λ p. p) words.new result
        (free_place rows columns
        (λ row column. slice_index_or taken.now ((row - 1) * columns + (column - 1)) false)
        words.old) }
    ensures row_above { IfOk result (λ p. 0 < p.0) }
    ensures row_within { IfOk result (λ p. p.0 ≤ rows) }
    ensures column_above { IfOk result (λ p. 0 < p.1) }
    ensures column_within { IfOk result (λ p. p.1 ≤ columns) }
{
    let row = field::line(words, rows, TextKind::RowOutOfRange)?;
    let start = (row as usize - 1) * columns as usize;
    let column = field::free_column(words, &taken[start..start + columns as usize])?;
    Ok((row, column))
}

/// The canonical sparse text of a matrix.
pub fn write_sparse(alloc: Global, matrix: &Matrix) -> Result<Vec<u8>, Memory>
    ensures text { IfOk result (λ v. v.items ≡ sparse_text matrix.now) }
    // The text is read back as the same matrix, and also as a 0/1 matrix if the matrix is one.
    ensures again { IfOk result (λ v. sparse false (text_of v.items) ≡ Ok matrix.now) }
    ensures binary_again { IsBinary matrix.now
        → IfOk result (λ v. sparse true (text_of v.items) ≡ Ok matrix.now) }
{
    let mut text = Writer::new(alloc);
    text.numbers(&[matrix.rows(), matrix.columns(), matrix.nonzeros()])?;
    for row in 0..matrix.rows() {
        write_row(&mut text, matrix, row)?;
    }
    Ok(text.into_bytes())
}

// A line for each nonzero of a row.
fn write_row(text: &mut Writer, matrix: &Matrix, row: u32) -> Result<(), Memory>
    requires row { row < height matrix.now }
    requires at_start { text.old.is_begun ≡ false }
    ensures { OnOk result (text.new ≡ fold with_line text.old (map triple_line
        (row_triples (row + 1) 1 (row_of matrix.now row)))) }
{
    for column in 0..matrix.columns() {
        let entry = matrix.entry(row, column);
        if entry != 0 {
            write_triple(text, row + 1, column + 1, entry)?;
        }
    }
    Ok(())
}

fn write_triple(text: &mut Writer, row: u32, column: u32, entry: i8) -> Result<(), Memory>
    requires small { IsEntry entry }
    requires at_start { text.old.is_begun ≡ false }
    ensures { OnOk result (text.new ≡ with_line text.old (triple_line (record
        { row = row; column = column; value = entry }))) }
{
    text.number(row)?;
    text.number(column)?;
    text.entry(entry)?;
    text.end_line()
}
