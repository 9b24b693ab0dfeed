ghost use Rattle.std.specs.Prelude.{◌≡◌, ◌<◌, ℕ, pos, true, false, length, map, Ok, IsTrue, IfOk, OnOk, slice_index_or};
ghost use Rattle.std.specs.Fmt.{signed_decimal};
ghost use Rattle.cmr_base.specs.Matrix.{Matrix, height, row_of, IsEntry};
ghost use Rattle.cmr_base.specs.Trees.{IsBinary};
ghost use Rattle.text_fields.specs.TextWords.{text_of};
ghost use Rattle.text_fields.specs.Spelling.{words_in};
ghost use Rattle.text_fields.specs.Reading.{fields, Gives, Reads};
ghost use Rattle.text_fields.specs.Written.{with_line};
ghost use Rattle.matrix_text.specs.declared.error.TextKind.TheVariants.{Short};
ghost use Rattle.matrix_text.specs.Values.{entry_in};
ghost use Rattle.matrix_text.specs.Dense.{IsDense, dense};
ghost use Rattle.matrix_text.specs.CanonicalMatrices.{dense_text};

use crate::error::{TextError, TextKind};
use crate::field;
use cmr_base::{MAX_COLUMNS, MAX_ROWS, Matrix, Memory};
use std::alloc::Global;
use text_fields::{Words, Writer};

/// The matrix that a dense text represents, or the text's first fault.
pub fn read_dense(alloc: Global, bytes: &[u8], binary: bool) -> Result<Matrix, TextError>
    // The text is a dense text of the matrix.
    ensures found { IfOk result (IsDense binary (words_in bytes.now)) }
    // Each dense text of a matrix is read as this matrix, except if an allocation fails.
    ensures only { (m : Matrix) → IsDense binary (words_in bytes.now) m
        → Gives (λ m. m) result (Ok m) }
    // With `binary`, the matrix has entries 0 and 1 only.
    ensures zeros_and_ones { IsTrue binary → IfOk result IsBinary }
    // This clause determines the first fault.
    ensures exact { Gives (λ m. m) result (dense binary (text_of bytes.now)) }
{
    dense_matrix(alloc, bytes, binary)
}

fn dense_matrix(alloc: Global, bytes: &[u8], binary: bool) -> Result<Matrix, TextError>
    ensures { Gives (λ m. m) result (dense binary (text_of bytes.now)) }
{
    let mut words = Words::new(bytes);
    let rows = field::limited(&mut words, MAX_ROWS, TextKind::TooManyRows)?;
    let columns = field::limited(&mut words, MAX_COLUMNS, TextKind::TooManyColumns)?;
    let cells = entries(alloc, &mut words, rows as usize * columns as usize, binary)?;
    words.end(TextKind::Extra)?;
    Ok(Matrix::from_cells(alloc, rows, columns, &cells)?)
}

fn entries(
    alloc: Global,
    words: &mut Words<'_>,
    count: usize,
    binary: bool,
) -> Result<Vec<i8>, TextError>
    ensures read { Reads (λ v. v.items) words.new result
        (fields Short (entry_in binary) count words.old) }
    ensures small { IfOk result (λ v. (k : ℕ) → IsEntry (slice_index_or v.items k (pos 0))) }
    ensures len { IfOk result (λ v. length v.items ≡ count) }
{
    let mut cells = Vec::new(alloc);
    for _ in 0..count {
        cells.push(field::entry(words, binary)?)?;
    }
    Ok(cells)
}

/// The canonical dense text of a matrix.
pub fn write_dense(alloc: Global, matrix: &Matrix) -> Result<Vec<u8>, Memory>
    ensures text { IfOk result (λ v. v.items ≡ dense_text matrix.now) }
    // The text is read back as the same matrix, and also as a 0/1 matrix if the matrix is one.
    ensures again { IfOk result (λ v. dense false (text_of v.items) ≡ Ok matrix.now) }
    ensures binary_again { IsBinary matrix.now
        → IfOk result (λ v. dense true (text_of v.items) ≡ Ok matrix.now) }
{
    let mut text = Writer::new(alloc);
    text.numbers(&[matrix.rows(), matrix.columns()])?;
    for row in 0..matrix.rows() {
        write_row(&mut text, matrix, row)?;
    }
    Ok(text.into_bytes())
}

fn write_row(text: &mut Writer, matrix: &Matrix, row: u32) -> Result<(), Memory>
    requires row { row < height matrix.now }
    requires at_start { text.old.is_begun ≡ false }
    ensures { OnOk result (text.new ≡ with_line text.old (map signed_decimal
        (row_of matrix.now row))) }
{
    for column in 0..matrix.columns() {
        text.entry(matrix.entry(row, column))?;
    }
    text.end_line()
}
