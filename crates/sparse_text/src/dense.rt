ghost use Rattle.std.specs.Prelude.{◌≤◌, IfOk, Ok};
ghost use Rattle.cmr_base.specs.Matrix.{Matrix};
ghost use Rattle.text_fields.specs.Reading.{Gives, Reads};
ghost use Rattle.text_fields.specs.Spelling.{words_in};
ghost use Rattle.text_fields.specs.TextWords.{text_of};
ghost use Rattle.sparse_matrix.specs.SparseRows.{matrix_of_runs};
ghost use Rattle.sparse_matrix.specs.declared.nonzero.TheConstants.{MAX_SPARSE_LINES};
ghost use Rattle.sparse_text.specs.LargeTexts.{IsLargeDense, large_dense};
ghost use Rattle.sparse_text.specs.MatrixEntries.{matrix_by_entries};

use crate::written::write_entry;
use matrix_text::{TextError, TextKind, field};
use sparse_matrix::{MAX_SPARSE_LINES, SparseMatrix};
use std::alloc::Global;
use text_fields::Words;

/// The large matrix that a dense text represents, or the text's first fault. The allocated memory depends on the numbers
/// of rows and of nonzeros, and not on the number of entries.
pub fn read_large_dense(alloc: Global, bytes: &[u8]) -> Result<SparseMatrix, TextError>
    // The text is a dense text of the matrix.
    ensures found { IfOk result (λ m. IsLargeDense (words_in bytes.now) (matrix_of_runs m)) }
    // Each dense text of a matrix is read as this matrix, except if an allocation fails.
    ensures only { (m : Matrix) → IsLargeDense (words_in bytes.now) m
        → Gives (λ m. matrix_of_runs m) result (Ok m) }
    // This clause determines the first fault.
    ensures exact { Gives (λ m. matrix_of_runs m) result (large_dense (text_of bytes.now)) }
{
    dense_matrix(alloc, bytes)
}

fn dense_matrix(alloc: Global, bytes: &[u8]) -> Result<SparseMatrix, TextError>
    ensures { Gives (λ m. matrix_of_runs m) result (large_dense (text_of bytes.now)) }
{
    let mut words = Words::new(bytes);
    let rows = field::limited(&mut words, MAX_SPARSE_LINES, TextKind::TooManyRows)?;
    let columns = field::limited(&mut words, MAX_SPARSE_LINES, TextKind::TooManyColumns)?;
    let matrix = matrix_by_entries(alloc, &mut words, rows, columns)?;
    words.end(TextKind::Extra)?;
    Ok(matrix)
}

// Reads the entries row by row.
fn matrix_by_entries(
    alloc: Global,
    words: &mut Words<'_>,
    rows: u32,
    columns: u32,
) -> Result<SparseMatrix, TextError>
    requires rows { rows ≤ MAX_SPARSE_LINES }
    requires columns { columns ≤ MAX_SPARSE_LINES }
    ensures { Reads (λ m. matrix_of_runs m) words.new result
        (matrix_by_entries rows columns words.old) }
{
    let mut matrix = SparseMatrix::zero(alloc, rows, columns)?;
    for place in 0..u64::from(rows) * u64::from(columns) {
        let value = field::entry(words, false)?;
        let row = (place / u64::from(columns)) as u32;
        let column = (place % u64::from(columns)) as u32;
        write_entry(&mut matrix, row, column, value)?;
    }
    let _rows = matrix.rows();
    Ok(matrix)
}
