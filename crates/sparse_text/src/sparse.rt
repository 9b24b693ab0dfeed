ghost use Rattle.std.specs.Prelude.{◌≡◌, ◌≤◌, ◌<◌, ◌-◌, false, length, IfOk, Ok};
ghost use Rattle.cmr_base.specs.Matrix.{Matrix};
ghost use Rattle.text_fields.specs.Reading.{Gives, Reads, field};
ghost use Rattle.text_fields.specs.Spelling.{words_in};
ghost use Rattle.text_fields.specs.TextWords.{text_of};
ghost use Rattle.matrix_text.specs.declared.error.TextKind.TheVariants.{Short};
ghost use Rattle.matrix_text.specs.Sparse.{free_place, matrix_by_triples};
ghost use Rattle.matrix_text.specs.Values.{free_column_in};
ghost use Rattle.sparse_matrix.specs.SparseRows.{matrix_of_runs};
ghost use Rattle.sparse_matrix.specs.declared.nonzero.TheConstants.{MAX_SPARSE_LINES};
ghost use Rattle.sparse_text.specs.LargeTexts.{IsLargeSparse, large_sparse};
ghost use Rattle.sparse_text.specs.NamedPositions.{has_position};

use crate::named::{is_named, write_named};
use matrix_text::{TextError, TextKind, field, value};
use sparse_matrix::{MAX_SPARSE_LINES, SparseMatrix};
use std::alloc::Global;
use std::collections::BTreeSet;
use text_fields::{Words, at_place, line_in};

/// The large matrix that a sparse text represents, or the text's first fault. The allocated memory depends on the number
/// of rows and on the number of triples in the text, and not on the count of triples.
pub fn read_large_sparse(alloc: Global, bytes: &[u8]) -> Result<SparseMatrix, TextError>
    // The text is a sparse text of the matrix.
    ensures found { IfOk result (λ m. IsLargeSparse (words_in bytes.now) (matrix_of_runs m)) }
    // Each sparse text of a matrix is read as this matrix, except if an allocation fails.
    ensures only { (m : Matrix) → IsLargeSparse (words_in bytes.now) m
        → Gives (λ m. matrix_of_runs m) result (Ok m) }
    // This clause determines the first fault.
    ensures exact { Gives (λ m. matrix_of_runs m) result (large_sparse (text_of bytes.now)) }
{
    sparse_matrix(alloc, bytes)
}

fn sparse_matrix(alloc: Global, bytes: &[u8]) -> Result<SparseMatrix, TextError>
    ensures { Gives (λ m. matrix_of_runs m) result (large_sparse (text_of bytes.now)) }
{
    let mut words = Words::new(bytes);
    let rows = field::limited(&mut words, MAX_SPARSE_LINES, TextKind::TooManyRows)?;
    let columns = field::limited(&mut words, MAX_SPARSE_LINES, TextKind::TooManyColumns)?;
    let count = field::count(&mut words)?;
    let matrix = matrix_by_triples(alloc, &mut words, rows, columns, count)?;
    words.end(TextKind::Extra)?;
    Ok(matrix)
}

fn matrix_by_triples(
    alloc: Global,
    words: &mut Words<'_>,
    rows: u32,
    columns: u32,
    count: u32,
) -> Result<SparseMatrix, TextError>
    requires rows { rows ≤ MAX_SPARSE_LINES }
    requires columns { columns ≤ MAX_SPARSE_LINES }
    ensures { Reads (λ m. matrix_of_runs m) words.new result
        (matrix_by_triples false rows columns count words.old) }
{
    let mut matrix = SparseMatrix::zero(alloc, rows, columns)?;
    let mut others = BTreeSet::new(alloc);
    for _ in 0..count {
        let (row, column) = free_place(words, rows, columns, &matrix, &others)?;
        let value = field::entry(words, false)?;
        write_named(&mut matrix, &mut others, row - 1, column - 1, value)?;
    }
    let _rows = matrix.rows();
    Ok(matrix)
}

// The row and the column of a position that is not named yet.
fn free_place(
    words: &mut Words<'_>,
    rows: u32,
    columns: u32,
    matrix: &SparseMatrix,
    others: &BTreeSet<u64>,
) -> Result<(u32, u32), TextError>
    requires { length matrix.now.runs ≡ rows }
    ensures read { Reads (λ p. p) words.new result
        (free_place rows columns
        (λ row column. has_position matrix.now others.now (row - 1) (column - 1))
        words.old) }
    ensures row_above { IfOk result (λ p. 0 < p.0) }
    ensures row_within { IfOk result (λ p. p.0 ≤ rows) }
    ensures column_above { IfOk result (λ p. 0 < p.1) }
    ensures column_within { IfOk result (λ p. p.1 ≤ columns) }
{
    let row = field::line(words, rows, TextKind::RowOutOfRange)?;
    let column = free_column(words, columns, matrix, others, row)?;
    Ok((row, column))
}

// A column in which the row's position is not named yet.
fn free_column(
    words: &mut Words<'_>,
    columns: u32,
    matrix: &SparseMatrix,
    others: &BTreeSet<u64>,
    row: u32,
) -> Result<u32, TextError>
    requires above { 0 < row }
    requires within { row ≤ length matrix.now.runs }
    ensures read { Reads (λ n. n) words.new result
        (field Short
        (free_column_in columns (λ n. has_position matrix.now others.now (row - 1) (n - 1)))
        words.old) }
    ensures above { IfOk result (λ n. 0 < n) }
    ensures within { IfOk result (λ n. n ≤ columns) }
{
    let (place, word) = words.due(TextKind::Short)?;
    let parsed = value::named(line_in(word, columns), TextKind::ColumnOutOfRange);
    let column = at_place(place, parsed)?;
    if is_named(matrix, others, row - 1, column - 1) {
        Err(TextError::Fault {
            kind: TextKind::TwiceNamed,
            place,
        })
    } else {
        Ok(column)
    }
}
