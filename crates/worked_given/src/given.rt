// What the tables are made of, and the texts in which answers are compared. In all texts of the tables `/` stands for a
// line feed, and lines of a matrix are counted from 0.
ghost use Rattle.std.specs.Prelude.{◌≤◌, IfOk};
ghost use Rattle.cmr_base.specs.LineSets.{AllBelow};
ghost use Rattle.cmr_base.specs.Trees.{IsBinary};

use cmr_base::{Indices, LineSet, Matrix, Memory};
use matrix_text::{read_dense, read_sparse, write_dense};
use std::alloc::Global;
use std::test::Fail;
use text_fields::Writer;

/// The numbers of some rows and of some columns, counted from 0.
pub type Lines<'a> = (&'a [u32], &'a [u32]);

/// The bytes of a text in which `/` stands for each line feed.
pub fn bytes(alloc: Global, text: &str) -> Result<Vec<u8>, Fail> {
    let mut bytes = Vec::new(alloc);
    for byte in text.as_bytes() {
        bytes.push(if *byte == b'/' { b'\n' } else { *byte })?;
    }
    Ok(bytes)
}

/// The matrix of a dense text.
pub fn matrix(alloc: Global, text: &str) -> Result<Matrix, Fail> {
    Ok(read_dense(alloc, &bytes(alloc, text)?, false)?)
}

/// The matrix of a sparse text.
pub fn sparse(alloc: Global, text: &str) -> Result<Matrix, Fail> {
    Ok(read_sparse(alloc, &bytes(alloc, text)?, false)?)
}

/// The 0/1 matrix of a dense text.
pub fn binary(alloc: Global, text: &str) -> Result<Matrix, Fail>
    ensures { IfOk result IsBinary }
{
    ones_of(alloc, &matrix(alloc, text)?)
}

/// The ones of a matrix, as a 0/1 matrix.
fn ones_of(alloc: Global, entries: &Matrix) -> Result<Matrix, Fail>
    ensures { IfOk result IsBinary }
{
    let mut ones = zeros(alloc, entries.rows(), entries.columns())?;
    for row in 0..entries.rows() {
        mark_row(&mut ones, entries, row);
    }
    Ok(ones)
}

fn mark_row(ones: &mut Matrix, entries: &Matrix, row: u32)
    requires { IsBinary ones.old }
    ensures { IsBinary ones.new }
{
    for column in 0..entries.columns() {
        if row < entries.rows() && entries.entry(row, column) == 1 {
            mark(ones, row, column);
        }
    }
}

/// The matrix of zeros, as a 0/1 matrix.
pub fn zeros(alloc: Global, rows: u32, columns: u32) -> Result<Matrix, Memory>
    requires rows { rows ≤ 1000 }
    requires columns { columns ≤ 1000 }
    ensures { IfOk result IsBinary }
{
    Matrix::zero(alloc, rows, columns)
}

/// Puts a 1 into a 0/1 matrix, where the place is in it.
pub fn mark(matrix: &mut Matrix, row: u32, column: u32)
    requires { IsBinary matrix.old }
    ensures { IsBinary matrix.new }
{
    if row < matrix.rows() && column < matrix.columns() {
        matrix.set(row, column, 1);
    }
}

/// The set of these numbers, which are below the bound and rise.
pub fn indices(alloc: Global, bound: u32, numbers: &[u32]) -> Result<Indices, Fail>
    ensures { IfOk result (AllBelow bound) }
{
    let mut set = Indices::new(alloc);
    for number in 0..bound {
        if numbers.contains(&number) {
            set.push(number)?;
        }
    }
    Ok(set)
}

/// The set of these lines, which are below the bounds.
pub fn line_set(alloc: Global, rows: u32, columns: u32, lines: Lines<'_>) -> Result<LineSet, Fail>
    ensures rows { IfOk result (λ set. AllBelow rows set.rows) }
    ensures columns { IfOk result (λ set. AllBelow columns set.columns) }
{
    Ok(LineSet {
        rows: indices(alloc, rows, lines.0)?,
        columns: indices(alloc, columns, lines.1)?,
    })
}

/// A line of a text: a word and numbers.
pub fn row_text(alloc: Global, word: &str, numbers: &[u32]) -> Result<Vec<u8>, Fail> {
    let mut text = Writer::new(alloc);
    text.word(word.as_bytes())?;
    for number in numbers {
        text.number(*number)?;
    }
    text.end_line()?;
    Ok(text.into_bytes())
}

/// The text of a set of lines: its rows, and its columns on a line of their own.
pub fn lines_text(alloc: Global, lines: &LineSet) -> Result<Vec<u8>, Fail> {
    let mut text = Writer::new(alloc);
    text.numbers(lines.rows.as_slice())?;
    text.numbers(lines.columns.as_slice())?;
    Ok(text.into_bytes())
}

/// The same below a line with a word and numbers.
pub fn named_lines_text(
    alloc: Global,
    word: &str,
    numbers: &[u32],
    lines: &LineSet,
) -> Result<Vec<u8>, Fail> {
    let mut text = row_text(alloc, word, numbers)?;
    text.extend_from_slice(&lines_text(alloc, lines)?)?;
    Ok(text)
}

/// The text of a set of lines that may be there.
pub fn found_text(alloc: Global, found: &Option<LineSet>) -> Result<Vec<u8>, Fail> {
    match found {
        Some(lines) => lines_text(alloc, lines),
        None => bytes(alloc, "none/"),
    }
}

/// The dense text of a matrix.
pub fn dense(alloc: Global, matrix: &Matrix) -> Result<Vec<u8>, Fail> {
    Ok(write_dense(alloc, matrix)?)
}
