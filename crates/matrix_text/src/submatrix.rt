ghost use Rattle.std.specs.Prelude.{◌≡◌, ◌<◌, ◌^◌, false, map, Ok, IfOk, OnOk};
ghost use Rattle.cmr_base.specs.declared.line_set.LineSet.{LineSet};
ghost use Rattle.cmr_base.specs.LineSets.{AllBelow};
ghost use Rattle.text_fields.specs.TextWords.{text_of};
ghost use Rattle.text_fields.specs.Spelling.{words_in};
ghost use Rattle.text_fields.specs.Reading.{Gives, Reads};
ghost use Rattle.text_fields.specs.Written.{with_line};
ghost use Rattle.matrix_text.specs.CanonicalMatrices.{submatrix_text};
ghost use Rattle.matrix_text.specs.Submatrix.{IsSubmatrix, named_lines, increasing_lines};
ghost use Rattle.text_fields.specs.LineNumbers.{number_of_line};

use crate::error::{TextError, TextKind};
use crate::field;
use cmr_base::{Indices, LineSet, Memory};
use std::alloc::Global;
use text_fields::{Words, Writer};

/// The lines that a submatrix text names in a matrix of these sizes, or the text's first fault.
pub fn read_submatrix(
    alloc: Global,
    bytes: &[u8],
    rows: u32,
    columns: u32,
) -> Result<LineSet, TextError>
    // The text is a submatrix text of the lines.
    ensures found { IfOk result (IsSubmatrix rows columns (words_in bytes.now)) }
    // Each submatrix text of a set of lines is read as these lines, except if an allocation fails.
    ensures only { (lines : LineSet) → IsSubmatrix rows columns (words_in bytes.now) lines
        → Gives (λ lines. lines) result (Ok lines) }
    // This clause determines the first fault.
    ensures exact { Gives (λ lines. lines) result (named_lines rows columns (text_of bytes.now)) }
{
    lines_of_text(alloc, bytes, rows, columns)
}

fn lines_of_text(alloc: Global, bytes: &[u8], rows: u32, columns: u32) -> Result<LineSet, TextError>
    ensures { Gives (λ lines. lines) result (named_lines rows columns (text_of bytes.now)) }
{
    let mut words = Words::new(bytes);
    field::own_size(&mut words, rows)?;
    field::own_size(&mut words, columns)?;
    let row_count = field::limited(&mut words, rows, TextKind::RowOutOfRange)?;
    let column_count = field::limited(&mut words, columns, TextKind::ColumnOutOfRange)?;
    let lines = LineSet {
        rows: increasing_lines(alloc, &mut words, rows, TextKind::RowOutOfRange, row_count)?,
        columns: increasing_lines(
            alloc,
            &mut words,
            columns,
            TextKind::ColumnOutOfRange,
            column_count,
        )?,
    };
    words.end(TextKind::Extra)?;
    Ok(lines)
}

fn increasing_lines(
    alloc: Global,
    words: &mut Words<'_>,
    most: u32,
    outside: TextKind,
    count: u32,
) -> Result<Indices, TextError>
    ensures { Reads (λ lines. lines) words.new result
        (increasing_lines most outside count words.old) }
{
    let mut lines = Indices::new(alloc);
    let mut before = 0;
    for _ in 0..count {
        let number = field::increasing_line(words, most, outside, before)?;
        lines.push(number - 1)?;
        before = number;
    }
    Ok(lines)
}

/// The canonical submatrix text of a set of lines in a matrix of these sizes.
pub fn write_submatrix(
    alloc: Global,
    lines: &LineSet,
    rows: u32,
    columns: u32,
) -> Result<Vec<u8>, Memory>
    requires rows { rows < 2 ^ 31 }
    requires columns { columns < 2 ^ 31 }
    requires rows_in { AllBelow rows lines.now.rows }
    requires columns_in { AllBelow columns lines.now.columns }
    ensures text { IfOk result (λ v. v.items ≡ submatrix_text rows columns lines.now) }
    // The text is read back as the same lines.
    ensures again { IfOk result (λ v. named_lines rows columns (text_of v.items) ≡ Ok lines.now) }
{
    let mut text = Writer::new(alloc);
    let row_count = lines.rows.len() as u32;
    let column_count = lines.columns.len() as u32;
    text.numbers(&[rows, columns, row_count, column_count])?;
    write_lines(&mut text, &lines.rows)?;
    write_lines(&mut text, &lines.columns)?;
    Ok(text.into_bytes())
}

// Writes a line with the numbers of rows or columns.
fn write_lines(text: &mut Writer, lines: &Indices) -> Result<(), Memory>
    requires within { AllBelow (2 ^ 31) lines.now }
    requires at_start { text.old.is_begun ≡ false }
    ensures { OnOk result (text.new ≡ with_line text.old (map number_of_line lines.now)) }
{
    for line in lines.as_slice() {
        text.number(*line + 1)?;
    }
    text.end_line()
}
