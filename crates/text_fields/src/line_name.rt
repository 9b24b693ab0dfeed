// Names of lines of a matrix.
ghost use Rattle.std.specs.Prelude.{◌≡◌, ◌++◌, ◌∷◌, OnOk};
ghost use Rattle.text_fields.specs.LineNumbers.{line_name, number_of_line};

use cmr_base::{Line, Memory};
use itoa::Buffer;

/// Appends a row or a column: its letter and its number, counted from 1.
pub fn push_line_name(text: &mut Vec<u8>, line: Line) -> Result<(), Memory>
    ensures { OnOk result (text.new.items ≡ text.old.items ++ line_name line) }
{
    match line {
        Line::Row(row) => push_letter(text, b'r', row),
        Line::Column(column) => push_letter(text, b'c', column),
    }
}

fn push_letter(text: &mut Vec<u8>, letter: u8, line: u32) -> Result<(), Memory>
    ensures { OnOk result (text.new.items ≡ text.old.items ++ letter ∷ number_of_line line) }
{
    let mut buffer = Buffer::new();
    text.push(letter)?;
    text.extend_from_slice(buffer.format(u64::from(line) + 1).as_bytes())?;
    Ok(())
}
