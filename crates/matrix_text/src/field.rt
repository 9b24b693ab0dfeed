//! The fields of matrix texts. Each function reads the next word, or gives the fault of a text that has no further word.
ghost use Rattle.std.specs.Prelude.{◌≤◌, ◌<◌, ◌-◌, IfOk, length, slice_index_or, false};
ghost use Rattle.cmr_base.specs.Matrix.{IsEntry};
ghost use Rattle.text_fields.specs.Reading.{field, Reads};
ghost use Rattle.matrix_text.specs.declared.error.TextKind.TheVariants.{Short};
ghost use Rattle.matrix_text.specs.Values.{count, limited, own_size, line_in, increasing_line_in, free_column_in, entry_in};

use crate::error::{TextError, TextKind};
use crate::value::{self, named};
use cmr_base::MAX_COLUMNS;
use text_fields::{Words, at_place, increasing_line_in, line_in};

/// A count.
pub fn count(words: &mut Words<'_>) -> Result<u32, TextError>
    ensures { Reads (λ n. n) words.new result (field Short count words.old) }
{
    let (place, word) = words.due(TextKind::Short)?;
    at_place(place, value::count(word))
}

/// A count of at most `most`.
pub fn limited(words: &mut Words<'_>, most: u32, beyond: TextKind) -> Result<u32, TextError>
    ensures read { Reads (λ n. n) words.new result (field Short (limited most beyond) words.old) }
    ensures within { IfOk result (λ n. n ≤ most) }
{
    let (place, word) = words.due(TextKind::Short)?;
    at_place(place, named(text_fields::limited(word, most), beyond))
}

/// A count that is equal to the size of the matrix.
pub fn own_size(words: &mut Words<'_>, size: u32) -> Result<u32, TextError>
    ensures { Reads (λ n. n) words.new result (field Short (own_size size) words.old) }
{
    let (place, word) = words.due(TextKind::Short)?;
    at_place(place, value::own_size(word, size))
}

/// The number of a line, from 1 to `most`.
pub fn line(words: &mut Words<'_>, most: u32, outside: TextKind) -> Result<u32, TextError>
    ensures read { Reads (λ n. n) words.new result (field Short (line_in most outside) words.old) }
    ensures above { IfOk result (λ n. 0 < n) }
    ensures within { IfOk result (λ n. n ≤ most) }
{
    let (place, word) = words.due(TextKind::Short)?;
    at_place(place, named(line_in(word, most), outside))
}

/// The number of a line, from 1 to `most`, above the previous number.
pub fn increasing_line(
    words: &mut Words<'_>,
    most: u32,
    outside: TextKind,
    before: u32,
) -> Result<u32, TextError>
    ensures read { Reads (λ n. n) words.new result
        (field Short (increasing_line_in most outside before) words.old) }
    ensures above { IfOk result (λ n. before < n) }
    ensures within { IfOk result (λ n. n ≤ most) }
{
    let (place, word) = words.due(TextKind::Short)?;
    at_place(
        place,
        named(increasing_line_in(word, most, before), outside),
    )
}

/// The number of a column that is not taken.
pub fn free_column(words: &mut Words<'_>, taken: &[bool]) -> Result<u32, TextError>
    requires { length taken.now ≤ MAX_COLUMNS }
    ensures read { Reads (λ n. n) words.new result
        (field Short
        (free_column_in (length taken.now) (λ n. slice_index_or taken.now (n - 1) false))
        words.old) }
    ensures above { IfOk result (λ n. 0 < n) }
    ensures within { IfOk result (λ n. n ≤ length taken.now) }
{
    let (place, word) = words.due(TextKind::Short)?;
    at_place(place, value::free_column_in(word, taken))
}

/// An entry.
pub fn entry(words: &mut Words<'_>, binary: bool) -> Result<i8, TextError>
    ensures read { Reads (λ z. z) words.new result (field Short (entry_in binary) words.old) }
    ensures small { IfOk result IsEntry }
{
    if let Some((place, entry)) = words.next_entry() {
        return at_place(place, value::allowed(entry, binary));
    }
    let (place, word) = words.due(TextKind::Short)?;
    at_place(place, value::entry_in(word, binary))
}
