//! The values of the words of matrix texts.
ghost use Rattle.std.specs.Prelude.{◌≡◌, ◌≤◌, ◌<◌, ◌-◌, IfOk, length, slice_index_or, false};
ghost use Rattle.cmr_base.specs.Matrix.{IsEntry};
ghost use Rattle.text_fields.specs.Result.{renamed};
ghost use Rattle.matrix_text.specs.TextKinds.{limit_kind};
ghost use Rattle.matrix_text.specs.Values.{count, own_size, free_column_in, allowed, entry_in};

use crate::error::TextKind;
use cmr_base::MAX_COLUMNS;
use text_fields::{LimitFault, count_in, line_in, signed_in};

/// A count.
pub fn count(word: &[u8]) -> Result<u32, TextKind>
    ensures { result ≡ count word.now }
{
    Ok(count_in(word)?)
}

/// A number within limits, with its fault as a fault of matrix texts; `outside` is the kind for a number out of range.
pub fn named(parsed: Result<u32, LimitFault>, outside: TextKind) -> Result<u32, TextKind>
    ensures { result ≡ renamed (limit_kind outside) parsed }
{
    match parsed {
        Ok(number) => Ok(number),
        Err(LimitFault::Number(fault)) => Err(TextKind::from(fault)),
        Err(LimitFault::OutOfRange) => Err(outside),
        Err(LimitFault::NotRising) => Err(TextKind::NotRising),
    }
}

/// A count that is equal to the size of the matrix.
pub fn own_size(word: &[u8], size: u32) -> Result<u32, TextKind>
    ensures { result ≡ own_size size word.now }
{
    let count = count(word)?;
    if count == size {
        Ok(count)
    } else {
        Err(TextKind::OtherSize)
    }
}

/// The number of a column that is not taken.
pub fn free_column_in(word: &[u8], taken: &[bool]) -> Result<u32, TextKind>
    requires { length taken.now ≤ MAX_COLUMNS }
    ensures value { result ≡ free_column_in (length taken.now)
        (λ n. slice_index_or taken.now (n - 1) false) word.now }
    ensures above { IfOk result (λ n. 0 < n) }
    ensures within { IfOk result (λ n. n ≤ length taken.now) }
{
    let parsed = line_in(word, taken.len() as u32);
    let number = named(parsed, TextKind::ColumnOutOfRange)?;
    if taken[number as usize - 1] {
        Err(TextKind::TwiceNamed)
    } else {
        Ok(number)
    }
}

/// An entry that the matrix may contain.
pub fn allowed(entry: i8, binary: bool) -> Result<i8, TextKind>
    requires { IsEntry entry }
    ensures value { result ≡ allowed binary entry }
    ensures small { IfOk result IsEntry }
{
    if binary && entry < 0 {
        Err(TextKind::NotBinary)
    } else {
        Ok(entry)
    }
}

/// An entry.
pub fn entry_in(word: &[u8], binary: bool) -> Result<i8, TextKind>
    ensures value { result ≡ entry_in binary word.now }
    ensures small { IfOk result IsEntry }
{
    match signed_in(word)? {
        0 => Ok(0),
        1 => Ok(1),
        -1 if binary => Err(TextKind::NotBinary),
        -1 => Ok(-1),
        _ => Err(TextKind::BadEntry),
    }
}
