// Canonical texts.
ghost use Rattle.std.specs.Prelude.{◌≡◌, ◌≤◌, ◌∷◌, [], false, take, OnOk, map};
ghost use Rattle.std.specs.Fmt.{decimal, signed_decimal};
ghost use Rattle.cmr_base.specs.Matrix.{IsEntry};
ghost use Rattle.text_fields.specs.Written.{with_word, with_end, with_line};

use cmr_base::Memory;
use itoa::Buffer;
use std::alloc::Global;
use std::marker::Model;

/// A canonical text during its construction: lines of words with one space between them. After an allocation failure
/// the text is useless.
#[derive(Drop)]
pub struct Writer {
    bytes: Vec<u8>,
    is_begun: bool,
    digits: Buffer,
}

impl Model for Writer {
    ghost use Rattle.text_fields.specs.Written.{Draft};

    ghost Value = { Draft };

    ghost view = { λ a. record { bytes = a.bytes.items; is_begun = a.is_begun } };
}

impl Writer {
    /// The empty text.
    pub fn new(alloc: Global) -> Self
        ensures { result ≡ record { bytes = []; is_begun = false } }
    {
        Writer {
            bytes: Vec::new(alloc),
            is_begun: false,
            digits: Buffer::new(),
        }
    }

    /// Adds a word to the last line.
    pub fn word(&mut self, word: &[u8]) -> Result<(), Memory>
        ensures { OnOk result (self.new ≡ with_word self.old word.now) }
    {
        if self.is_begun {
            self.bytes.push(b' ')?;
        }
        self.is_begun = true;
        self.bytes.extend_from_slice(word)?;
        Ok(())
    }

    /// Adds a number to the last line.
    pub fn number(&mut self, number: u32) -> Result<(), Memory>
        ensures { OnOk result (self.new ≡ with_word self.old (decimal number)) }
    {
        if self.is_begun {
            self.bytes.push(b' ')?;
        }
        self.is_begun = true;
        let digits = self.digits.format(number);
        self.bytes.extend_from_slice(digits.as_bytes())?;
        Ok(())
    }

    /// Adds an entry to the last line.
    pub fn entry(&mut self, entry: i8) -> Result<(), Memory>
        requires { IsEntry entry }
        ensures { OnOk result (self.new ≡ with_word self.old (signed_decimal entry)) }
    {
        let (bytes, end) = spaced_entry(entry);
        let start = usize::from(!self.is_begun);
        self.is_begun = true;
        self.bytes.extend_from_slice(&bytes[start..end])?;
        Ok(())
    }

    /// Ends the last line.
    pub fn end_line(&mut self) -> Result<(), Memory>
        ensures { OnOk result (self.new ≡ with_end self.old) }
    {
        self.bytes.push(b'\n')?;
        self.is_begun = false;
        Ok(())
    }

    /// Adds a line of numbers.
    pub fn numbers(&mut self, numbers: &[u32]) -> Result<(), Memory>
        requires { self.old.is_begun ≡ false }
        ensures { OnOk result (self.new ≡ with_line self.old (map decimal numbers.now)) }
    {
        for number in numbers {
            self.number(*number)?;
        }
        self.end_line()
    }

    /// The bytes of the text.
    pub fn into_bytes(self) -> Vec<u8>
        ensures { result.items ≡ self.bytes }
    {
        self.bytes
    }
}

// A space and the text of an entry, and the number of these bytes. No branch depends on the value of the entry.
fn spaced_entry(entry: i8) -> ([u8; 3], usize)
    requires { IsEntry entry }
    ensures above { 2 ≤ result.1 }
    ensures within { result.1 ≤ 3 }
    ensures text { take result.1 result.0 ≡ 32 ∷ signed_decimal entry }
{
    let digit = b'0' + entry.unsigned_abs();
    if entry < 0 {
        ([b' ', b'-', digit], 3)
    } else {
        ([b' ', digit, digit], 2)
    }
}
