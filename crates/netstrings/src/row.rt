// Netstrings that are written one after another.
ghost use Rattle.std.specs.Prelude.{◌≡◌, ◌++◌, [], OnOk};
ghost use Rattle.std.specs.Fmt.{decimal};
ghost use Rattle.netstrings.specs.Netstrings.{netstring};

use cmr_base::Memory;
use itoa::Buffer;
use std::alloc::Global;
use std::marker::Model;

/// Netstrings, one after another. Contracts see the bytes. After an allocation failure they are unspecified.
#[derive(Drop)]
pub struct Row {
    bytes: Vec<u8>,
    digits: Buffer,
}

impl Model for Row {
    ghost use Rattle.std.specs.Prelude.{List, ℕ};

    ghost Value = { List ℕ };

    ghost view = { λ row. row.bytes.items };
}

impl Row {
    /// No netstring.
    pub fn new(alloc: Global) -> Self
        ensures { result ≡ [] }
    {
        Row {
            bytes: Vec::new(alloc),
            digits: Buffer::new(),
        }
    }

    /// Appends the netstring of a text.
    pub fn add(&mut self, text: &[u8]) -> Result<(), Memory>
        ensures { OnOk result (self.new ≡ self.old ++ netstring text.now) }
    {
        let digits = self.digits.format(text.len());
        self.bytes.extend_from_slice(digits.as_bytes())?;
        self.bytes.push(b':')?;
        self.bytes.extend_from_slice(text)?;
        self.bytes.push(b',')?;
        Ok(())
    }

    /// Appends the netstring of a number in decimal digits.
    pub fn add_number(&mut self, number: u8) -> Result<(), Memory>
        ensures { OnOk result (self.new ≡ self.old ++ netstring (decimal number)) }
    {
        let mut buffer = Buffer::new();
        self.add(buffer.format(number).as_bytes())
    }

    /// All bytes.
    pub fn bytes(&self) -> &[u8]
        ensures { result.now ≡ self.now }
    {
        &self.bytes
    }

    /// All bytes.
    pub fn into_bytes(self) -> Vec<u8>
        ensures { result.items ≡ self }
    {
        self.bytes
    }
}
