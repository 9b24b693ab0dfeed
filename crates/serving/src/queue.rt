// Bytes that were read and not taken yet.
ghost use Rattle.std.specs.Prelude.{◌≡◌, ◌≤◌, ◌++◌, [], OnErr, OnOk, drop, length, vec_len};

use std::alloc::{AllocError, Global};
use std::marker::Model;

/// Bytes that were appended and not taken yet. Contracts see these bytes.
#[derive(Drop)]
pub struct Queue {
    bytes: Vec<u8>,
    taken: usize,
    ghost within: { taken ≤ vec_len bytes },
}

impl Model for Queue {
    ghost use Rattle.std.specs.Prelude.{List, ℕ, drop};

    ghost Value = { List ℕ };

    ghost view = { λ queue. drop queue.taken queue.bytes.items };
}

impl Queue {
    /// No byte.
    pub fn new(alloc: Global) -> Self
        ensures { result ≡ [] }
    {
        Queue {
            bytes: Vec::new(alloc),
            taken: 0,
        }
    }

    /// The bytes that were not taken yet.
    pub fn held(&self) -> &[u8]
        ensures { result.now ≡ self.now }
    {
        &self.bytes[self.taken..]
    }

    /// Takes this number of bytes from the beginning.
    pub fn take(&mut self, count: usize)
        requires { count ≤ length self.old }
        ensures { self.new ≡ drop count self.old }
    {
        self.taken += count;
    }

    /// Appends bytes.
    pub fn append(&mut self, piece: &[u8]) -> Result<(), AllocError>
        ensures ok { OnOk result (self.new ≡ self.old ++ piece.now) }
        ensures err { OnErr result (self.new ≡ self.old) }
    {
        self.close_up();
        self.bytes.extend_from_slice(piece)
    }

    // Drops what was taken.
    fn close_up(&mut self)
        ensures { self.new ≡ self.old }
    {
        if self.taken > 0 {
            let len = self.bytes.len();
            self.bytes.copy_within(self.taken..len, 0);
            self.bytes.truncate(len - self.taken);
            self.taken = 0;
        }
    }
}
