ghost use Rattle.std.specs.Prelude.{◌≡◌, ◌≤◌, length};
ghost use Rattle.cmr_io.specs.Reads.{no_reads, after_begun, after_piece};

use crate::byte_log::ByteLog;
use std::marker::Model;

/// The reads that were begun, the bytes that each of them has given, the number of bytes that all have given, and the
/// number of reads that have reached their ends. Each count starts at 0, and stays at the last value of a `u64`.
#[derive(Debug, Drop)]
pub struct ReadCount {
    log: ByteLog,
    bytes: u64,
    ends: u64,
}

impl Model for ReadCount {
    ghost use Rattle.cmr_io.specs.Reads.{Reads};

    ghost Value = { Reads };

    ghost view = { λ count. record { names = count.log.names; texts = count.log.texts; bytes = count.bytes; ends = count.ends } };
}

impl ReadCount {
    /// Nothing was read.
    pub fn new() -> Self
        ensures { result ≡ no_reads }
    {
        ReadCount {
            log: ByteLog::new(),
            bytes: 0,
            ends: 0,
        }
    }

    /// Counts that a read of a name was begun.
    pub fn begin(&mut self, name: &str)
        ensures { self.new ≡ after_begun self.old name.now }
    {
        self.log.begin(name.as_bytes());
    }

    /// Counts `count` bytes that were given as a prefix of `into`.
    pub fn add(&mut self, into: &[u8], count: usize)
        requires { count ≤ length into.now }
        ensures { self.new ≡ after_piece self.old into.now count }
    {
        self.log.add(&into[..count]);
        self.bytes = self.bytes.saturating_add(count as u64);
        if !into.is_empty() && count == 0 {
            self.ends = self.ends.saturating_add(1);
        }
    }
}
