ghost use Rattle.std.specs.Prelude.{◌≡◌, ◌≤◌, [], length, take};
ghost use Rattle.cmr_io.specs.Log.{no_log, log_more, log_with};

use crate::byte_log::ByteLog;
use std::marker::Model;

/// The writes that were begun, and the bytes that each of them has taken. Only clauses see it: at run time it is empty.
#[derive(Debug, Drop)]
pub struct WriteLog {
    log: ByteLog,
}

impl Model for WriteLog {
    ghost use Rattle.cmr_io.specs.Log.{Log};

    ghost Value = { Log };

    ghost view = { λ log. record { names = log.log.names; texts = log.log.texts } };
}

impl WriteLog {
    /// The empty log.
    pub fn new() -> Self
        ensures { result ≡ no_log }
    {
        WriteLog {
            log: ByteLog::new(),
        }
    }

    /// Logs that a write of a name was begun.
    pub fn begin(&mut self, name: &str)
        ensures { self.new ≡ log_with self.old name.now [] }
    {
        self.log.begin(name.as_bytes());
    }

    /// Logs that `count` bytes at the start of the piece were taken.
    pub fn add(&mut self, piece: &[u8], count: usize)
        requires { count ≤ length piece.now }
        ensures { self.new ≡ log_more self.old (take count piece.now) }
    {
        self.log.add(&piece[..count]);
    }
}
