ghost use Rattle.std.specs.Prelude.{◌≡◌, [], false, IfOk, OnErr, take};
ghost use Rattle.std.specs.Io.KnownBytes.{Appends, Keeps};
ghost use Rattle.cmr_io.specs.Causes.{HasCause};
ghost use Rattle.cmr_io.specs.Calls.{counted};
ghost use Rattle.cmr_io.specs.Pieces.{TakesPrefix, got_after};

use crate::byte_log::ByteLog;
use crate::device::{Failed, Sink};
use crate::fault_count::FaultCount;
use crate::retry::write_counted;
use std::io::Write;
use std::marker::Model;

/// The writer of standard output or of standard error. Contracts see the bytes of the writer, if they are known, the
/// bytes that the writer took from the sink, and the count of faults.
#[derive(Drop)]
pub struct StdSink<W: Write + Drop> {
    writer: W,
    log: ByteLog,
    faults: FaultCount,
}

impl<W: Write + Drop> Model for StdSink<W> {
    ghost use Rattle.cmr_io.specs.WriterSink.{WriterSink};

    ghost Value = { WriterSink };

    ghost view = { λ sink. record { contents = W.contents sink.writer; taken = sink.log.all; faults = sink.faults } };
}

impl<W: Write + Drop> StdSink<W> {
    /// A sink over the writer.
    pub fn new(writer: W) -> Self
        ensures contents { result.contents ≡ W.contents writer }
        ensures taken { result.taken ≡ [] }
        ensures faults { result.faults ≡ 0 }
    {
        StdSink {
            writer,
            log: ByteLog::new(),
            faults: FaultCount::new(),
        }
    }
}

impl<W: Write + Drop> Sink for StdSink<W> {
    ghost tells = { λ _. false };

    ghost got = { λ _. [] };

    ghost taken = { λ sink. sink.taken };

    ghost faults = { λ sink. sink.faults };

    ghost is_calm = { λ _. false };

    ghost room = { λ _. 0 };

    ghost calm_tells = { λ sink calm. calm };

    fn put(&mut self, piece: &[u8]) -> Result<usize, Failed>
        ensures count { self.new.faults ≡ counted result self.old.faults }
        ensures prefix { IfOk result (TakesPrefix piece.now) }
        ensures written { IfOk result (λ count.
            Appends self.old.contents self.new.contents (take count piece.now)) }
        ensures err { OnErr result (Keeps self.old.contents self.new.contents) }
        ensures taken { self.new.taken ≡ got_after self.old.taken piece.now result }
        ensures cause { HasCause self.old.faults self.new.faults result }
    {
        let result = write_counted(&mut self.writer, piece, &mut self.faults);
        if let Ok(count) = result {
            self.log.add(&piece[..count]);
        }
        result
    }
}
