//! The files of the system and standard input. No clause says which file a name opens or what the system's calls do.

ghost use Rattle.std.specs.Prelude.{◌≡◌, ◌≤◌, ◌<◌, [], false, true, None, IsTrue, IfOk, OnErr, is_err, is_ok, length, take};
ghost use Rattle.std.specs.Io.KnownBytes.{Appends, Consumes, IsAtEnd, Keeps};
ghost use Rattle.cmr_io.specs.Causes.{HasCause, Rose};
ghost use Rattle.cmr_io.specs.Calls.{counted, next_number};
ghost use Rattle.cmr_io.specs.Pieces.{TakesPrefix};
ghost use Rattle.cmr_io.specs.Log.{after_put, log_with};
ghost use Rattle.cmr_io.specs.Reads.{after_begun, after_next};
ghost use Rattle.cmr_io.specs.FileShelf.{new_shelf};

use crate::device::{Failed, Shelf};
use crate::fault_count::FaultCount;
use crate::read_count::ReadCount;
use crate::retry::{read_counted, write_counted};
use crate::write_log::WriteLog;
use std::fs;
use std::marker::Model;
use std::rt::Files;

/// The open file or input of a shelf of files.
#[derive(Drop)]
pub enum Open<F, I> {
    Nothing,
    Read(F),
    Input(I),
    Write(F),
}

/// The files of the system. A read of the name `-` reads standard input. Contracts see
///
/// * whether a read or a write is begun;
/// * the rest of the read, and the bytes of the written file, if the runtime makes them known;
/// * the reads and the writes that were begun, and the bytes that they gave and took;
/// * whether the last call failed, and the count of faults.
#[derive(Drop)]
pub struct RealShelf<'a, R: Files + Input> {
    rt: &'a R,
    opened: Open<R::File, R::Reader>,
    reads: ReadCount,
    writes: WriteLog,
    failed: bool,
    faults: FaultCount,
}

impl<'a, R: Files + Input> Model for RealShelf<'a, R> {
    ghost use Rattle.cmr_io.specs.FileShelf.{FileShelf};
    ghost use Rattle.cmr_io.specs.Open.{got_in, is_reading, is_writing, left_of_open};

    ghost Value = { FileShelf };

    ghost view = { λ shelf. record { reading = is_reading shelf.opened; writing = is_writing shelf.opened; left = left_of_open R.File.remaining R.Reader.remaining shelf.opened; got = got_in R.File.contents shelf.opened; reads = shelf.reads; writes = shelf.writes; failed = shelf.failed; faults = shelf.faults } };
}

impl<'a, R: Files + Input> RealShelf<'a, R> {
    /// A shelf of the files that the runtime reaches. No file is open.
    pub fn new(rt: &'a R) -> Self
        ensures { result ≡ new_shelf }
    {
        RealShelf {
            rt,
            opened: Open::Nothing,
            reads: ReadCount::new(),
            writes: WriteLog::new(),
            failed: false,
            faults: FaultCount::new(),
        }
    }

    // Counts a failure.
    fn fault(&mut self) -> Failed
        ensures after { self.new
            ≡ record self.old { failed = true; faults = next_number self.old.faults } }
        ensures cause { Rose self.old.faults self.new.faults }
        ensures later { self.old.faults ≤ self.new.faults }
    {
        self.failed = true;
        self.faults.fault()
    }
}

impl<R: Files + Input> Shelf for RealShelf<'_, R> {
    ghost tells = { λ _. false };

    ghost content = { λ _ _. None };

    ghost is_reading = { λ shelf. shelf.reading };

    ghost left = { λ _. [] };

    ghost is_writing = { λ shelf. shelf.writing };

    ghost target = { λ _. [] };

    ghost got = { λ _. [] };

    ghost reads = { λ shelf. shelf.reads };

    ghost writes = { λ shelf. shelf.writes };

    ghost failed = { λ shelf. shelf.failed };

    ghost faults = { λ shelf. shelf.faults };

    ghost is_calm = { λ _. false };

    ghost room = { λ _ _. None };

    ghost calm_tells = { λ shelf calm. calm };

    fn begin_read(&mut self, name: &str) -> Result<(), Failed>
        ensures count { self.new.faults ≡ counted result self.old.faults }
        ensures begun { self.new.reading ≡ is_ok result }
        ensures ended { self.new.writing ≡ false }
        ensures reads { self.new.reads ≡ after_begun self.old.reads name.now }
        ensures writes { self.new.writes ≡ self.old.writes }
        ensures failed { self.new.failed ≡ is_err result }
        ensures cause { HasCause self.old.faults self.new.faults result }
    {
        self.reads.begin(name);
        self.failed = false;
        if name == "-" {
            self.opened = Open::Input(self.rt.reader());
            return Ok(());
        }
        self.opened = Open::Nothing;
        match fs::open(self.rt, name) {
            Ok(file) => {
                self.opened = Open::Read(file);
                Ok(())
            }
            Err(_) => Err(self.fault()),
        }
    }

    fn next(&mut self, into: &mut [u8]) -> Result<usize, Failed>
        requires { IsTrue self.old.reading }
        ensures count { self.new.faults ≡ counted result self.old.faults }
        ensures within { IfOk result (λ count. count ≤ length into.new) }
        ensures given { IfOk result (λ count.
            Consumes self.old.left self.new.left (take count into.new)) }
        ensures end { IfOk result (λ count. count ≡ 0 → 0 < length into.new
            → IsAtEnd self.new.left) }
        ensures err { OnErr result (Keeps self.old.left self.new.left) }
        ensures begun { (self.new.reading ≡ true) × (self.new.writing ≡ self.old.writing) }
        ensures logs { (self.new.reads ≡ after_next self.old.reads into.new result)
            × (self.new.writes ≡ self.old.writes) }
        ensures failed { self.new.failed ≡ is_err result }
        ensures cause { HasCause self.old.faults self.new.faults result }
    {
        let result = match &mut self.opened {
            Open::Read(file) => read_counted(file, into, &mut self.faults),
            Open::Input(input) => read_counted(input, into, &mut self.faults),
            Open::Nothing | Open::Write(_) => unreachable!(),
        };
        self.failed = result.is_err();
        if let Ok(count) = result {
            self.reads.add(into, count);
        }
        result
    }

    fn begin_write(&mut self, name: &str) -> Result<(), Failed>
        ensures count { self.new.faults ≡ counted result self.old.faults }
        ensures begun { self.new.writing ≡ is_ok result }
        ensures ended { self.new.reading ≡ false }
        ensures reads { self.new.reads ≡ self.old.reads }
        ensures writes { self.new.writes ≡ log_with self.old.writes name.now [] }
        ensures failed { self.new.failed ≡ is_err result }
        ensures cause { HasCause self.old.faults self.new.faults result }
    {
        self.writes.begin(name);
        self.opened = Open::Nothing;
        self.failed = false;
        match fs::create(self.rt, name) {
            Ok(file) => {
                self.opened = Open::Write(file);
                Ok(())
            }
            Err(_) => Err(self.fault()),
        }
    }

    fn put(&mut self, piece: &[u8]) -> Result<usize, Failed>
        requires { IsTrue self.old.writing }
        ensures count { self.new.faults ≡ counted result self.old.faults }
        ensures taken { IfOk result (TakesPrefix piece.now) }
        ensures written { IfOk result (λ count.
            Appends self.old.got self.new.got (take count piece.now)) }
        ensures err { OnErr result (Keeps self.old.got self.new.got) }
        ensures begun { (self.new.reading ≡ self.old.reading) × (self.new.writing ≡ true) }
        ensures logs { (self.new.reads ≡ self.old.reads)
            × (self.new.writes ≡ after_put self.old.writes piece.now result) }
        ensures failed { self.new.failed ≡ is_err result }
        ensures cause { HasCause self.old.faults self.new.faults result }
    {
        let Open::Write(file) = &mut self.opened else {
            unreachable!()
        };
        let result = write_counted(file, piece, &mut self.faults);
        self.failed = result.is_err();
        if let Ok(count) = result {
            self.writes.add(piece, count);
        }
        result
    }
}
