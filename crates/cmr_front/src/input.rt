// Reading the files of a tool.
ghost use Rattle.std.specs.Prelude.{◌≡◌, ◌≤◌, ◌++◌, [], ◌∷◌, IfOk, IfErr, IsTrue, Ok, OnOk, OnErr, length, map};
ghost use Rattle.cmr_io.specs.Calls.{next_number};
ghost use Rattle.cmr_io.specs.Causes.{Rose};
ghost use Rattle.cmr_io.specs.Kept.{KeepsNames};
ghost use Rattle.cmr_front.specs.Inputs.{bytes_of, given, input_file, most_bytes, reading, texts, whole};
ghost use Rattle.cmr_front.specs.Outcome.{stop_report};
ghost use Rattle.cmr_front.specs.Status.{failure_status};
ghost use Rattle.cmr_front.specs.Stopped.{StopsInputs, StopsOnText, StopsReading};
ghost use Rattle.cmr_front.specs.Unread.{AreAllRead, HaveGiven, between};
ghost use Rattle.cmr_front.specs.declared.status.Failure.TheVariants.{Device};

use crate::outcome::Stop;
use cmr_base::{MAX_EVIDENCE, MAX_TEXT};
use cmr_io::{ReadError, Shelf, read_whole};
use std::alloc::Global;

/// The purpose of a file that is read.
#[derive(Clone, Copy, Debug, PartialEq, Eq)]
pub enum InputKind {
    /// The text of a matrix, or of a graph that represents one.
    MatrixText,
    /// A tree, a violator or a chain.
    Evidence,
}

impl InputKind {
    /// The maximum number of bytes of the file.
    pub fn most(self) -> usize
        ensures { result ≡ most_bytes self }
    {
        match self {
            InputKind::MatrixText => MAX_TEXT,
            InputKind::Evidence => MAX_EVIDENCE,
        }
    }
}

/// A file that a tool reads.
#[derive(Clone, Copy, Debug)]
pub struct Input<'a> {
    pub name: &'a str,
    pub kind: InputKind,
}

/// The content of a file.
#[derive(Debug, Drop)]
pub struct Text {
    pub bytes: Vec<u8>,
}

/// The contents of the files, in their order, or why the run ends. The first file that cannot be read or is too long
/// ends it, and the files after it are not read.
pub fn read_inputs<'a, S: Shelf>(
    alloc: Global,
    shelf: &mut S,
    inputs: &[Input<'a>],
) -> Result<Vec<Text>, Stop<'a>>
    ensures given { IfOk result (λ read. IsTrue (S.tells shelf.old)
        → given (S.content shelf.old) (map input_file inputs.now)
        ≡ texts (map bytes_of read.items)) }
    ensures count { IfOk result (λ read. length read.items ≡ length inputs.now) }
    ensures ended { OnOk result (AreAllRead (map input_file inputs.now)
        (between (S.reads shelf.old) (S.reads shelf.new))) }
    ensures texts { IfOk result (λ read. HaveGiven (map input_file inputs.now)
        (map bytes_of read.items) (between (S.reads shelf.old) (S.reads shelf.new))) }
    ensures stopped { IfErr result (StopsInputs (map input_file inputs.now)
        (S.content shelf.old) (S.tells shelf.old) (S.is_calm shelf.old)
        (between (S.reads shelf.old) (S.reads shelf.new)) (S.failed shelf.new)) }
    ensures cause { IfErr result (λ stop. (stop_report stop).status ≡ failure_status Device
        → Rose (S.faults shelf.old) (S.faults shelf.new)) }
    ensures kept { KeepsNames S.content S.tells S.is_calm S.room shelf.old shelf.new }
    ensures writes { S.writes shelf.new ≡ S.writes shelf.old }
    ensures later { S.faults shelf.old ≤ S.faults shelf.new }
{
    let mut read = Vec::new(alloc);
    for input in inputs {
        match read_input(alloc, shelf, *input) {
            Ok(text) => match read.push(text) {
                Ok(()) => {}
                Err(_) => return Err(Stop::Memory),
            },
            Err(stop) => return Err(stop),
        }
    }
    Ok(read)
}

fn read_input<'a, S: Shelf>(
    alloc: Global,
    shelf: &mut S,
    input: Input<'a>,
) -> Result<Text, Stop<'a>>
    ensures whole { IfOk result (λ text. IsTrue (S.tells shelf.old)
        → reading (S.content shelf.old) (input_file input.entry) ≡ whole (bytes_of text)) }
    ensures begun { (S.reads shelf.new).names
        ≡ (S.reads shelf.old).names ++ input.entry.name.now ∷ [] }
    ensures text { IfOk result (λ text. ((S.reads shelf.new).texts
        ≡ (S.reads shelf.old).texts ++ bytes_of text ∷ [])
        × (length (bytes_of text) ≤ most_bytes input.entry.kind)) }
    ensures ended { OnOk result ((S.reads shelf.new).ends ≡ next_number (S.reads shelf.old).ends) }
    ensures not_ended { OnErr result ((S.reads shelf.new).ends ≡ (S.reads shelf.old).ends) }
    ensures stopped { IfErr result (λ stop. StopsReading (input_file input.entry)
        (S.content shelf.old) (S.tells shelf.old) (S.is_calm shelf.old) stop
        × StopsOnText (input_file input.entry) (S.reads shelf.old).texts (S.reads shelf.new).texts
        stop) }
    ensures cause { IfErr result (λ stop. (stop_report stop).status ≡ failure_status Device
        → IsTrue (S.failed shelf.new) × Rose (S.faults shelf.old) (S.faults shelf.new)) }
    ensures kept { KeepsNames S.content S.tells S.is_calm S.room shelf.old shelf.new }
    ensures writes { S.writes shelf.new ≡ S.writes shelf.old }
    ensures later { S.faults shelf.old ≤ S.faults shelf.new }
{
    let name = input.name;
    match read_whole(alloc, shelf, name, input.kind.most()) {
        Ok(bytes) => Ok(Text { bytes }),
        Err(ReadError::ReadFault) => Err(Stop::CannotRead { name }),
        Err(ReadError::TooLong) => Err(Stop::TooLong { name }),
        Err(ReadError::Memory) => Err(Stop::Memory),
    }
}
