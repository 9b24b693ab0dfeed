// A shelf that is read and a sink that is written, and the order of their calls.
ghost use Rattle.std.specs.Prelude.{◌≡◌, ◌≤◌, ◌++◌, [], ◌∷◌, Some, IsTrue, IfOk, OnErr, OnOk, length};
ghost use Rattle.cmr_io.specs.Causes.{HasCause};
ghost use Rattle.cmr_io.specs.Pieces.{GivesPrefix, got_after};
ghost use Rattle.cmr_io.specs.Reads.{after_begun, after_next};
ghost use Rattle.cmr_io.specs.Whole.{AppendsPrefix};
ghost use Rattle.serving.specs.Lines.{moment_of, seen_of};

use crate::talk_log::TalkLog;
use cmr_io::{Failed, Shelf, Sink, WriteFault, write_whole};

/// A shelf that is read and a sink that is written. The line logs what it reads and writes, in its order, so clauses can say what was written before
/// more was read. The log is empty at run time.
#[derive(Drop)]
pub struct Line<S: Shelf + Drop, O: Sink + Drop> {
    shelf: S,
    out: O,
    talk: TalkLog,
}

impl<S: Shelf + Drop, O: Sink + Drop> Line<S, O> {
    /// A line of these devices, which has heard and said nothing.
    pub fn new(shelf: S, out: O) -> Self
        ensures devices { (result.shelf ≡ shelf) × (result.out ≡ out) }
        ensures heard { (result.talk.heard ≡ []) × (result.talk.said ≡ []) }
        ensures moments { result.talk.moments ≡ [] }
    {
        Line {
            shelf,
            out,
            talk: TalkLog::new(),
        }
    }

    /// The sink.
    pub fn out(&self) -> &O
        ensures { result.now ≡ self.now.out }
    {
        &self.out
    }

    /// Begins a read of a name of the shelf. Nothing is heard.
    pub fn begin_read(&mut self, name: &str) -> Result<(), Failed>
        ensures begun { OnOk result (IsTrue (S.is_reading self.new.shelf)) }
        ensures left { OnOk result (IsTrue (S.tells self.old.shelf)
            → S.content self.old.shelf name.now ≡ Some (S.left self.new.shelf)) }
        ensures reads { S.reads self.new.shelf ≡ after_begun (S.reads self.old.shelf) name.now }
        ensures writes { S.writes self.new.shelf ≡ S.writes self.old.shelf }
        ensures tells { S.tells self.new.shelf ≡ S.tells self.old.shelf }
        ensures failed { OnErr result (IsTrue (S.failed self.new.shelf)) }
        ensures out { self.new.out ≡ self.old.out }
        ensures talk { self.new.talk ≡ self.old.talk }
    {
        self.shelf.begin_read(name)
    }

    /// Writes the next bytes of the read to a prefix of `into`, and returns their number. They are heard.
    pub fn next(&mut self, into: &mut [u8]) -> Result<usize, Failed>
        requires { IsTrue (S.is_reading self.old.shelf) }
        ensures within { IfOk result (λ count. count ≤ length into.new) }
        ensures given { IfOk result (λ count. IsTrue (S.tells self.old.shelf)
            → GivesPrefix (S.left self.old.shelf) (S.left self.new.shelf) into.new count) }
        ensures err { OnErr result (S.left self.new.shelf ≡ S.left self.old.shelf) }
        ensures kept { (S.is_reading self.new.shelf ≡ S.is_reading self.old.shelf)
            × (S.writes self.new.shelf ≡ S.writes self.old.shelf)
            × (S.tells self.new.shelf ≡ S.tells self.old.shelf) }
        ensures reads { S.reads self.new.shelf
            ≡ after_next (S.reads self.old.shelf) into.new result }
        ensures failed { OnErr result (IsTrue (S.failed self.new.shelf)) }
        ensures out { self.new.out ≡ self.old.out }
        ensures heard { (self.new.talk.heard ≡ got_after self.old.talk.heard into.new result)
            × (self.new.talk.said ≡ self.old.talk.said) }
        ensures moments { self.new.talk.moments ≡ self.old.talk.moments
            ++ moment_of (seen_of S.Shelf O.Sink self.old) ∷ [] }
    {
        match self.shelf.next(into) {
            Ok(count) => {
                self.talk.hear(&into[..count]);
                Ok(count)
            }
            Err(failed) => {
                self.talk.hear(&[]);
                Err(failed)
            }
        }
    }

    /// Appends all bytes to the sink, or a prefix of them if a call of the sink fails. If all are written, they are said.
    pub fn write(&mut self, bytes: &[u8]) -> Result<(), WriteFault>
        ensures taken { OnOk result (O.taken self.new.out ≡ O.taken self.old.out ++ bytes.now) }
        ensures said { OnOk result (self.new.talk.said ≡ self.old.talk.said ++ bytes.now) }
        ensures cut { OnErr result (AppendsPrefix (O.taken self.old.out) (O.taken self.new.out)
            bytes.now) }
        ensures cause { HasCause (O.faults self.old.out) (O.faults self.new.out) result }
        ensures shelf { self.new.shelf ≡ self.old.shelf }
        ensures heard { (self.new.talk.heard ≡ self.old.talk.heard)
            × (self.new.talk.moments ≡ self.old.talk.moments) }
    {
        match write_whole(&mut self.out, bytes) {
            Ok(()) => {
                self.talk.say(bytes);
                Ok(())
            }
            Err(fault) => Err(fault),
        }
    }
}
