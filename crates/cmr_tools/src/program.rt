// The call that the program makes.
ghost use Rattle.std.specs.Prelude.{◌≡◌, Some, IsTrue};
ghost use Rattle.cmr_front.specs.Run.{Means, MeansRead, RunsOver, work};
ghost use Rattle.cmr_front.specs.Status.{answer_status};
ghost use Rattle.cmr_front.specs.Unread.{between};
ghost use Rattle.cmr_tools.specs.ToolOrders.{Order, order, ordered, tool_of};
ghost use Rattle.cmr_front.specs.declared.status.Answer.{Answer};

use crate::command::{obey, read_words};
use cmr_base::WordList;
use cmr_front::carry_out::carry_out;
use cmr_front::outcome::Stop;
use cmr_front::words::WordsError;
use cmr_io::{Shelf, Sink};
use std::alloc::Global;
use std::thread::Threads;

/// Does all that the program does, and returns its status. `words` are the arguments after the program's name. They are read
/// first, and then all files of the tool, in the order of the arguments. Then the texts are tested in the same order, the
/// answer is decided, the files are written, and standard output is written last. The first step that fails ends the run.
pub fn run<R: Threads + Sync, S: Shelf, O: Sink, E: Sink>(
    rt: &R,
    alloc: Global,
    words: &WordList,
    shelf: &mut S,
    out: &mut O,
    err: &mut E,
) -> u8
    ensures runs { RunsOver S.Shelf O.Sink E.Sink
        (ordered (order words.now))
        shelf.old out.old err.old shelf.new out.new err.new result }
    ensures means { IsTrue (S.tells shelf.old) → (o : Order) → order words.now ≡ Some o
        → (answer : Answer) → result ≡ answer_status answer
        → Means (tool_of o) (S.content shelf.old) answer }
    ensures read { (o : Order) → order words.now ≡ Some o
        → (answer : Answer) → result ≡ answer_status answer
        → MeansRead (work (tool_of o)) (between (S.reads shelf.old) (S.reads shelf.new)) answer }
{
    match read_words(alloc, words) {
        Ok(command) => obey(rt, alloc, &command, shelf, out, err),
        Err(WordsError::Refused) => carry_out(&Err(Stop::BadWords), shelf, out, err),
        Err(WordsError::Memory) => carry_out(&Err(Stop::Memory), shelf, out, err),
    }
}
