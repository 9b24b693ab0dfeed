// The call that the program makes under its third name.
ghost use Rattle.std.specs.Prelude.{◌≡◌, None, Some, IfOk, IsTrue};
ghost use Rattle.cmr_front.specs.Run.{Means, MeansRead, RunsOver, work};
ghost use Rattle.cmr_front.specs.Status.{answer_status};
ghost use Rattle.cmr_front.specs.Unread.{between};
ghost use Rattle.cmr_front.specs.Words.ReadWords.{Gives};
ghost use Rattle.cmr_front.specs.declared.status.Answer.{Answer};
ghost use Rattle.cmr_front.specs.declared.words.WordsError.TheVariants.{Refused};
ghost use Rattle.cmr_large.specs.LargeTu.{LargeOrder, large_order, large_order_of, large_ordered, large_tool};

use crate::tu::{LargeOptions, read_large_tu};
use cmr_base::WordList;
use cmr_front::carry_out::carry_out;
use cmr_front::outcome::Stop;
use cmr_front::tool::Tool;
use cmr_front::words::WordsError;
use cmr_io::{Shelf, Sink};
use std::alloc::Global;
use std::thread::Threads;

/// Does all that the program does, and returns its status. `words` are the arguments after the program's name. They are read
/// first, and then the file. Then its text is tested, the answer is decided, the file of `-E` is written, and standard output is written last. The
/// first step that fails ends the run.
pub fn run<R: Threads + Sync, S: Shelf, O: Sink, E: Sink>(
    rt: &R,
    alloc: Global,
    words: &WordList,
    shelf: &mut S,
    out: &mut O,
    err: &mut E,
) -> u8
    ensures runs { RunsOver S.Shelf O.Sink E.Sink
        (large_ordered (large_order words.now))
        shelf.old out.old err.old shelf.new out.new err.new result }
    ensures means { IsTrue (S.tells shelf.old) → (o : LargeOrder) → large_order words.now ≡ Some o
        → (answer : Answer) → result ≡ answer_status answer
        → Means (large_tool o) (S.content shelf.old) answer }
    ensures read { (o : LargeOrder) → large_order words.now ≡ Some o
        → (answer : Answer) → result ≡ answer_status answer
        → MeansRead (work (large_tool o)) (between (S.reads shelf.old) (S.reads shelf.new))
        answer }
{
    match read_words(alloc, words) {
        Ok(options) => options.run(rt, alloc, shelf, out, err),
        Err(error) => refuse(words, error, shelf, out, err),
    }
}

// Ends a run whose arguments give no options.
fn refuse<S: Shelf, O: Sink, E: Sink>(
    _words: &WordList,
    error: WordsError,
    shelf: &mut S,
    out: &mut O,
    err: &mut E,
) -> u8
    requires { error ≡ Refused → large_order _words.now ≡ None }
    ensures runs { RunsOver S.Shelf O.Sink E.Sink
        (large_ordered (large_order _words.now))
        shelf.old out.old err.old shelf.new out.new err.new result }
    ensures unanswered { (answer : Answer) → ¬ (result ≡ answer_status answer) }
{
    match error {
        WordsError::Refused => carry_out(&Err(Stop::BadWords), shelf, out, err),
        WordsError::Memory => carry_out(&Err(Stop::Memory), shelf, out, err),
    }
}

// The options that the arguments give, of which the first is `tu`.
fn read_words<'a>(alloc: Global, words: &'a WordList) -> Result<LargeOptions<'a>, WordsError>
    ensures value { Gives large_order_of result (large_order words.now) }
    ensures ranges { IfOk result (λ options. (large_tool (large_order_of options)).InRanges) }
{
    let Some((tool, rest)) = words.as_slice().split_first() else {
        return Err(WordsError::Refused);
    };
    if tool.text() == "tu" {
        read_large_tu(alloc, rest)
    } else {
        Err(WordsError::Refused)
    }
}
