// The call that the program cmr-batch makes.
ghost use Rattle.std.specs.Prelude.{◌≡◌, IsTrue, codes};
ghost use Rattle.cmr_front.specs.SinkLines.{GetsLine};
ghost use Rattle.serving.specs.Lines.{seen_of};
ghost use Rattle.batch.specs.Conversations.{EndsWith, HasConversed, ending_line, ending_status};
ghost use Rattle.batch.specs.CmrReplies.{cmr_rule};

use crate::replier::CmrReplier;
use cmr_io::{Shelf, Sink, write_whole};
use cmr_tools::Failure;
use serving::{Ending, Line, serve};
use std::alloc::Global;
use std::thread::Threads;

/// Does all that the program does, and returns its status: replies to each request that the name `-` of the line holds, and writes a line to
/// standard error if the last of them was not the end of the read.
pub fn converse<R: Threads + Sync, S: Shelf + Drop, O: Sink + Drop, E: Sink>(
    rt: &R,
    alloc: Global,
    line: &mut Line<S, O>,
    err: &mut E,
) -> u8
    ensures { EndsWith cmr_rule (S.content line.old.shelf (codes "-"))
        (seen_of S.Shelf O.Sink line.old) (seen_of S.Shelf O.Sink line.new)
        (GetsLine E.Sink err.old err.new) result }
{
    let ending = serve_input(rt, alloc, line);
    write_ending(err, ending);
    status_of(ending)
}

// Replies to each request of `-`.
fn serve_input<R: Threads + Sync, S: Shelf + Drop, O: Sink + Drop>(
    rt: &R,
    alloc: Global,
    line: &mut Line<S, O>,
) -> Ending
    ensures { HasConversed cmr_rule (S.content line.old.shelf (codes "-"))
        (seen_of S.Shelf O.Sink line.old) (seen_of S.Shelf O.Sink line.new) result }
{
    match line.begin_read("-") {
        Ok(()) => serve(rt, alloc, &CmrReplier, line),
        Err(_) => Ending::Unread,
    }
}

// Writes the line of an ending.
fn write_ending<E: Sink>(err: &mut E, ending: Ending)
    ensures { GetsLine E.Sink err.old err.new (ending_line ending) }
{
    let _ = write_whole(err, line_of(ending));
}

fn line_of(ending: Ending) -> &'static [u8]
    ensures { result.now ≡ ending_line ending }
{
    match ending {
        Ending::Done => b"",
        Ending::NoRequest => b"cmr-batch: no request\n",
        Ending::Unread => b"cmr-batch: cannot read -\n",
        Ending::Unwritten => b"cmr-batch: cannot write -\n",
        Ending::Memory => b"cmr-batch: out of memory\n",
    }
}

fn status_of(ending: Ending) -> u8
    ensures { result ≡ ending_status ending }
{
    match ending {
        Ending::Done => 0,
        Ending::NoRequest => Failure::Text.status(),
        Ending::Unread | Ending::Unwritten => Failure::Device.status(),
        Ending::Memory => Failure::Memory.status(),
    }
}
