// The loop over all requests.
ghost use Rattle.std.specs.Prelude.{◌≡◌, ◌<◌, IfOk, IsTrue, length, map, vec_len};
ghost use Rattle.std.specs.Thread.{IsSync};
ghost use Rattle.frames.specs.Replies.{ReplyValue, reply_text};
ghost use Rattle.frames.specs.Requests.{given_file};
ghost use Rattle.serving.specs.Exchanges.{Rule};
ghost use Rattle.serving.specs.Lines.{seen_of};
ghost use Rattle.serving.specs.Serving.{HasServed};
ghost use Rattle.serving.specs.Turns.{IsAtEnd, IsHeard, IsReplied, IsReplyOf, IsTurn};

use crate::line::Line;
use crate::queue::Queue;
use cmr_base::Memory;
use cmr_io::{Shelf, Sink};
use frames::{Request, RequestError, read_request};
use netstrings::{Beginning, beginning_of};
use std::alloc::Global;
use std::thread::Threads;

/// What replies to a request.
pub trait Replier {
    /// Which replies are right for the words and the files of a request.
    ghost rule: { Rule };

    /// The text of a right reply.
    fn reply<R: Threads + Sync>(
        &self,
        rt: &R,
        alloc: Global,
        request: &Request<'_>,
    ) -> Result<Vec<u8>, Memory>
        requires sync { IsSync R.row }
        ensures { IfOk result (λ text. (reply : ReplyValue) × (text.items ≡ reply_text reply)
            × rule request.now.words (map given_file request.now.files.items) reply) };
}

/// How the loop ended.
#[derive(Clone, Copy, Debug, PartialEq, Eq)]
pub enum Ending {
    /// The read ended after a whole request.
    Done,
    /// What was read is no request.
    NoRequest,
    /// The requests could not be read.
    Unread,
    /// A reply could not be written.
    Unwritten,
    /// An allocation failed, and no reply could say so.
    Memory,
}

// How many bytes are read at once: 64 KiB.
const PIECE: usize = 65_536;

/// Replies to each request that the read of the line gives, in their order. Each reply is written whole before more is read.
pub fn serve<R: Threads + Sync, P: Replier, S: Shelf + Drop, O: Sink + Drop>(
    rt: &R,
    alloc: Global,
    replier: &P,
    line: &mut Line<S, O>,
) -> Ending
    requires { IsTrue (S.is_reading line.old.shelf) }
    ensures { HasServed P.rule (seen_of S.Shelf O.Sink line.old)
        (seen_of S.Shelf O.Sink line.new) result }
{
    let Ok(mut piece) = new_piece(alloc) else {
        return Ending::Memory;
    };
    let mut queue = Queue::new(alloc);
    'turns: for _ in 0..u64::MAX {
        if let Err(ending) = turn(rt, alloc, replier, line, &mut queue, &mut piece) {
            return ending;
        }
    }
    Ending::Memory
}

// A buffer for what is read.
fn new_piece(alloc: Global) -> Result<Vec<u8>, Memory>
    ensures { IfOk result (λ piece. (0 < vec_len piece) × (0 < length piece.items)) }
{
    Ok(vec![in alloc; 0u8; PIECE]?)
}

// Replies to the first request that is held, or reads a piece more if no whole frame is held.
fn turn<R: Threads + Sync, P: Replier, S: Shelf + Drop, O: Sink + Drop>(
    rt: &R,
    alloc: Global,
    replier: &P,
    line: &mut Line<S, O>,
    queue: &mut Queue,
    piece: &mut [u8],
) -> Result<(), Ending>
    requires reading { IsTrue (S.is_reading line.old.shelf) }
    requires some { 0 < length piece.old }
    ensures turn { IsTurn P.rule (seen_of S.Shelf O.Sink line.old)
        (seen_of S.Shelf O.Sink line.new) queue.old queue.new result }
    ensures same { length piece.new ≡ length piece.old }
{
    match beginning_of(queue.held()) {
        Beginning::Whole(first) => {
            let count = queue.held().len() - first.rest.len();
            match reply_to(rt, alloc, replier, first.text, line) {
                Ok(()) => {
                    queue.take(count);
                    Ok(())
                }
                Err(ending) => Err(ending),
            }
        }
        Beginning::Fault => Err(Ending::NoRequest),
        Beginning::Cut => hear(line, queue, piece),
    }
}

// Writes the reply to the request with this text.
fn reply_to<R: Threads + Sync, P: Replier, S: Shelf + Drop, O: Sink + Drop>(
    rt: &R,
    alloc: Global,
    replier: &P,
    text: &[u8],
    line: &mut Line<S, O>,
) -> Result<(), Ending>
    ensures { IsReplied P.rule text.now (seen_of S.Shelf O.Sink line.old)
        (seen_of S.Shelf O.Sink line.new) result }
{
    let reply = reply_of(rt, alloc, replier, text)?;
    match line.write(&reply) {
        Ok(()) => Ok(()),
        Err(_) => Err(Ending::Unwritten),
    }
}

// The text of the reply to the request with this text.
fn reply_of<R: Threads + Sync, P: Replier>(
    rt: &R,
    alloc: Global,
    replier: &P,
    text: &[u8],
) -> Result<Vec<u8>, Ending>
    ensures { IsReplyOf P.rule text.now result }
{
    match read_request(alloc, text) {
        Ok(request) => match replier.reply(rt, alloc, &request) {
            Ok(reply) => Ok(reply),
            Err(_) => Err(Ending::Memory),
        },
        Err(RequestError::NoRequest) => Err(Ending::NoRequest),
        Err(RequestError::Memory) => Err(Ending::Memory),
    }
}

// Reads a piece, and appends it to what is held.
fn hear<S: Shelf + Drop, O: Sink + Drop>(
    line: &mut Line<S, O>,
    queue: &mut Queue,
    piece: &mut [u8],
) -> Result<(), Ending>
    requires reading { IsTrue (S.is_reading line.old.shelf) }
    requires some { 0 < length piece.old }
    ensures heard { IsHeard (seen_of S.Shelf O.Sink line.old)
        (seen_of S.Shelf O.Sink line.new) queue.old queue.new result }
    ensures same { length piece.new ≡ length piece.old }
{
    let Ok(count) = line.next(piece) else {
        return Err(Ending::Unread);
    };
    if count == 0 {
        return Err(at_end(queue));
    }
    match queue.append(&piece[..count]) {
        Ok(()) => Ok(()),
        Err(_) => Err(Ending::Memory),
    }
}

// How the loop ends at the end of the read, if no whole frame is held.
fn at_end(queue: &Queue) -> Ending
    ensures { IsAtEnd queue.now result }
{
    if queue.held().is_empty() {
        Ending::Done
    } else {
        Ending::NoRequest
    }
}
