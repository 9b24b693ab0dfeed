// Requests, and the devices that serve them. In all texts `/` represents a line feed.
use batch::converse;
use cmr_base::{Word, WordList};
use cmr_io::{MemoryShelf, MemorySink, Shelf, Sink};
use netstrings::Row;
use serving::Line;
use std::alloc::{AllocGlobal, Global};
use std::test::Fail;
use std::thread::Threads;

/// The bytes that a sink takes.
pub const ROOM: usize = 100_000;

/// The bytes of a text in which `/` represents each line feed.
pub fn bytes(alloc: Global, text: &str) -> Result<Vec<u8>, Fail> {
    let mut bytes = Vec::new(alloc);
    for byte in text.as_bytes() {
        bytes.push(if *byte == b'/' { b'\n' } else { *byte })?;
    }
    Ok(bytes)
}

/// The words of a run, with one blank between them.
pub fn words(alloc: Global, texts: &str) -> Result<WordList, Fail> {
    let mut words = WordList::new(alloc);
    for text in texts.split(' ') {
        words.push(Word::new(alloc, text)?)?;
    }
    Ok(words)
}

/// A request: its words, its files as `NAME: TEXT` with `; ` between them, and the names that the run writes.
#[derive(Clone, Copy)]
pub struct Given<'a> {
    pub words: &'a str,
    pub files: &'a str,
    pub written: &'a str,
}

/// The request of a row of a table: its parts with ` | ` between them. A part is `none` if there is no file.
pub fn given_of(row: &str) -> Result<Given<'_>, Fail> {
    let mut parts = row.split(" | ");
    Ok(Given {
        words: parts.next().ok_or("no words")?,
        files: parts.next().ok_or("no files")?,
        written: parts.next().ok_or("no names")?,
    })
}

/// Appends the frame of a request.
pub fn add_frame(alloc: Global, frames: &mut Row, given: &Given<'_>) -> Result<(), Fail> {
    let mut texts = Row::new(alloc);
    for text in given.words.split(' ') {
        texts.add(text.as_bytes())?;
    }
    let mut request = Row::new(alloc);
    request.add(texts.bytes())?;
    for file in given.files.split("; ") {
        if let Some((name, text)) = file.split_once(": ") {
            request.add(name.as_bytes())?;
            request.add(&bytes(alloc, text)?)?;
        }
    }
    frames.add(request.bytes())?;
    Ok(())
}

/// The frames of all rows of a table.
pub fn all_frames(alloc: Global, rows: &str) -> Result<Vec<u8>, Fail> {
    let mut frames = Row::new(alloc);
    for row in rows.split('\n') {
        add_frame(alloc, &mut frames, &given_of(row)?)?;
    }
    Ok(frames.into_bytes())
}

/// A shelf and two sinks.
#[derive(Drop)]
pub struct Devices {
    pub line: Line<MemoryShelf, MemorySink>,
    pub err: MemorySink,
}

/// How the devices give and take: the most bytes of a call (0: any number), and the number of the call that fails, if any.
#[derive(Clone, Copy)]
pub struct Manner {
    pub most: usize,
    pub failing_read: Option<u64>,
    pub failing_write: Option<u64>,
    pub failing_line: Option<u64>,
}

/// No call fails.
pub fn pieces(most: usize) -> Manner {
    Manner {
        most,
        failing_read: None,
        failing_write: None,
        failing_line: None,
    }
}

fn sink(alloc: Global, most: usize, failing: Option<u64>) -> Result<MemorySink, Fail> {
    let mut sink = MemorySink::new(alloc, ROOM)?;
    if most > 0 {
        sink.take_at_most(most);
    }
    if let Some(number) = failing {
        sink.fail_at(number)?;
    }
    Ok(sink)
}

/// Devices whose shelf holds these bytes as standard input.
pub fn devices_of(alloc: Global, input: &[u8], manner: Manner) -> Result<Devices, Fail> {
    let mut shelf = MemoryShelf::new(alloc)?;
    shelf.hold("-", input)?;
    if manner.most > 0 {
        shelf.take_at_most(manner.most);
    }
    if let Some(number) = manner.failing_read {
        shelf.fail_at(number)?;
    }
    let out = sink(alloc, manner.most, manner.failing_write)?;
    let err = sink(alloc, manner.most, manner.failing_line)?;
    Ok(Devices {
        line: Line::new(shelf, out),
        err,
    })
}

/// Serves all requests of the devices, and returns the status.
pub fn served<R: Threads + Sync + AllocGlobal>(rt: &R, devices: &mut Devices) -> u8 {
    serve_over(rt, &mut devices.line, &mut devices.err)
}

// Has no clauses, so that the tests depend only on what they see of the call.
fn serve_over<R: Threads + Sync + AllocGlobal, S: Shelf + Drop, O: Sink + Drop, E: Sink>(
    rt: &R,
    line: &mut Line<S, O>,
    err: &mut E,
) -> u8 {
    converse(rt, rt.alloc(), line, err)
}
