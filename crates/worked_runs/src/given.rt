// The values of the tables. In all texts of the tables `/` represents a line feed.
use cmr_base::{Word, WordList};
use cmr_io::{MemoryShelf, MemorySink, Shelf, Sink};
use std::alloc::{AllocGlobal, Global};
use std::process::Abort;
use std::test::Fail;
use std::thread::Threads;

/// The content of a name before the run that may write it. It stays if the run does not write it.
pub const UNTOUCHED: &str = "as before";

/// The bytes of a text in which `/` represents each line feed.
pub fn bytes(alloc: Global, text: &str) -> Result<Vec<u8>, Fail> {
    let mut bytes = Vec::new(alloc);
    for byte in text.as_bytes() {
        bytes.push(if *byte == b'/' { b'\n' } else { *byte })?;
    }
    Ok(bytes)
}

/// The arguments of a command line, with one blank between them. An empty argument is written as two single quotes.
pub fn words(alloc: Global, texts: &str) -> Result<WordList, Fail> {
    let mut words = WordList::new(alloc);
    for text in texts.split(' ') {
        let text = if text == "''" { "" } else { text };
        words.push(Word::new(alloc, text)?)?;
    }
    Ok(words)
}

/// A run: its arguments, the contents of names before it, its status, its printed text, and the contents after it of the
/// names that it may write. Printed text goes to standard error if it begins with `cmr: `, and otherwise to standard output.
#[derive(Clone, Copy)]
pub struct Run<'a> {
    pub words: &'a str,
    pub before: &'a str,
    pub status: &'a str,
    pub printed: &'a str,
    pub after: &'a str,
}

/// The run of a row of a table: its parts with ` | ` between them. Files are written as `NAME: TEXT`, with `; ` between
/// them, and as `none` if there is no file.
pub fn run_of(row: &str) -> Result<Run<'_>, Fail> {
    let mut parts = row.split(" | ");
    Ok(Run {
        words: parts.next().ok_or("no words")?,
        before: parts.next().ok_or("no files")?,
        status: parts.next().ok_or("no status")?,
        printed: parts.next().ok_or("nothing printed")?,
        after: parts.next().ok_or("no files at the end")?,
    })
}

impl Run<'_> {
    /// The text that standard output gets.
    pub fn output(&self) -> &str {
        if self.printed.starts_with("cmr: ") {
            ""
        } else {
            self.printed
        }
    }

    /// The text that standard error gets.
    pub fn error_line(&self) -> &str {
        if self.printed.starts_with("cmr: ") {
            self.printed
        } else {
            ""
        }
    }
}

/// The devices of a run.
#[derive(Drop)]
pub struct Devices {
    pub shelf: MemoryShelf,
    pub out: MemorySink,
    pub err: MemorySink,
}

/// The devices before a run: each name that it may write holds other bytes and has room for a thousand, and standard
/// error has room for `error_room` bytes.
pub fn devices_before(alloc: Global, run: &Run<'_>, error_room: usize) -> Result<Devices, Fail> {
    let mut shelf = MemoryShelf::new(alloc)?;
    for file in run.after.split("; ") {
        if let Some((name, _)) = file.split_once(": ") {
            shelf.hold(name, UNTOUCHED.as_bytes())?;
            shelf.prepare(name, 1000)?;
        }
    }
    hold(alloc, &mut shelf, run.before)?;
    let out = MemorySink::new(alloc, 1000)?;
    let err = MemorySink::new(alloc, error_room)?;
    Ok(Devices { shelf, out, err })
}

fn hold(alloc: Global, shelf: &mut MemoryShelf, files: &str) -> Result<(), Fail> {
    for file in files.split("; ") {
        if let Some((name, text)) = file.split_once(": ") {
            shelf.hold(name, &bytes(alloc, text)?)?;
        }
    }
    Ok(())
}

/// Runs the program, and returns its status.
pub fn run_on<R: Threads + Sync + AllocGlobal>(rt: &R, words: &WordList, on: &mut Devices) -> u8 {
    run_over(rt, words, &mut on.shelf, &mut on.out, &mut on.err)
}

/// Runs the program under its name for large matrices, and returns its status.
pub fn run_large_on<R: Threads + Sync + AllocGlobal>(
    rt: &R,
    words: &WordList,
    on: &mut Devices,
) -> u8 {
    run_large_over(rt, words, &mut on.shelf, &mut on.out, &mut on.err)
}

// Has no clauses, so that the tests depend only on what they see of the call.
fn run_over<R: Threads + Sync + AllocGlobal, S: Shelf, O: Sink, E: Sink>(
    rt: &R,
    words: &WordList,
    shelf: &mut S,
    out: &mut O,
    err: &mut E,
) -> u8 {
    cmr_tools::run(rt, rt.alloc(), words, shelf, out, err)
}

// Has no clauses either.
fn run_large_over<R: Threads + Sync + AllocGlobal, S: Shelf, O: Sink, E: Sink>(
    rt: &R,
    words: &WordList,
    shelf: &mut S,
    out: &mut O,
    err: &mut E,
) -> u8 {
    cmr_large::run(rt, rt.alloc(), words, shelf, out, err)
}

// The room of standard output.
const OUTPUT_ROOM: usize = 10_000;

/// The run ends with this status, and its printed text begins with these lines.
pub fn ends_so<R: Threads + Sync + Abort + AllocGlobal>(
    rt: &R,
    devices: &mut Devices,
    texts: &str,
    status: u8,
    begins: &str,
) -> Result<(), Fail> {
    let words = words(rt.alloc(), texts)?;
    devices.out = MemorySink::new(rt.alloc(), OUTPUT_ROOM)?;
    assert_eq!(rt; run_on(rt, &words, devices), status, "of {texts}");
    let printed = devices.out.content();
    assert!(rt; printed.starts_with(begins.as_bytes()), "of {texts}");
    Ok(())
}

/// The state after a run, as one text: its status, the texts that the standard streams have got, and the names that it may
/// write with their contents.
pub fn found_text(
    alloc: Global,
    run: &Run<'_>,
    status: u8,
    devices: &Devices,
) -> Result<Vec<u8>, Fail> {
    let mut text = heading(alloc, &format!(in alloc; "{status}")?)?;
    add(&mut text, devices.out.content())?;
    add(&mut text, devices.err.content())?;
    for file in run.after.split("; ") {
        if let Some((name, _)) = file.split_once(": ") {
            add(&mut text, name.as_bytes())?;
            add(&mut text, devices.shelf.content(name).unwrap_or(b""))?;
        }
    }
    Ok(text)
}

/// The text of a status.
pub fn heading(alloc: Global, status: &str) -> Result<Vec<u8>, Fail> {
    let mut text = Vec::new(alloc);
    add(&mut text, status.as_bytes())?;
    Ok(text)
}

/// Adds a part to the text.
pub fn add(text: &mut Vec<u8>, part: &[u8]) -> Result<(), Fail> {
    text.extend_from_slice(part)?;
    text.push(b'|')?;
    Ok(())
}
