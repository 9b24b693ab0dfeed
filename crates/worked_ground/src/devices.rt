// Devices in memory and those of the system.
use crate::compared::{is, is_text};
use cmr_io::{
    MemoryShelf, MemorySink, ReadError, RealShelf, Sink, StdSink, read_whole, write_file,
    write_whole,
};
use std::alloc::Global;
use std::io::{ErrorKind, Write};
use std::process::Abort;
use std::test::Fail;
use std::{env, fs, io, process};
use worked_given::{bytes, row_text};

// The bytes that were read, or their number if there are many.
fn read_text(alloc: Global, read: Result<Vec<u8>, ReadError>) -> Result<Vec<u8>, Fail> {
    match read {
        Ok(found) if found.len() > 10 => {
            row_text(alloc, "bytes", &[found.len().min(999_999) as u32])
        }
        Ok(found) => Ok(found),
        Err(ReadError::TooLong) => bytes(alloc, "too long/"),
        Err(ReadError::ReadFault) => bytes(alloc, "fault/"),
        Err(ReadError::Memory) => bytes(alloc, "memory/"),
    }
}

fn shelf(alloc: Global) -> Result<MemoryShelf, Fail> {
    let mut shelf = MemoryShelf::new(alloc)?;
    shelf.hold("five", b"12345")?;
    shelf.hold("empty", b"")?;
    shelf.prepare("prepared", 5)?;
    Ok(shelf)
}

fn shelf_with_long(alloc: Global) -> Result<MemoryShelf, Fail> {
    let mut shelf = shelf(alloc)?;
    shelf.hold("long", &vec![in alloc; 7u8; 200_000]?)?;
    Ok(shelf)
}

fn read_of<R: Abort + AllocGlobal>(rt: &R, name: &str, most: usize) -> Result<Vec<u8>, Fail> {
    assert!(rt; most <= 200_000);
    let mut shelf = shelf_with_long(rt.alloc())?;
    read_text(rt.alloc(), read_whole(rt.alloc(), &mut shelf, name, most))
}

#[test]
fn reads(rt: HostRuntime) -> Result<(), Fail> {
    for (name, most, expected) in [
        ("five", 5, "12345"),
        ("long", 200_000, "bytes 200000/"),
        ("empty", 0, ""),
        ("five", 4, "too long/"),
        ("long", 65_536, "too long/"),
        ("prepared", 5, "fault/"),
        ("missing", 5, "fault/"),
    ] {
        is_text(&rt, &read_of(&rt, name, most)?, expected)?;
    }
    Ok(())
}

fn five_of(alloc: Global, shelf: &mut MemoryShelf) -> Result<Vec<u8>, Fail> {
    read_text(alloc, read_whole(alloc, shelf, "five", 5))
}

// The second call on a shelf fails, and no other.
#[test]
fn one_read_fails(rt: HostRuntime) -> Result<(), Fail> {
    let mut shelf = shelf(rt.alloc())?;
    shelf.fail_at(2)?;
    is_text(&rt, &five_of(rt.alloc(), &mut shelf)?, "fault/")?;
    is_text(&rt, &five_of(rt.alloc(), &mut shelf)?, "12345")
}

fn is_written(sink: &mut MemorySink, bytes: &[u8]) -> bool {
    write_whole(sink, bytes).is_ok()
}

#[test]
fn one_write_fails(rt: HostRuntime) -> Result<(), Fail> {
    let mut sink = MemorySink::new(rt.alloc(), 10)?;
    sink.fail_at(2)?;
    is(&rt, is_written(&mut sink, b"cmr"), true);
    is(&rt, is_written(&mut sink, b"cmr"), false);
    is(&rt, is_written(&mut sink, b"cmr"), true);
    is_text(&rt, sink.content(), "cmrcmr")
}

#[test]
fn full_sinks(rt: HostRuntime) -> Result<(), Fail> {
    let mut sink = MemorySink::new(rt.alloc(), 5)?;
    is(&rt, is_written(&mut sink, b"cmr"), true);
    is(&rt, is_written(&mut sink, b"-tree"), false);
    is_text(&rt, sink.content(), "cmr-t")
}

// Whether the bytes are written to a name, and its content after that.
fn written(
    alloc: Global,
    shelf: &mut MemoryShelf,
    name: &str,
    content: &[u8],
) -> Result<Vec<u8>, Fail> {
    let word = if write_file(shelf, name, content).is_ok() {
        "written"
    } else {
        "fault"
    };
    let mut text = row_text(alloc, word, &[])?;
    match shelf.content(name) {
        Some(held) => text.extend_from_slice(held)?,
        None => text.extend_from_slice(b"none")?,
    }
    Ok(text)
}

// The name has room for five bytes.
#[test]
fn full_shelves(rt: HostRuntime) -> Result<(), Fail> {
    let alloc = rt.alloc();
    let mut shelf = shelf(alloc)?;
    is_text(
        &rt,
        &written(alloc, &mut shelf, "prepared", b"cmr-tree")?,
        "fault/cmr-t",
    )?;
    is_text(
        &rt,
        &written(alloc, &mut shelf, "prepared", b"after")?,
        "written/after",
    )?;
    is_text(
        &rt,
        &written(alloc, &mut shelf, "other", b"")?,
        "fault/none",
    )
}

/// A writer that is interrupted, takes two bytes, and then takes none.
#[derive(Drop)]
struct Moody {
    calls: u8,
}

impl Write for Moody {
    fn write(&mut self, buf: &[u8]) -> io::Result<usize> {
        self.calls = self.calls.saturating_add(1);
        match self.calls {
            1 => Err(io::Error::from(ErrorKind::Interrupted)),
            2 => Ok(buf.len().min(2)),
            _ => Ok(0),
        }
    }

    fn flush(&mut self) -> io::Result<()> {
        Ok(())
    }
}

#[test]
fn an_interrupted_write_is_tried_again(rt: HostRuntime) {
    let mut sink = StdSink::new(Moody { calls: 0 });
    is(&rt, sink.put(b"abc").ok() == Some(2), true);
    is(&rt, sink.put(b"c").is_ok(), false);
}

#[test]
fn a_file_is_written_and_read(rt: HostRuntime) -> Result<(), Fail> {
    let alloc = rt.alloc();
    let name = format!(in alloc; "worked_ground_{}", process::id(rt.process()))?;
    let path = env::temp_dir(&rt)?.join(alloc, name.as_str())?;
    let mut shelf = RealShelf::new(&rt);
    let missing = read_text(alloc, read_whole(alloc, &mut shelf, path.as_str(), 9))?;
    let long = write_file(&mut shelf, path.as_str(), b"1 2\n3 4\n").is_ok();
    let short = write_file(&mut shelf, path.as_str(), b"1 2\n").is_ok();
    let written = read_whole(alloc, &mut shelf, path.as_str(), 9);
    fs::remove_file(&rt, path.as_path())?;
    is(&rt, long && short, true);
    is_text(&rt, &missing, "fault/")?;
    is_text(&rt, &read_text(alloc, written)?, "1 2/")
}
