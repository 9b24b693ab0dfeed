// The devices of a request.
use cmr_io::{Shelf, Sink, read_whole, write_file};
use frames::{GivenFile, GrowingSink, RequestShelf};
use std::test::Fail;

fn given() -> [GivenFile<'static>; 3] {
    [
        GivenFile {
            name: "f",
            bytes: b"first",
        },
        GivenFile {
            name: "g",
            bytes: b"other",
        },
        GivenFile {
            name: "f",
            bytes: b"last",
        },
    ]
}

#[test]
fn the_last_file_with_a_name_counts(rt: HostRuntime) -> Result<(), Fail> {
    let given = given();
    let mut shelf = RequestShelf::new(rt.alloc(), &given);
    let bytes = read_whole(rt.alloc(), &mut shelf, "f", 100)?;
    assert_eq!(rt; bytes.as_slice(), b"last".as_slice());
    Ok(())
}

#[test]
fn a_name_that_does_not_exist_fails(rt: HostRuntime) -> Result<(), Fail> {
    let given = given();
    let mut shelf = RequestShelf::new(rt.alloc(), &given);
    assert!(rt; shelf.begin_read("h").is_err());
    assert!(rt; !shelf.is_short());
    Ok(())
}

#[test]
fn written_files_are_kept_in_order_and_read(rt: HostRuntime) -> Result<(), Fail> {
    let given = given();
    let mut shelf = RequestShelf::new(rt.alloc(), &given);
    write_file(&mut shelf, "h", b"one")?;
    write_file(&mut shelf, "f", b"two")?;
    let bytes = read_whole(rt.alloc(), &mut shelf, "f", 100)?;
    assert_eq!(rt; bytes.as_slice(), b"two".as_slice());
    let written = shelf.written();
    assert_eq!(rt; written.len(), 2);
    assert_eq!(rt; written[0].name(), "h");
    assert_eq!(rt; written[0].bytes(), b"one".as_slice());
    Ok(())
}

#[test]
fn a_sink_grows(rt: HostRuntime) -> Result<(), Fail> {
    let mut sink = GrowingSink::new(rt.alloc());
    assert_eq!(rt; sink.put(b"abc"), Ok(3));
    assert_eq!(rt; sink.put(b""), Ok(0));
    assert_eq!(rt; sink.content(), b"abc".as_slice());
    assert!(rt; !sink.is_short());
    Ok(())
}
