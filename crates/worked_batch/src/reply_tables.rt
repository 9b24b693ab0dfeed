// The replies to a table of requests.
use crate::given::{Given, ROOM, all_frames, bytes, devices_of, given_of, pieces, served, words};
use cmr_io::{MemoryShelf, MemorySink, Shelf, Sink};
use cmr_tools::run;
use netstrings::Row;
use std::alloc::{AllocGlobal, Global};
use std::process::Abort;
use std::test::Fail;
use std::thread::Threads;

// The shelf that a run of the request has by itself.
fn shelf_of(alloc: Global, given: &Given<'_>) -> Result<MemoryShelf, Fail> {
    let mut shelf = MemoryShelf::new(alloc)?;
    for name in given.written.split(' ') {
        shelf.prepare(name, ROOM)?;
    }
    for file in given.files.split("; ") {
        if let Some((name, text)) = file.split_once(": ") {
            shelf.hold(name, &bytes(alloc, text)?)?;
        }
    }
    Ok(shelf)
}

// Has no clauses, as in the module of what is given.
fn run_over<R: Threads + Sync + AllocGlobal, S: Shelf, O: Sink, E: Sink>(
    rt: &R,
    texts: &str,
    shelf: &mut S,
    out: &mut O,
    err: &mut E,
) -> Result<u8, Fail> {
    Ok(run(rt, rt.alloc(), &words(rt.alloc(), texts)?, shelf, out, err))
}

// Appends the reply that is due: what a run of the request gives by itself.
fn add_due<R: Threads + Sync + Abort + AllocGlobal>(
    rt: &R,
    replies: &mut Row,
    given: &Given<'_>,
) -> Result<(), Fail> {
    let alloc = rt.alloc();
    let mut shelf = shelf_of(alloc, given)?;
    let mut out = MemorySink::new(alloc, ROOM)?;
    let mut err = MemorySink::new(alloc, ROOM)?;
    let status = run_over(rt, given.words, &mut shelf, &mut out, &mut err)?;
    let mut reply = Row::new(alloc);
    reply.add_number(status)?;
    reply.add(out.content())?;
    reply.add(err.content())?;
    for name in given.written.split(' ') {
        if name != "none" {
            reply.add(name.as_bytes())?;
            reply.add(shelf.content(name).ok_or("a name that was not written")?)?;
        }
    }
    replies.add(reply.bytes())?;
    Ok(())
}

fn are_due<R: Threads + Sync + Abort + AllocGlobal>(rt: &R, most: usize) -> Result<(), Fail> {
    let mut due = Row::new(rt.alloc());
    for row in REQUESTS.split('\n') {
        add_due(rt, &mut due, &given_of(row)?)?;
    }
    let frames = all_frames(rt.alloc(), REQUESTS)?;
    let mut on = devices_of(rt.alloc(), &frames, pieces(most))?;
    assert_eq!(rt; served(rt, &mut on), 0);
    assert_eq!(rt; on.line.out().content(), due.bytes());
    assert!(rt; on.err.content().is_empty());
    Ok(())
}

#[test]
fn each_reply_is_its_run(rt: HostRuntime) -> Result<(), Fail> {
    for most in [1, 2, 7, ROOM] {
        are_due(&rt, most)?;
    }
    Ok(())
}

// Two files with one name, and a file that stays between two requests that name it.
#[test]
fn the_last_file_counts_in_its_request_alone(rt: HostRuntime) -> Result<(), Fail> {
    let rows = "\
camion f | f: 1 1/2/; f: 1 1/1/ | none
camion f | none | none";
    let frames = all_frames(rt.alloc(), rows)?;
    let mut on = devices_of(rt.alloc(), &frames, pieces(ROOM))?;
    assert_eq!(rt; served(&rt, &mut on), 0);
    assert_eq!(rt;
        on.line.out().content(),
        b"23:1:0,12:camion: yes\n,0:,,30:1:4,0:,19:cmr: cannot read f\n,,".as_slice()
    );
    Ok(())
}

const REQUESTS: &str = "\
tu - | -: 0 0/ | none
tu -D t -E e - | -: 2 2/1 1/1 -1/ | t e
tu -w 2 -D t -E e - | -: 2 2/1 0/0 1/ | t
tu --lines 3 f | f: 4 4/1 1 0 0/1 0 1 0/1 0 0 1/1 1 1 1/ | none
regular -D t -M s f | f: 3 3/1 1 0/0 1 1/1 0 1/ | t s
regular -C c f | f: 3 4/1 1 0 1/1 0 1 1/0 1 1 1/ | c
series-parallel -N n -S s -R r f | f: 4 4/0 1 1 0/1 0 0 0/0 0 1 1/0 1 0 1/ | n s r
graphic -G g - | -: 2 3/1 1 0/0 1 1/ | g
network -c f | f: 0 1 r1/2 1 r2/0 2 c1/ | none
check f e | f: 2 2/1 1/1 -1/; e: 2 2 2 2/1 2/1 2/ | none
check f t | f: 2 2/1 1/1 1/; t: cmr-tree 1/2 2/reduced 2 2 1 2 1 2/4 r1 r2 c1 c2/empty 0 0/ | none
compose two f s -M m | f: 2 2/1 1/0 1/; s: 2 2/1 1/1 0/ | m
generate network 3 7 -M m | none | m
tu -x -E e f | none | none
tu -E e f | f: 2 2/1 1/1 -2/ | none
tu -D t nofile | f: 0 0/ | none";
