// How serving ends: inputs that are cut or have a fault, and devices that fail.
use crate::given::{Devices, Manner, ROOM, devices_of, pieces, served};
use std::alloc::{AllocGlobal, Global};
use std::process::Abort;
use std::test::Fail;
use std::thread::Threads;

// A request whose words are refused, and its reply.
const FRAME: &[u8] = b"9:6:3:abc,,,";

const REPLY: &[u8] = b"33:1:2,0:,22:cmr: bad command line\n,,";

fn frames(alloc: Global, count: usize) -> Result<Vec<u8>, Fail> {
    let mut frames = Vec::new(alloc);
    for _ in 0..count {
        frames.extend_from_slice(FRAME)?;
    }
    Ok(frames)
}

fn replies(alloc: Global, count: usize) -> Result<Vec<u8>, Fail> {
    let mut replies = Vec::new(alloc);
    for _ in 0..count {
        replies.extend_from_slice(REPLY)?;
    }
    Ok(replies)
}

fn ends_so<R: Threads + Sync + Abort + AllocGlobal>(
    rt: &R,
    on: &mut Devices,
    status: u8,
    count: usize,
    line: &[u8],
) -> Result<(), Fail> {
    assert_eq!(rt; served(rt, on), status);
    assert_eq!(rt;
        on.line.out().content(),
        replies(rt.alloc(), count)?.as_slice()
    );
    assert_eq!(rt; on.err.content(), line);
    Ok(())
}

#[test]
fn a_cut_ends_after_the_whole_frames(rt: HostRuntime) -> Result<(), Fail> {
    let frames = frames(rt.alloc(), 2)?;
    for count in 0..=frames.len() {
        let mut on = devices_of(rt.alloc(), &frames[..count], pieces(5))?;
        let whole = count / FRAME.len();
        if count % FRAME.len() == 0 {
            ends_so(&rt, &mut on, 0, whole, b"")?;
        } else {
            ends_so(&rt, &mut on, 3, whole, b"cmr-batch: no request\n")?;
        }
    }
    Ok(())
}

#[test]
fn a_fault_ends_after_the_replies_before_it(rt: HostRuntime) -> Result<(), Fail> {
    for fault in FAULTS {
        let mut frames = frames(rt.alloc(), 2)?;
        frames.extend_from_slice(fault)?;
        frames.extend_from_slice(FRAME)?;
        let mut on = devices_of(rt.alloc(), &frames, pieces(ROOM))?;
        ends_so(&rt, &mut on, 3, 2, b"cmr-batch: no request\n")?;
    }
    Ok(())
}

// Texts that begin with no netstring, and frames of no request: without words, with a name and no bytes, with a word that is not UTF-8.
const FAULTS: [&[u8]; 6] = [
    b"09:6:3:abc,,,",
    b"9:6:3:abc,,;",
    b"x",
    b"0:,",
    b"7:0:,1:f,,",
    b"7:4:1:\xff,,,",
];

// The call that begins the read is the first.
#[test]
fn a_read_that_fails_ends_after_the_replies_before_it(rt: HostRuntime) -> Result<(), Fail> {
    let frames = frames(rt.alloc(), 2)?;
    for call in 0..=frames.len() {
        let mut manner = pieces(1);
        manner.failing_read = Some((call as u64).saturating_add(1));
        let mut on = devices_of(rt.alloc(), &frames, manner)?;
        let given = call.saturating_sub(1);
        ends_so(
            &rt,
            &mut on,
            4,
            given / FRAME.len(),
            b"cmr-batch: cannot read -\n",
        )?;
    }
    Ok(())
}

#[test]
fn a_write_that_fails_ends_it(rt: HostRuntime) -> Result<(), Fail> {
    let frames = frames(rt.alloc(), 2)?;
    let all = replies(rt.alloc(), 2)?;
    for call in 0..all.len() {
        let mut manner = pieces(1);
        manner.failing_write = Some((call as u64).saturating_add(1));
        let mut on = devices_of(rt.alloc(), &frames, manner)?;
        assert_eq!(rt; served(&rt, &mut on), 4);
        assert_eq!(rt; on.line.out().content(), &all[..call]);
        assert_eq!(rt; on.err.content(), b"cmr-batch: cannot write -\n".as_slice());
    }
    Ok(())
}

// The line of standard error is cut, and the status is the same.
#[test]
fn a_line_that_fails_changes_no_status(rt: HostRuntime) -> Result<(), Fail> {
    let mut manner: Manner = pieces(1);
    manner.failing_line = Some(4);
    let mut on = devices_of(rt.alloc(), b"x", manner)?;
    ends_so(&rt, &mut on, 3, 0, b"cmr")
}
