// Trees that `tu` writes, with every kind of node: they do not depend on the number of workers, and `check` accepts them.
use crate::given::{Devices, bytes, ends_so};
use cmr_io::{MemoryShelf, MemorySink};
use std::alloc::AllocGlobal;
use std::process::Abort;
use std::test::Fail;
use std::thread::Threads;

// The room of each file.
const ROOM: usize = 100_000;

// The matrix is held under the name m, the name b has another one, and the name t may be written.
fn devices_with<R: AllocGlobal>(rt: &R, matrix: &str) -> Result<Devices, Fail> {
    let alloc = rt.alloc();
    let mut shelf = MemoryShelf::new(alloc)?;
    shelf.prepare("m", ROOM)?;
    shelf.prepare("t", ROOM)?;
    shelf.hold("m", &bytes(alloc, matrix)?)?;
    Ok(Devices {
        shelf,
        out: MemorySink::new(alloc, ROOM)?,
        err: MemorySink::new(alloc, ROOM)?,
    })
}

// The tree that this number of workers finds, whose verdict is yes.
fn tree_of<R: Threads + Sync + Abort + AllocGlobal>(
    rt: &R,
    on: &mut Devices,
    options: &str,
    workers: u32,
) -> Result<Vec<u8>, Fail> {
    let alloc = rt.alloc();
    let tu = format!(in alloc; "tu {options} -w {workers} -D t m")?;
    ends_so(rt, on, tu.as_str(), 0, "totally unimodular: yes\n")?;
    ends_so(rt, on, "check m t", 0, "accepted: yes\n")?;
    Ok(Vec::from_slice(alloc, on.shelf.content("t").unwrap_or(b""))?)
}

fn has(text: &[u8], word: &str) -> bool {
    for place in 0..text.len() {
        if text[place..].starts_with(word.as_bytes()) {
            return true;
        }
    }
    false
}

// The one-sum of matrices, each of which has another kind of tree. With a budget of no lines the last matrix has a tree only
// after a pivot.
#[test]
fn kinds_of_a_yes(rt: HostRuntime) -> Result<(), Fail> {
    let mut on = devices_with(&rt, "0 0/")?;
    for block in BLOCKS.split('\n') {
        on.shelf.hold("b", &bytes(rt.alloc(), block)?)?;
        ends_so(&rt, &mut on, "compose one m b -M m", 0, "composed ")?;
    }
    for (options, kind) in [
        ("--lines 10", "enumerated"),
        ("--lines 0 --pivots 20", "pivoted"),
    ] {
        let alone = tree_of(&rt, &mut on, options, 1)?;
        for workers in [3, 64] {
            assert_eq!(rt;
                tree_of(&rt, &mut on, options, workers)?,
                alone,
                "of {workers}"
            );
        }
        for kind in KINDS {
            assert!(rt; has(&alone, kind), "of {kind}");
        }
        let last = format!(in rt.alloc(); "\n{kind} ")?;
        assert!(rt; has(&alone, last.as_str()), "of {kind}");
    }
    Ok(())
}

// The arguments, the matrix, the status, and the node with a fault or with open lines.
#[test]
fn kinds_of_other_answers(rt: HostRuntime) -> Result<(), Fail> {
    for (words, matrix, status, kind) in [
        ("tu -w 3 -D t m", "2 2/1 1/1 -1/", 1, "\ncycle "),
        (
            "tu -w 3 -D t m",
            "4 4/1 1 0 0/1 0 1 0/1 0 0 1/1 1 1 1/",
            1,
            "\nviolator ",
        ),
        (
            "tu -w 3 --lines 3 -D t m",
            "4 4/1 1 0 0/1 0 1 0/1 0 0 1/1 1 1 1/",
            6,
            "\nundecided ",
        ),
        ("tu -w 3 -D t m", "2 2/1 0/0 1/", 0, "\nempty "),
    ] {
        let mut on = devices_with(&rt, matrix)?;
        ends_so(&rt, &mut on, words, status, "totally unimodular: ")?;
        assert!(rt;
            has(on.shelf.content("t").unwrap_or(b""), kind),
            "of {kind}"
        );
        ends_so(&rt, &mut on, "check m t", status, "accepted: ")?;
    }
    Ok(())
}

const KINDS: [&str; 10] = [
    "\nreduced ",
    "\nonesum ",
    "\nnetwork ",
    "\nconetwork ",
    "\nr10 ",
    "\ntwosum ",
    "\ndelta ",
    "\ny ",
    "\nmixed ",
    "\nconcentrated ",
];

// A single entry, a network, a transposed network, a two-sum of two matrices R10, and a three-sum of each form. The last matrix is
// the matrix of two goods over six connections between three places.
const BLOCKS: &str = "\
1 1/1/
5 6/1 1 1 0 0 0/0 0 0 1 1 1/1 0 0 1 0 0/0 1 0 0 1 0/0 0 1 0 0 1/
9 6/1 0 0 1 0 0/1 0 0 0 1 0/1 0 0 0 0 1/0 1 0 1 0 0/0 1 0 0 1 0/0 1 0 0 0 1/0 0 1 1 0 0/0 0 1 0 1 0/0 0 1 0 0 1/
9 9/1 -1 0 0 -1 1 0 0 1/-1 1 -1 0 0 0 0 0 0/0 -1 1 -1 0 0 0 0 0/0 0 -1 1 -1 1 0 0 1/-1 0 0 -1 1 -1 0 0 -1/0 0 0 0 -1 1 -1 0 0/0 0 0 0 0 -1 1 -1 0/0 0 0 0 0 0 -1 1 -1/0 0 0 0 -1 0 0 -1 1/
7 9/-1 1 -1 1 1 0 0 0 -1/1 -1 1 -1 0 -1 1 1 1/1 -1 1 -1 -1 -1 1 0 1/0 1 -1 1 0 0 0 0 0/0 0 1 -1 0 0 0 0 1/0 -1 0 0 0 -1 0 1 0/1 0 1 0 0 0 0 0 1/
9 9/1 1 0 0 0 0 0 0 -1/1 0 0 0 0 -1 1 0 0/-1 0 0 0 0 0 -1 0 1/0 0 0 0 -1 0 0 1 0/1 1 0 0 0 -1 0 0 0/1 1 -1 1 0 0 0 -1 -1/-1 -1 1 0 1 0 0 0 1/-1 -1 0 0 1 0 0 0 1/1 1 0 1 0 0 0 0 0/
7 7/1 1 1 0 1 1 0/0 0 0 -1 1 1 0/1 0 1 1 0 0 0/0 0 0 0 1 0 1/0 1 1 0 1 0 0/0 1 1 0 1 0 1/0 0 0 0 0 -1 1/
7 8/-1 -1 -1 0 0 0 0 0/0 0 0 -1 -1 -1 -1 0/0 0 0 1 0 1 0 -1/1 0 0 1 0 0 0 0/0 1 0 0 1 0 0 0/0 0 1 0 0 0 1 0/1 0 0 0 0 0 0 1/
10 12/-1 -1 0 -1 -1 0 0 0 0 0 0 0/1 0 -1 1 0 -1 0 0 0 0 0 0/0 0 0 0 0 0 -1 -1 0 -1 -1 0/0 0 0 0 0 0 1 0 -1 1 0 -1/1 0 0 0 0 0 1 0 0 0 0 0/0 1 0 0 0 0 0 1 0 0 0 0/0 0 1 0 0 0 0 0 1 0 0 0/0 0 0 1 0 0 0 0 0 1 0 0/0 0 0 0 1 0 0 0 0 0 1 0/0 0 0 0 0 1 0 0 0 0 0 1/";
