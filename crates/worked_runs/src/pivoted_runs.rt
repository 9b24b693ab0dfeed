// Runs that decide only if they make pivots. `check` reads what they write.
use crate::given::{Devices, ends_so};
use cmr_io::{MemoryShelf, MemorySink};
use std::alloc::AllocGlobal;
use std::test::Fail;

// The room of each device.
const ROOM: usize = 10_000;

// The matrix is held under the name f, and the names t and e may be written.
fn devices_with<R: AllocGlobal>(rt: &R, matrix: &str) -> Result<Devices, Fail> {
    let alloc = rt.alloc();
    let mut shelf = MemoryShelf::new(alloc)?;
    shelf.hold("f", matrix.as_bytes())?;
    shelf.prepare("t", ROOM)?;
    shelf.prepare("e", ROOM)?;
    Ok(Devices {
        shelf,
        out: MemorySink::new(alloc, ROOM)?,
        err: MemorySink::new(alloc, ROOM)?,
    })
}

#[test]
fn a_yes_after_pivots(rt: HostRuntime) -> Result<(), Fail> {
    let mut on = devices_with(&rt, TWO_GOODS)?;
    ends_so(
        &rt,
        &mut on,
        "tu --lines 0 f",
        6,
        "totally unimodular: undecided\n",
    )?;
    ends_so(
        &rt,
        &mut on,
        "tu --lines 0 --pivots 20 -D t f",
        0,
        "totally unimodular: yes\n0 pivoted 10x12 row ",
    )?;
    ends_so(&rt, &mut on, "check f t", 0, "accepted: yes\n")
}

#[test]
fn a_no_after_pivots(rt: HostRuntime) -> Result<(), Fail> {
    let mut on = devices_with(&rt, LATIN_SQUARES)?;
    ends_so(&rt, &mut on, "tu f", 6, "totally unimodular: undecided\n")?;
    ends_so(
        &rt,
        &mut on,
        "tu --pivots 20 -E e f",
        1,
        "totally unimodular: no\nviolator rows ",
    )?;
    ends_so(&rt, &mut on, "check f e", 1, "accepted: no\nviolator rows ")
}

// Two goods over six connections between three places: for each good the balance of two places, and for each connection what
// both carry together.
const TWO_GOODS: &str = "\
10 12
-1 -1 0 -1 -1 0 0 0 0 0 0 0
1 0 -1 1 0 -1 0 0 0 0 0 0
0 0 0 0 0 0 -1 -1 0 -1 -1 0
0 0 0 0 0 0 1 0 -1 1 0 -1
1 0 0 0 0 0 1 0 0 0 0 0
0 1 0 0 0 0 0 1 0 0 0 0
0 0 1 0 0 0 0 0 1 0 0 0
0 0 0 1 0 0 0 0 0 1 0 0
0 0 0 0 1 0 0 0 0 0 1 0
0 0 0 0 0 1 0 0 0 0 0 1
";

// The conditions of a Latin square of order 3, with a column for each row, column and symbol: for each row and column there is
// one symbol, for each row and symbol one column, and for each column and symbol one row.
const LATIN_SQUARES: &str = "\
27 27
1 1 1 0 0 0 0 0 0 0 0 0 0 0 0 0 0 0 0 0 0 0 0 0 0 0 0
0 0 0 1 1 1 0 0 0 0 0 0 0 0 0 0 0 0 0 0 0 0 0 0 0 0 0
0 0 0 0 0 0 1 1 1 0 0 0 0 0 0 0 0 0 0 0 0 0 0 0 0 0 0
0 0 0 0 0 0 0 0 0 1 1 1 0 0 0 0 0 0 0 0 0 0 0 0 0 0 0
0 0 0 0 0 0 0 0 0 0 0 0 1 1 1 0 0 0 0 0 0 0 0 0 0 0 0
0 0 0 0 0 0 0 0 0 0 0 0 0 0 0 1 1 1 0 0 0 0 0 0 0 0 0
0 0 0 0 0 0 0 0 0 0 0 0 0 0 0 0 0 0 1 1 1 0 0 0 0 0 0
0 0 0 0 0 0 0 0 0 0 0 0 0 0 0 0 0 0 0 0 0 1 1 1 0 0 0
0 0 0 0 0 0 0 0 0 0 0 0 0 0 0 0 0 0 0 0 0 0 0 0 1 1 1
1 0 0 1 0 0 1 0 0 0 0 0 0 0 0 0 0 0 0 0 0 0 0 0 0 0 0
0 1 0 0 1 0 0 1 0 0 0 0 0 0 0 0 0 0 0 0 0 0 0 0 0 0 0
0 0 1 0 0 1 0 0 1 0 0 0 0 0 0 0 0 0 0 0 0 0 0 0 0 0 0
0 0 0 0 0 0 0 0 0 1 0 0 1 0 0 1 0 0 0 0 0 0 0 0 0 0 0
0 0 0 0 0 0 0 0 0 0 1 0 0 1 0 0 1 0 0 0 0 0 0 0 0 0 0
0 0 0 0 0 0 0 0 0 0 0 1 0 0 1 0 0 1 0 0 0 0 0 0 0 0 0
0 0 0 0 0 0 0 0 0 0 0 0 0 0 0 0 0 0 1 0 0 1 0 0 1 0 0
0 0 0 0 0 0 0 0 0 0 0 0 0 0 0 0 0 0 0 1 0 0 1 0 0 1 0
0 0 0 0 0 0 0 0 0 0 0 0 0 0 0 0 0 0 0 0 1 0 0 1 0 0 1
1 0 0 0 0 0 0 0 0 1 0 0 0 0 0 0 0 0 1 0 0 0 0 0 0 0 0
0 1 0 0 0 0 0 0 0 0 1 0 0 0 0 0 0 0 0 1 0 0 0 0 0 0 0
0 0 1 0 0 0 0 0 0 0 0 1 0 0 0 0 0 0 0 0 1 0 0 0 0 0 0
0 0 0 1 0 0 0 0 0 0 0 0 1 0 0 0 0 0 0 0 0 1 0 0 0 0 0
0 0 0 0 1 0 0 0 0 0 0 0 0 1 0 0 0 0 0 0 0 0 1 0 0 0 0
0 0 0 0 0 1 0 0 0 0 0 0 0 0 1 0 0 0 0 0 0 0 0 1 0 0 0
0 0 0 0 0 0 1 0 0 0 0 0 0 0 0 1 0 0 0 0 0 0 0 0 1 0 0
0 0 0 0 0 0 0 1 0 0 0 0 0 0 0 0 1 0 0 0 0 0 0 0 0 1 0
0 0 0 0 0 0 0 0 1 0 0 0 0 0 0 0 0 1 0 0 0 0 0 0 0 0 1
";
