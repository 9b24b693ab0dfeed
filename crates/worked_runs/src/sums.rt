// The two matrices of which a matrix is a sum, and their sum: it is the matrix with its lines in the printed order.
use crate::given::{Devices, bytes, ends_so};
use cmr_io::{MemoryShelf, MemorySink};
use std::alloc::AllocGlobal;
use std::test::Fail;

// The room of each device.
const ROOM: usize = 1000;

// The matrix and its tree are held under the names f and t, and the names a, b and m may be written.
fn devices_with<R: AllocGlobal>(rt: &R, matrix: &str, tree: &str) -> Result<Devices, Fail> {
    let alloc = rt.alloc();
    let mut shelf = MemoryShelf::new(alloc)?;
    shelf.hold("f", &bytes(alloc, matrix)?)?;
    shelf.hold("t", &bytes(alloc, tree)?)?;
    for name in ["a", "b", "m"] {
        shelf.prepare(name, ROOM)?;
    }
    Ok(Devices {
        shelf,
        out: MemorySink::new(alloc, ROOM)?,
        err: MemorySink::new(alloc, ROOM)?,
    })
}

// A matrix, a tree whose root is a sum, the kind for `compose`, what `parts` prints, and the sum of what it writes.
#[test]
fn parts_and_their_sum(rt: HostRuntime) -> Result<(), Fail> {
    let alloc = rt.alloc();
    for row in SUMS.split('\n') {
        let mut parts = row.split(" | ");
        let matrix = parts.next().ok_or("no matrix")?;
        let tree = parts.next().ok_or("no tree")?;
        let kind = parts.next().ok_or("no kind")?;
        let printed = parts.next().ok_or("nothing printed")?;
        let sum = parts.next().ok_or("no sum")?;
        let mut on = devices_with(&rt, matrix, tree)?;
        ends_so(&rt, &mut on, "parts f t -A a -B b", 0, "parts: ")?;
        assert_eq!(rt;
            on.out.content(),
            bytes(alloc, printed)?.as_slice(),
            "of {kind}"
        );
        let compose = format!(in alloc; "compose {kind} a b -M m")?;
        ends_so(&rt, &mut on, compose.as_str(), 0, "composed 4x4 ")?;
        let found = on.shelf.content("m").unwrap_or(b"");
        assert_eq!(rt; found, bytes(alloc, sum)?.as_slice(), "of {kind}");
    }
    Ok(())
}

const SUMS: &str = "\
4 4/1 1 0 0/1 -1 0 0/0 1 1 1/0 1 1 -1/ | cmr-tree 2/4 4/twosum 4 4 1 2 3 4 1 2 3 4/3 2 2 2 1 2 1 2/undecided 3 2 1 2 3 1 2/undecided 2 3 3 4 2 3 4/ | two | parts: twosum/order rows 3 4 1 2 columns 3 4 1 2/ | 4 4/1 1 0 1/1 -1 0 1/0 0 1 1/0 0 1 -1/
4 4/1 0 1 1/0 1 1 1/1 1 1 0/0 0 1 1/ | cmr-tree 2/4 4/delta 4 4 1 2 3 4 1 2 3 4/1 1 2 3 3 4 2 2 1 2 1 2/undecided 3 4 1 2 3 1 2 3 4/undecided 3 4 1 3 4 1 2 3 4/ | delta | parts: delta/order rows 1 2 3 4 columns 1 2 3 4/ | 4 4/1 0 1 1/0 1 1 1/1 1 1 0/0 0 1 1/
4 4/1 1 1 0/0 1 1 0/1 0 1 1/1 0 0 1/ | cmr-tree 2/4 4/y 4 4 1 2 3 4 1 2 3 4/1 1 2 3 3 4 2 2 1 2 1 2/undecided 4 3 1 2 3 4 1 2 3/undecided 4 3 1 2 3 4 1 3 4/ | y | parts: y/order rows 1 2 3 4 columns 1 2 3 4/ | 4 4/1 1 1 0/0 1 1 0/1 0 1 1/1 0 0 1/
4 4/1 0 1 0/1 1 0 0/1 1 1 1/1 1 0 1/ | cmr-tree 2/4 4/mixed 4 4 1 2 3 4 1 2 3 4/1 1 2 3 3 4 2 2 1 2 1 2/undecided 4 3 1 2 3 4 1 2 3/undecided 3 4 1 3 4 1 2 3 4/ | mixed | parts: mixed/order rows 1 2 3 4 columns 1 2 3 4/ | 4 4/1 0 1 0/1 1 0 0/1 1 1 1/1 1 0 1/
4 4/1 1 0 0/1 0 0 0/1 0 1 1/0 1 -1 0/ | cmr-tree 2/4 4/concentrated 4 4 1 2 3 4 1 2 3 4/1 1 2 3 3 4 2 2 1 2 1 2/enumerated 4 3 1 2 3 4 1 2 3/enumerated 3 4 1 3 4 1 2 3 4/ | concentrated | parts: concentrated/order rows 2 1 3 4 columns 1 2 3 4/ | 4 4/1 0 0 0/1 1 0 0/1 0 1 1/0 1 -1 0/";
