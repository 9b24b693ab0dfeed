// Tools that are called with options instead of arguments.
use crate::given::bytes;
use cmr_io::{MemoryShelf, MemorySink, Shelf, Sink};
use cmr_tools::{MatrixForm, PropertyTest, TestOptions, TestedProperty, Tool};
use std::alloc::AllocGlobal;
use std::process::Abort;
use std::test::Fail;
use std::thread::Threads;

const OPTIONS: TestOptions<'static> = TestOptions {
    form: MatrixForm::Dense,
    transposed: false,
    minimal: None,
    graph: None,
    from_graph: false,
    file: "f",
};

// Has no clauses, so that the tests depend only on what they see of the calls.
fn tested<R: Threads + Sync + AllocGlobal, S: Shelf, O: Sink, E: Sink>(
    rt: &R,
    asks_for_graphs: bool,
    shelf: &mut S,
    out: &mut O,
    err: &mut E,
) -> u8 {
    let test = PropertyTest {
        property: if asks_for_graphs {
            TestedProperty::Graphic
        } else {
            TestedProperty::Network
        },
        options: OPTIONS,
    };
    test.run(rt, rt.alloc(), shelf, out, err)
}

fn answers<R: Threads + Sync + Abort + AllocGlobal>(
    rt: &R,
    asks_for_graphs: bool,
    matrix: &str,
    status: u8,
    printed: &str,
) -> Result<(), Fail> {
    let alloc = rt.alloc();
    let mut shelf = MemoryShelf::new(alloc)?;
    shelf.hold("f", &bytes(alloc, matrix)?)?;
    let mut out = MemorySink::new(alloc, 100)?;
    let mut err = MemorySink::new(alloc, 100)?;
    let found = tested(rt, asks_for_graphs, &mut shelf, &mut out, &mut err);
    assert_eq!(rt; found, status, "of {matrix}");
    assert_eq!(rt;
        out.content(),
        bytes(alloc, printed)?.as_slice(),
        "of {matrix}"
    );
    Ok(())
}

#[test]
fn graphic_and_network(rt: HostRuntime) -> Result<(), Fail> {
    let triangle = "3 3/1 1 0/0 1 1/1 0 1/";
    let dual = "6 4/1 1 0 0/1 0 1 0/1 0 0 1/0 1 1 0/0 1 0 1/0 0 1 1/";
    answers(&rt, true, triangle, 0, "graphic: yes/")?;
    answers(&rt, true, dual, 1, "graphic: no/")?;
    answers(&rt, false, triangle, 1, "network: no/")?;
    answers(&rt, false, "3 3/1 1 0/0 1 1/1 0 -1/", 0, "network: yes/")
}
