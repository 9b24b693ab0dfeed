// Graph texts: bad ones with their faults, and good ones with their matrices.
use crate::compared::{are_texts, is_text};
use graph_text::{GraphError, matrix_of, read_graph, write_graph};
use std::alloc::Global;
use std::test::Fail;
use worked_given::{bytes, dense, row_text};

// The kind of the first fault, and its position.
fn graph_fault(alloc: Global, text: &str) -> Result<Vec<u8>, Fail> {
    match read_graph(alloc, &bytes(alloc, text)?) {
        Err(GraphError::Fault { kind, place }) => row_text(
            alloc,
            &format!(in alloc; "{kind:?}")?,
            &[place.min(99_999) as u32],
        ),
        Err(fault) => Err(fault.into()),
        Ok(_) => bytes(alloc, "none/"),
    }
}

#[test]
fn faults_of_graph_texts(rt: HostRuntime) -> Result<(), Fail> {
    are_texts(&rt, FAULTS, graph_fault)
}

// The canonical text of the graph that was read.
fn written(alloc: Global, text: &str) -> Result<Vec<u8>, Fail> {
    let read = read_graph(alloc, &bytes(alloc, text)?)?;
    Ok(write_graph(alloc, &read.net, read.rows, read.columns)?)
}

// The dense text of its matrix.
fn matrix_text(alloc: Global, text: &str, directed: bool) -> Result<Vec<u8>, Fail> {
    let read = read_graph(alloc, &bytes(alloc, text)?)?;
    let matrix = matrix_of(alloc, &read.net, read.rows, read.columns, directed)?;
    dense(alloc, &matrix)
}

#[test]
fn matrices_of_graph_texts(rt: HostRuntime) -> Result<(), Fail> {
    let alloc = rt.alloc();
    for (text, directed, undirected) in [
        ("", "0 0/", "0 0/"),
        ("0 0 c1/", "0 1/", "0 1/"),
        (
            "0 1 r1/1 2 r2/0 2 c1/2 0 c2/",
            "2 2/1 -1/1 -1/",
            "2 2/1 1/1 1/",
        ),
        (
            "0 1 r1/2 1 r2/2 0 c1/1 1 c2/",
            "2 2/-1 0/1 0/",
            "2 2/1 0/1 0/",
        ),
    ] {
        is_text(&rt, &written(alloc, text)?, text)?;
        is_text(&rt, &matrix_text(alloc, text, true)?, directed)?;
        is_text(&rt, &matrix_text(alloc, text, false)?, undirected)?;
    }
    Ok(())
}

// A text that is not a graph, and its first fault. The last three have a loop, two arcs between two nodes, and a cycle and
// an isolated node.
const FAULTS: &str = "\
0 1/; Short 4/
0 x r1/; NotNumber 2/
0 2147483648 r1/; TooBig 2/
0 1 r2/; BadElement 4/
0 1 r01/; BadElement 4/
0 1 r1/0 1 c1/1 2 r2/; BadElement 18/
0 2 r1/; OutOfRange 2/
0 1 c1/; OutOfRange 2/
0 0 r1/; NotTree 7/
0 1 r1/0 1 r2/; NotTree 14/
0 1 r1/1 2 r2/2 0 r3/; NotTree 21/";
