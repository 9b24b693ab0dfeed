// Pivots at nonzeros of small matrices, and violators mapped back through them.
use crate::compared::is_text;
use cmr_base::Matrix;
use pivots::{Pivoted, pivot, violator_before};
use std::alloc::Global;
use std::test::Fail;
use worked_given::{bytes, dense, line_set, lines_text, matrix};

// The matrix after the pivot, or the violator.
fn after(alloc: Global, matrix: &Matrix, row: u32, column: u32) -> Result<Vec<u8>, Fail> {
    if row < matrix.rows() && column < matrix.columns() {
        if matrix.entry(row, column) != 0 {
            return match pivot(alloc, matrix, row, column)? {
                Pivoted::Ternary(after) => dense(alloc, &after),
                Pivoted::Violated(lines) => lines_text(alloc, &lines),
            };
        }
    }
    bytes(alloc, "none/")
}

// The lines before the pivot at the first position.
fn before(alloc: Global, matrix: &Matrix, lines: &[u32]) -> Result<Vec<u8>, Fail> {
    if matrix.rows() > 0 && matrix.columns() > 0 {
        if matrix.entry(0, 0) != 0 {
            let lines = line_set(alloc, matrix.rows(), matrix.columns(), (lines, lines))?;
            return lines_text(alloc, &violator_before(alloc, matrix, 0, 0, &lines)?);
        }
    }
    bytes(alloc, "none/")
}

fn before_in(alloc: Global, text: &str, lines: &[u32]) -> Result<Vec<u8>, Fail> {
    before(alloc, &matrix(alloc, text)?, lines)
}

#[test]
fn violators_before(rt: HostRuntime) -> Result<(), Fail> {
    let alloc = rt.alloc();
    let grown = before_in(alloc, "3 3/1 1 0/0 1 1/1 0 1/", &[1, 2])?;
    is_text(&rt, &grown, "0 1 2/0 1 2/")?;
    let shrunk = before_in(alloc, "3 3/1 1 0/0 1 1/-1 -1 1/", &[0, 1, 2])?;
    is_text(&rt, &shrunk, "1 2/1 2/")?;
    let square = before_in(alloc, "2 2/1 1/1 -1/", &[1])?;
    is_text(&rt, &square, "0 1/0 1/")
}

#[test]
fn matrices_after(rt: HostRuntime) -> Result<(), Fail> {
    for (text, row, column, expected) in [
        ("2 2/1 1/1 0/", 0, 0, "2 2/1 1/-1 -1/"),
        ("2 2/1 1/1 0/", 0, 1, "2 2/1 1/1 0/"),
        ("2 2/1 1/1 0/", 1, 1, "none/"),
        ("2 2/-1 1/1 1/", 0, 0, "0 1/0 1/"),
        ("3 3/1 1 0/0 1 1/1 0 1/", 0, 0, "3 3/1 1 0/0 1 1/-1 -1 1/"),
        ("3 3/1 1 0/0 1 1/-1 -1 1/", 0, 0, "3 3/1 1 0/0 1 1/1 0 1/"),
        ("3 3/1 1 0/0 1 1/-1 -1 1/", 1, 1, "1 2/1 2/"),
    ] {
        let given = matrix(rt.alloc(), text)?;
        is_text(&rt, &after(rt.alloc(), &given, row, column)?, expected)?;
    }
    Ok(())
}
