// Violators: submatrices whose row sums and column sums are even and whose sum is 2 modulo 4.
use crate::compared::{is, is_text};
use parity::{first_column_set, is_violator};
use std::alloc::Global;
use std::test::Fail;
use worked_given::{Lines, bytes, indices, line_set, matrix, row_text};

fn violates(alloc: Global, text: &str, lines: Lines<'_>) -> Result<bool, Fail> {
    let matrix = matrix(alloc, text)?;
    let lines = line_set(alloc, matrix.rows(), matrix.columns(), lines)?;
    Ok(is_violator(&matrix, &lines))
}

#[test]
fn violators(rt: HostRuntime) -> Result<(), Fail> {
    for (text, expected) in [
        ("2 2/1 1/1 -1/", true),
        ("3 3/1 1 0/0 1 1/1 0 1/", true),
        ("3 3/1 1 0/0 1 1/1 0 -1/", false),
        ("4 4/1 1 0 0/1 0 1 0/1 0 0 1/1 1 1 1/", true),
        // A column sum, and then a row sum, that is odd.
        ("2 2/1 1/0 0/", false),
        ("2 2/1 0/1 0/", false),
    ] {
        let found = violates(rt.alloc(), text, (&[0, 1, 2, 3], &[0, 1, 2, 3]))?;
        is(&rt, found, expected);
    }
    let fano = "3 4/1 1 0 1/1 0 1 1/0 1 -1 1/";
    is(&rt, violates(rt.alloc(), fano, (&[1, 2], &[2, 3]))?, true);
    Ok(())
}

fn column_set(alloc: Global, text: &str, rows: &[u32]) -> Result<Vec<u8>, Fail> {
    let matrix = matrix(alloc, text)?;
    let rows = indices(alloc, matrix.rows(), rows)?;
    match first_column_set(alloc, &matrix, &rows)? {
        Some(found) => row_text(alloc, "columns", found.as_slice()),
        None => bytes(alloc, "none/"),
    }
}

#[test]
fn column_sets(rt: HostRuntime) -> Result<(), Fail> {
    let alloc = rt.alloc();
    let square = "2 2/1 1/1 -1/";
    is_text(&rt, &column_set(alloc, square, &[0, 1])?, "columns 0 1/")?;
    is_text(&rt, &column_set(alloc, square, &[0])?, "none/")?;
    // Columns 3 and 4 are also a violator, as are columns 1, 2 and 4.
    let wide = "2 4/1 0 1 1/1 0 1 -1/";
    is_text(&rt, &column_set(alloc, wide, &[0, 1])?, "columns 0 3/")
}
