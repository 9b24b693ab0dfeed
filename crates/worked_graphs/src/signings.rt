// Signings of sets of rows: each row gets +1 or -1, and every column sum is -1, 0 or 1.
use crate::compared::is_text;
use cmr_base::{Matrix, Memory};
use ghouila::{Pivot, SigningOrViolator, plain_signing, sign_or_violate};
use sign_tool::{SetSigning, sign_set};
use std::alloc::Global;
use std::process::Abort;
use std::test::Fail;
use text_fields::Writer;
use worked_given::{bytes, indices, lines_text, matrix};

// A line with the signs.
fn signs_text(alloc: Global, signs: &[i8]) -> Result<Vec<u8>, Fail> {
    let mut text = Vec::new(alloc);
    for sign in signs {
        text.push(if *sign < 0 { b'-' } else { b'+' })?;
    }
    text.push(b'\n')?;
    Ok(text)
}

// The first signing in the order of the signs.
fn first(alloc: Global, matrix: &Matrix, rows: &[u32]) -> Result<Vec<u8>, Fail> {
    let rows = indices(alloc, matrix.rows(), rows)?;
    if rows.len() > 24 {
        return bytes(alloc, "too many/");
    }
    match plain_signing(alloc, matrix, &rows)? {
        Some(signs) => signs_text(alloc, signs.as_slice()),
        None => bytes(alloc, "none/"),
    }
}

// The result of the run of pivots: signs or a violator.
fn end(alloc: Global, matrix: &Matrix, rows: &[u32]) -> Result<Vec<u8>, Fail> {
    let rows = indices(alloc, matrix.rows(), rows)?;
    match sign_or_violate(alloc, matrix, &rows)? {
        SigningOrViolator::Signed(signs) => signs_text(alloc, signs.as_slice()),
        SigningOrViolator::Violated(lines) => lines_text(alloc, &lines),
    }
}

fn write_pivot(text: &mut Writer, pivot: Pivot) -> Result<(), Memory> {
    text.number(pivot.row)?;
    match pivot.column {
        Some(column) => text.number(column)?,
        None => text.word(b"aside".as_slice())?,
    }
    text.end_line()
}

fn pivots_text(alloc: Global, pivots: &[Pivot]) -> Result<Vec<u8>, Fail> {
    let mut text = Writer::new(alloc);
    for pivot in pivots {
        write_pivot(&mut text, *pivot)?;
    }
    Ok(text.into_bytes())
}

// The steps that removed each row, or a violator.
fn steps(alloc: Global, matrix: &Matrix, rows: &[u32]) -> Result<Vec<u8>, Fail> {
    let rows = indices(alloc, matrix.rows(), rows)?;
    match sign_set(alloc, matrix, &rows)? {
        SetSigning::Signed { signs: _, steps } => pivots_text(alloc, steps.as_slice()),
        SetSigning::Violated(lines) => lines_text(alloc, &lines),
    }
}

// Stops the test if the rows, at most four, have other signs or steps.
fn have_signs<R: Abort + AllocGlobal>(
    rt: &R,
    matrix: &Matrix,
    plain: &str,
    signs: &str,
    pivots: &str,
) -> Result<(), Fail> {
    is_text(rt, &first(rt.alloc(), matrix, &[0, 1, 2, 3])?, plain)?;
    is_text(rt, &end(rt.alloc(), matrix, &[0, 1, 2, 3])?, signs)?;
    is_text(rt, &steps(rt.alloc(), matrix, &[0, 1, 2, 3])?, pivots)
}

#[test]
fn signs_of_rows(rt: HostRuntime) -> Result<(), Fail> {
    for (text, plain, signs, pivots) in [
        ("2 2/1 1/0 1/", "-+/", "-+/", "0 1/1 aside/"),
        (
            "3 3/1 1 0/0 1 1/1 0 -1/",
            "-++/",
            "-++/",
            "0 0/1 1/2 aside/",
        ),
        (
            "3 3/1 1 0/0 1 1/1 0 1/",
            "none/",
            "0 1 2/0 1 2/",
            "0 1 2/0 1 2/",
        ),
        ("2 2/1 1/1 -1/", "none/", "0 1/0 1/", "0 1/0 1/"),
        // The only violator has all lines.
        (
            "4 4/1 1 0 0/1 0 1 0/1 0 0 1/1 1 1 1/",
            "none/",
            "0 1 2 3/0 1 2 3/",
            "0 1 2 3/0 1 2 3/",
        ),
        ("0 2/", "/", "/", ""),
    ] {
        let matrix = matrix(rt.alloc(), text)?;
        have_signs(&rt, &matrix, plain, signs, pivots)?;
    }
    Ok(())
}

// Of a set of rows that has a signing. All rows together have none.
#[test]
fn signs_of_some_rows(rt: HostRuntime) -> Result<(), Fail> {
    let square = matrix(rt.alloc(), "2 2/1 1/1 -1/")?;
    is_text(&rt, &first(rt.alloc(), &square, &[1])?, "+/")?;
    is_text(&rt, &end(rt.alloc(), &square, &[])?, "/")
}
