// Sums of two matrices.
use crate::compared::is_text;
use cmr_base::Matrix;
use std::alloc::Global;
use std::process::Abort;
use std::test::Fail;
use sum_ops::{SumError, concentrated_sum, delta_sum, mixed_sum, one_sum, two_sum, y_sum};
use worked_given::{bytes, dense, matrix};

#[derive(Clone, Copy)]
enum Sum {
    One,
    Two,
    Delta,
    Y,
    Mixed,
    Concentrated,
}

fn sum_of<R: Abort + AllocGlobal>(
    rt: &R,
    sum: Sum,
    first: &Matrix,
    second: &Matrix,
) -> Result<Matrix, SumError> {
    let alloc = rt.alloc();
    assert!(rt; first.rows() + second.rows() <= 1000);
    assert!(rt; first.columns() + second.columns() <= 1000);
    match sum {
        Sum::One => Ok(one_sum(alloc, first, second)?),
        Sum::Two => two_sum(alloc, first, second),
        Sum::Delta => delta_sum(alloc, first, second),
        Sum::Y => y_sum(alloc, first, second),
        Sum::Mixed => mixed_sum(alloc, first, second),
        Sum::Concentrated => concentrated_sum(alloc, first, second),
    }
}

fn sum_text(alloc: Global, sum: Result<Matrix, SumError>) -> Result<Vec<u8>, Fail> {
    match sum {
        Ok(sum) => dense(alloc, &sum),
        Err(SumError::BadConnector) => bytes(alloc, "bad connector/"),
        Err(SumError::BadEntry) => bytes(alloc, "bad entry/"),
        Err(SumError::Memory) => bytes(alloc, "memory/"),
    }
}

fn is_sum<R: Abort + AllocGlobal>(
    rt: &R,
    sum: Sum,
    matrices: (&str, &str),
    expected: &str,
) -> Result<(), Fail> {
    let first = matrix(rt.alloc(), matrices.0)?;
    let second = matrix(rt.alloc(), matrices.1)?;
    let found = sum_text(rt.alloc(), sum_of(rt, sum, &first, &second))?;
    is_text(rt, &found, expected)
}

// A circulant of R10, and the two-sum of two of them.
const CIRCULANT: &str = "5 5/1 -1 0 0 -1/-1 1 -1 0 0/0 -1 1 -1 0/0 0 -1 1 -1/-1 0 0 -1 1/";

const CIRCULANTS: &str =
    "9 9/1 -1 0 0 -1 1 0 0 1/-1 1 -1 0 0 0 0 0 0/0 -1 1 -1 0 0 0 0 0/0 0 -1 1 -1 1 0 0 1/-1 0 0 -1 1 -1 0 0 -1/0 0 0 0 -1 1 -1 0 0/0 0 0 0 0 -1 1 -1 0/0 0 0 0 0 0 -1 1 -1/0 0 0 0 -1 0 0 -1 1/";

#[test]
fn one_sums(rt: HostRuntime) -> Result<(), Fail> {
    for (first, second, expected) in [
        ("1 1/1/", "1 1/-1/", "2 2/1 0/0 -1/"),
        // Without rows, without columns, and without lines.
        ("0 2/", "1 0//", "1 2/0 0/"),
        ("1 1/-1/", "0 0/", "1 1/-1/"),
        ("0 0/", "0 0/", "0 0/"),
    ] {
        is_sum(&rt, Sum::One, (first, second), expected)?;
    }
    Ok(())
}

#[test]
fn two_sums(rt: HostRuntime) -> Result<(), Fail> {
    for (first, second, expected) in [
        (CIRCULANT, CIRCULANT, CIRCULANTS),
        // The last column of the first matrix and the first row of the second are all that they have.
        ("2 1/1/-1/", "1 2/1 -1/", "2 2/1 -1/-1 1/"),
        ("0 2/", "1 1/1/", "0 2/"),
        ("1 2/-1 1/", "1 0//", "1 1/-1/"),
        ("2 0///", "1 1/1/", "bad connector/"),
        (CIRCULANT, "0 5/", "bad connector/"),
    ] {
        is_sum(&rt, Sum::Two, (first, second), expected)?;
    }
    Ok(())
}

#[test]
fn three_sums(rt: HostRuntime) -> Result<(), Fail> {
    let delta = ("2 3/1 1 1/1 0 1/", "2 3/1 0 1/1 1 0/");
    let tall = ("3 2/1 1/1 0/1 1/", "3 2/1 1/0 1/1 0/");
    for (sum, first, second, expected) in [
        (Sum::Delta, delta.0, delta.1, "2 2/1 1/1 0/"),
        (Sum::Y, tall.0, tall.1, "2 2/1 1/1 0/"),
        (Sum::Mixed, tall.0, delta.1, "2 2/1 1/1 0/"),
        // Only connecting lines.
        (Sum::Delta, "1 2/0 1/", "1 2/1 0/", "0 0/"),
        (Sum::Y, "2 1/0/-1/", "2 1/-1/0/", "0 0/"),
        (Sum::Mixed, "2 1/0/1/", "1 2/1 0/", "0 0/"),
        // Corners that differ.
        (Sum::Delta, delta.0, "2 3/-1 0 1/1 1 0/", "bad connector/"),
        (Sum::Y, tall.0, "3 2/-1 1/0 1/1 0/", "bad connector/"),
        (Sum::Mixed, tall.0, "2 3/-1 0 1/1 1 0/", "bad connector/"),
        // Two lines differ that have to be equal except at the corner, a corner is 0, and lines are missing.
        (Sum::Y, "3 2/1 1/0 0/1 1/", tall.1, "bad connector/"),
        (Sum::Delta, "2 3/1 1 1/1 0 0/", delta.1, "bad connector/"),
        (Sum::Mixed, "2 2/1 1/1 0/", "1 3/1 0 1/", "bad connector/"),
        (Sum::Delta, delta.0, "0 0/", "bad connector/"),
        (Sum::Y, "0 0/", tall.1, "bad connector/"),
    ] {
        is_sum(&rt, sum, (first, second), expected)?;
    }
    Ok(())
}

#[test]
fn concentrated_sums(rt: HostRuntime) -> Result<(), Fail> {
    let first = "4 3/1 0 0/1 1 0/1 0 1/0 1 -1/";
    let second = "3 4/1 1 0 0/1 0 1 1/0 1 -1 0/";
    for (first, second, expected) in [
        (first, second, "4 4/1 0 0 0/1 1 0 0/1 0 1 1/0 1 -1 0/"),
        // Only connecting lines.
        (
            "3 3/1 1 0/1 0 1/0 1 -1/",
            "3 3/1 1 0/1 0 1/0 1 -1/",
            "3 3/1 1 0/1 0 1/0 1 -1/",
        ),
        // Three rows and columns that differ, and a nonzero beside them.
        (first, "3 4/-1 1 0 0/1 0 1 1/0 1 -1 0/", "bad connector/"),
        (first, "3 4/1 1 0 1/1 0 1 1/0 1 -1 0/", "bad connector/"),
        ("4 3/1 0 1/1 1 0/1 0 1/0 1 -1/", second, "bad connector/"),
        // The determinant is 0, a corner is 0, and lines are missing.
        (
            "3 3/1 1 0/1 1 1/1 1 1/",
            "3 3/1 1 0/1 1 1/1 1 1/",
            "bad connector/",
        ),
        (
            "3 3/1 0 0/1 0 1/0 1 1/",
            "3 3/1 0 0/1 0 1/0 1 1/",
            "bad connector/",
        ),
        ("2 3/1 0 1/0 1 -1/", second, "bad connector/"),
        (first, "0 0/", "bad connector/"),
        // An entry of the block is 2.
        (
            "3 4/0 1 1 0/1 1 0 1/1 0 1 1/",
            "4 3/1 1 0/1 0 1/0 1 1/1 1 0/",
            "bad entry/",
        ),
    ] {
        is_sum(&rt, Sum::Concentrated, (first, second), expected)?;
    }
    Ok(())
}
