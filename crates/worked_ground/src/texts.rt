// Matrix and submatrix texts: bad ones with their first faults, and canonical ones, which are written back unchanged.
ghost use Rattle.std.specs.Prelude.{◌≤◌};

use crate::compared::{are_texts, is_text};
use matrix_text::{
    TextError, read_dense, read_sparse, read_submatrix, write_sparse, write_submatrix,
};
use std::alloc::Global;
use std::test::Fail;
use worked_given::{bytes, dense, matrix, row_text, sparse};

// The kind of the first fault, and its position.
fn fault_text(alloc: Global, fault: Option<TextError>) -> Result<Vec<u8>, Fail> {
    match fault {
        Some(TextError::Fault { kind, place }) => row_text(
            alloc,
            &format!(in alloc; "{kind:?}")?,
            &[place.min(99_999) as u32],
        ),
        Some(fault) => Err(fault.into()),
        None => bytes(alloc, "none/"),
    }
}

fn dense_fault(alloc: Global, text: &str) -> Result<Vec<u8>, Fail> {
    fault_text(alloc, read_dense(alloc, &bytes(alloc, text)?, false).err())
}

// For entries 0 and 1 only.
fn binary_fault(alloc: Global, text: &str) -> Result<Vec<u8>, Fail> {
    fault_text(alloc, read_dense(alloc, &bytes(alloc, text)?, true).err())
}

fn sparse_fault(alloc: Global, text: &str) -> Result<Vec<u8>, Fail> {
    fault_text(alloc, read_sparse(alloc, &bytes(alloc, text)?, false).err())
}

// In a matrix with two rows and two columns.
fn submatrix_fault(alloc: Global, text: &str) -> Result<Vec<u8>, Fail> {
    fault_text(
        alloc,
        read_submatrix(alloc, &bytes(alloc, text)?, 2, 2).err(),
    )
}

#[test]
fn faults_of_dense_texts(rt: HostRuntime) -> Result<(), Fail> {
    are_texts(&rt, DENSE_FAULTS, dense_fault)
}

#[test]
fn faults_of_binary_texts(rt: HostRuntime) -> Result<(), Fail> {
    are_texts(&rt, "1 2/1 -1/; NotBinary 6/", binary_fault)
}

#[test]
fn faults_of_sparse_texts(rt: HostRuntime) -> Result<(), Fail> {
    are_texts(&rt, SPARSE_FAULTS, sparse_fault)
}

#[test]
fn faults_of_submatrix_texts(rt: HostRuntime) -> Result<(), Fail> {
    are_texts(&rt, SUBMATRIX_FAULTS, submatrix_fault)
}

#[test]
fn dense_texts(rt: HostRuntime) -> Result<(), Fail> {
    for text in ["2 2/1 -1/0 1/", "2 0///", "0 3/"] {
        is_text(&rt, &dense(rt.alloc(), &matrix(rt.alloc(), text)?)?, text)?;
    }
    Ok(())
}

fn sparse_again(alloc: Global, text: &str) -> Result<Vec<u8>, Fail> {
    Ok(write_sparse(alloc, &sparse(alloc, text)?)?)
}

#[test]
fn sparse_texts(rt: HostRuntime) -> Result<(), Fail> {
    for text in [
        "2 2 2/1 1 1/2 2 1/",
        "2 3 1/2 1 -1/",
        "1000 1000 0/",
        "0 3 0/",
    ] {
        is_text(&rt, &sparse_again(rt.alloc(), text)?, text)?;
    }
    // The order of the triples and the spelling of their numbers are free.
    let free = sparse(rt.alloc(), "2 2 3/2 2 +1/1 2 0/1 1 1/")?;
    is_text(&rt, &dense(rt.alloc(), &free)?, "2 2/1 0/0 1/")
}

fn submatrix_again(alloc: Global, rows: u32, columns: u32, text: &str) -> Result<Vec<u8>, Fail>
    requires rows { rows ≤ 1000 }
    requires columns { columns ≤ 1000 }
{
    let lines = read_submatrix(alloc, &bytes(alloc, text)?, rows, columns)?;
    Ok(write_submatrix(alloc, &lines, rows, columns)?)
}

#[test]
fn submatrix_texts(rt: HostRuntime) -> Result<(), Fail> {
    for text in ["12 3 2 2/1 12/1 3/", "12 3 1 0/12//", "12 3 0 0///"] {
        is_text(&rt, &submatrix_again(rt.alloc(), 12, 3, text)?, text)?;
    }
    is_text(
        &rt,
        &submatrix_again(rt.alloc(), 0, 0, "0 0 0 0///")?,
        "0 0 0 0///",
    )
}

// A text that is not a matrix, and its first fault.
const DENSE_FAULTS: &str = "\
2 2/1 0/0 2/; BadEntry 10/
2 2/; Short 4/
1 1/1 0/; Extra 6/
1001 1/; TooManyRows 0/
1 1001/; TooManyColumns 2/
99999999999 1/; TooBig 0/
2147483648 1/; TooBig 0/
2147483647 1/; TooManyRows 0/
1 1/x/; NotNumber 4/
1 1/+-1/; NotNumber 4/
; Short 0/";

const SPARSE_FAULTS: &str = "\
2 2 2/1 1 1/1 1 -1/; TwiceNamed 14/
2 2 2/1 1 0/1 1 1/; TwiceNamed 14/
2 2 1/3 1 1/; RowOutOfRange 6/
2 2 1/1 0 1/; ColumnOutOfRange 8/
1000 1000 2147483647/; Short 21/
0 0 2147483647/; Short 15/
0 0 2147483648/; TooBig 4/";

const SUBMATRIX_FAULTS: &str = "\
3 2 0 0/; OtherSize 0/
2 2 3 0/; RowOutOfRange 4/
2 2 0 3/; ColumnOutOfRange 6/
2 2 2 2/2 1/1 2/; NotRising 10/
2 2 2 2/2 0/1 2/; RowOutOfRange 10/";
