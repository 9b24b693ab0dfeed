// Texts of large matrices: bad ones with their first faults, and the nonzeros of others.
use cmr_base::Memory;
use matrix_text::{TextError, TextKind};
use sparse_matrix::SparseMatrix;
use sparse_text::{read_large_dense, read_large_sparse};
use std::alloc::{AllocGlobal, Global};
use std::process::Abort;
use std::test::Fail;

// The fault of a text, and its byte.
fn fault_of(read: Result<SparseMatrix, TextError>) -> Result<(TextKind, usize), Fail> {
    match read {
        Err(TextError::Fault { kind, place }) => Ok((kind, place)),
        Err(TextError::Memory) => Err(Memory.into()),
        Ok(_) => Err(Fail::from("no fault")),
    }
}

fn has_dense_fault<R: Abort + AllocGlobal>(
    rt: &R,
    text: &str,
    kind: TextKind,
    place: usize,
) -> Result<(), Fail> {
    let fault = fault_of(read_large_dense(rt.alloc(), text.as_bytes()))?;
    assert!(rt; fault.0 == kind);
    assert!(rt; fault.1 == place);
    Ok(())
}

fn has_sparse_fault<R: Abort + AllocGlobal>(
    rt: &R,
    text: &str,
    kind: TextKind,
    place: usize,
) -> Result<(), Fail> {
    let fault = fault_of(read_large_sparse(rt.alloc(), text.as_bytes()))?;
    assert!(rt; fault.0 == kind);
    assert!(rt; fault.1 == place);
    Ok(())
}

#[test]
fn faults_of_large_dense_texts(rt: HostRuntime) -> Result<(), Fail> {
    has_dense_fault(&rt, "", TextKind::Short, 0)?;
    has_dense_fault(&rt, "2 x", TextKind::NotNumber, 2)?;
    has_dense_fault(&rt, "2147483648 1", TextKind::TooBig, 0)?;
    has_dense_fault(&rt, "16777217 1", TextKind::TooManyRows, 0)?;
    has_dense_fault(&rt, "1 16777217", TextKind::TooManyColumns, 2)?;
    has_dense_fault(&rt, "2 2\n1 0\n0 2\n", TextKind::BadEntry, 10)?;
    has_dense_fault(&rt, "2000 2000\n1 0\n", TextKind::Short, 14)?;
    has_dense_fault(&rt, "1 1\n1 0\n", TextKind::Extra, 6)
}

#[test]
fn faults_of_large_sparse_texts(rt: HostRuntime) -> Result<(), Fail> {
    has_sparse_fault(&rt, "16777217 1 0", TextKind::TooManyRows, 0)?;
    has_sparse_fault(&rt, "1 16777217 0", TextKind::TooManyColumns, 2)?;
    has_sparse_fault(&rt, "2000 2000 2147483648", TextKind::TooBig, 10)?;
    has_sparse_fault(&rt, "2000 2000 2147483647", TextKind::Short, 20)?;
    has_sparse_fault(&rt, "2000 5 1\n2001 1 1", TextKind::RowOutOfRange, 9)?;
    has_sparse_fault(&rt, "5 2000 1\n1 0 1", TextKind::ColumnOutOfRange, 11)?;
    has_sparse_fault(&rt, "2000 2000 1\n1 1 -2", TextKind::BadEntry, 16)?;
    has_sparse_fault(&rt, "2000 2000 1\n1 1 1 1", TextKind::Extra, 18)?;
    // A fault of the value of a triple comes after the fault of its position.
    has_sparse_fault(&rt, "2 2 2\n2 1 0\n2 1 x", TextKind::TwiceNamed, 14)?;
    has_sparse_fault(&rt, "2 2 3\n2 1 0\n1 2 x\n2 1 1", TextKind::NotNumber, 16)
}

// The nonzeros of a row have the order of the text.
fn is_row<R: Abort>(
    rt: &R,
    matrix: &SparseMatrix,
    row: u32,
    nonzeros: &[(u32, i8)],
) -> Result<(), Fail> {
    if row >= matrix.rows() {
        return Err(Fail::from("a row outside"));
    }
    let run = matrix.row(row);
    assert!(rt; run.len() == nonzeros.len());
    for (found, expected) in run.iter().zip(nonzeros) {
        assert!(rt; found.line == expected.0);
        assert!(rt; found.value == expected.1);
    }
    Ok(())
}

#[test]
fn a_large_dense_text_has_its_entries(rt: HostRuntime) -> Result<(), Fail> {
    let matrix = read_large_dense(rt.alloc(), b"2 3\n1 0 -1\n0 +1 0\n")?;
    assert!(rt; matrix.columns() == 3);
    is_row(&rt, &matrix, 0, &[(0, 1), (2, -1)])?;
    is_row(&rt, &matrix, 1, &[(1, 1)])
}

#[test]
fn a_large_sparse_text_has_its_triples(rt: HostRuntime) -> Result<(), Fail> {
    let text = b"2000 3000 4\n2000 3000 -1\n2000 1 1\n1 2 0\n1 3000 1\n";
    let matrix = read_large_sparse(rt.alloc(), text)?;
    assert!(rt; matrix.rows() == 2000);
    assert!(rt; matrix.columns() == 3000);
    is_row(&rt, &matrix, 0, &[(2999, 1)])?;
    is_row(&rt, &matrix, 1, &[])?;
    is_row(&rt, &matrix, 1999, &[(2999, -1), (0, 1)])
}
