// Small sparse matrices with at most two nonzeros in each column.
use cmr_base::LineSet;
use sparse_matrix::{MAX_SPARSE_LINES, SparseMatrix};
use split_search::{Split, decide, have_at_most_two};
use std::alloc::{AllocGlobal, Global};
use std::process::Abort;
use std::test::Fail;

/// A row, a column and the entry there.
type Triple = (u32, u32, i8);

// Writes an entry where the matrix has a zero.
fn write(matrix: &mut SparseMatrix, triple: Triple) -> Result<(), Fail> {
    let (row, column, value) = triple;
    if row >= matrix.rows() || column >= matrix.columns() {
        return Err(Fail::from("a line outside"));
    }
    if value != 1 && value != -1 {
        return Err(Fail::from("no sign"));
    }
    if matrix.entry(row, column) != 0 {
        return Err(Fail::from("an entry twice"));
    }
    matrix.push(row, column, value)?;
    Ok(())
}

fn sparse(
    alloc: Global,
    rows: u32,
    columns: u32,
    triples: &[Triple],
) -> Result<SparseMatrix, Fail> {
    if rows > MAX_SPARSE_LINES || columns > MAX_SPARSE_LINES {
        return Err(Fail::from("too many lines"));
    }
    let mut matrix = SparseMatrix::zero(alloc, rows, columns)?;
    for triple in triples {
        write(&mut matrix, *triple)?;
    }
    Ok(matrix)
}

fn are_lines<R: Abort>(rt: &R, lines: &LineSet, rows: &[u32], columns: &[u32]) {
    assert_eq!(rt; lines.rows.as_slice(), rows);
    assert_eq!(rt; lines.columns.as_slice(), columns);
}

#[test]
fn a_matrix_with_two_nonzeros_in_each_column_is_decided(rt: HostRuntime) -> Result<(), Fail> {
    let matrix = sparse(
        rt.alloc(),
        2,
        2,
        &[(0, 0, 1), (0, 1, 1), (1, 0, 1), (1, 1, -1)],
    )?;
    let transposed = matrix.transposed(rt.alloc())?;
    if !have_at_most_two(&transposed) {
        return Err(Fail::from("three nonzeros"));
    }
    let Split::Violator(lines) = decide(rt.alloc(), &matrix, &transposed)? else {
        return Err(Fail::from("no violator"));
    };
    are_lines(&rt, &lines, &[0, 1], &[0, 1]);
    Ok(())
}
