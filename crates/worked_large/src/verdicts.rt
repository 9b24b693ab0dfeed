// Small matrices with several parts, and their verdicts.
use cmr_base::LineSet;
use first_hit::Workers;
use large_unimodular::{LargeVerdict, decide_large};
use sparse_matrix::{MAX_SPARSE_LINES, SparseMatrix};
use std::alloc::{AllocGlobal, Global};
use std::process::Abort;
use std::test::Fail;
use std::thread::Threads;

/// A row, a column and the entry there.
pub type Triple = (u32, u32, i8);

// Writes an entry where the matrix has a zero.
pub fn write(matrix: &mut SparseMatrix, triple: Triple) -> Result<(), Fail> {
    let (row, column, value) = triple;
    if row >= matrix.rows() || column >= matrix.columns() {
        return Err(Fail::from("a line outside"));
    }
    if value != 1 && value != -1 {
        return Err(Fail::from("no sign"));
    }
    if matrix.entry(row, column) != 0 {
        return Err(Fail::from("an entry twice"));
    }
    matrix.push(row, column, value)?;
    Ok(())
}

pub fn zero(alloc: Global, rows: u32, columns: u32) -> Result<SparseMatrix, Fail> {
    if rows > MAX_SPARSE_LINES || columns > MAX_SPARSE_LINES {
        return Err(Fail::from("too many lines"));
    }
    Ok(SparseMatrix::zero(alloc, rows, columns)?)
}

// Writes a block from a row and a column on.
fn write_block(
    matrix: &mut SparseMatrix,
    row: u32,
    column: u32,
    triples: &[Triple],
) -> Result<(), Fail> {
    for triple in triples {
        let (r, c, value) = *triple;
        if r >= 1_000 || c >= 1_000 || row >= 1_000_000 || column >= 1_000_000 {
            return Err(Fail::from("a line outside"));
        }
        write(matrix, (row + r, column + c, value))?;
    }
    Ok(())
}

// The incidences of a directed cycle with as many nodes as arcs.
pub fn write_cycle(
    matrix: &mut SparseMatrix,
    row: u32,
    column: u32,
    size: u32,
) -> Result<(), Fail> {
    if row >= 1_000_000 || column >= 1_000_000 || size >= 1_000_000 {
        return Err(Fail::from("a line outside"));
    }
    for node in 0..size {
        write(matrix, (row + node, column + node, 1))?;
        let next = if node + 1 == size { 0 } else { node + 1 };
        write(matrix, (row + next, column + node, -1))?;
    }
    Ok(())
}

fn verdict<R: Abort + AllocGlobal + Threads + Sync>(
    rt: &R,
    matrix: &SparseMatrix,
    pivots: u32,
    workers: u32,
) -> Result<LargeVerdict, Fail> {
    if workers < 1 || workers > 64 {
        return Err(Fail::from("workers"));
    }
    Ok(decide_large(rt, rt.alloc(), matrix, 14, pivots, Workers::new(workers))?)
}

fn are_lines<R: Abort>(rt: &R, lines: &LineSet, rows: &[u32], columns: &[u32]) {
    assert_eq!(rt; lines.rows.as_slice(), rows);
    assert_eq!(rt; lines.columns.as_slice(), columns);
}

fn is_yes<R: Abort + AllocGlobal + Threads + Sync>(
    rt: &R,
    matrix: &SparseMatrix,
) -> Result<(), Fail> {
    for workers in 1..4 {
        let found = verdict(rt, matrix, 0, workers)?;
        assert!(rt; matches!(found, LargeVerdict::Yes));
    }
    Ok(())
}

fn is_no<R: Abort + AllocGlobal + Threads + Sync>(
    rt: &R,
    matrix: &SparseMatrix,
    rows: &[u32],
    columns: &[u32],
) -> Result<(), Fail> {
    let LargeVerdict::No(lines) = verdict(rt, matrix, 0, 2)? else {
        return Err(Fail::from("no violator"));
    };
    are_lines(rt, &lines, rows, columns);
    Ok(())
}

// R10 with right signs: each row and each column has three nonzeros.
const R10: [Triple; 15] = [
    (0, 0, 1),
    (0, 1, -1),
    (0, 4, -1),
    (1, 0, -1),
    (1, 1, 1),
    (1, 2, -1),
    (2, 1, -1),
    (2, 2, 1),
    (2, 3, -1),
    (3, 2, -1),
    (3, 3, 1),
    (3, 4, -1),
    (4, 0, -1),
    (4, 3, -1),
    (4, 4, 1),
];

// Two rows and two columns whose entries sum to 2.
const SQUARE: [Triple; 4] = [(0, 0, 1), (0, 1, 1), (1, 0, 1), (1, 1, -1)];

#[test]
fn r10_and_a_long_cycle_are_a_yes(rt: HostRuntime) -> Result<(), Fail> {
    let mut matrix = zero(rt.alloc(), 1_510, 1_510)?;
    write_cycle(&mut matrix, 0, 5, 1_500)?;
    write_block(&mut matrix, 1_503, 0, &R10)?;
    is_yes(&rt, &matrix)
}

// The violator is in the second of three parts, and the third has another.
#[test]
fn the_first_part_with_a_violator_is_named(rt: HostRuntime) -> Result<(), Fail> {
    let mut matrix = zero(rt.alloc(), 20, 20)?;
    write_block(&mut matrix, 0, 10, &R10)?;
    write_block(&mut matrix, 6, 7, &SQUARE)?;
    write_block(&mut matrix, 12, 1, &SQUARE)?;
    is_no(&rt, &matrix, &[6, 7], &[7, 8])
}

// A part with three nonzeros in each line. The first two rows and columns are a violator.
const ONES: [Triple; 9] = [
    (0, 0, 1),
    (0, 1, 1),
    (0, 2, 1),
    (1, 0, 1),
    (1, 1, -1),
    (1, 2, 1),
    (2, 0, 1),
    (2, 1, 1),
    (2, 2, 1),
];

#[test]
fn a_violator_of_a_decomposed_part_has_the_numbers_of_the_whole(
    rt: HostRuntime,
) -> Result<(), Fail> {
    let mut matrix = zero(rt.alloc(), 20, 20)?;
    write_cycle(&mut matrix, 0, 12, 8)?;
    write_block(&mut matrix, 9, 3, &ONES)?;
    is_no(&rt, &matrix, &[9, 10], &[3, 4])
}

// A part of 1,001 rows: the cycle, and in each of its columns a nonzero of one more row.
fn write_wheel(matrix: &mut SparseMatrix, row: u32, column: u32, size: u32) -> Result<(), Fail> {
    if row >= 1_000_000 || column >= 1_000_000 || size >= 1_000_000 {
        return Err(Fail::from("a line outside"));
    }
    write_cycle(matrix, row, column, size)?;
    for arc in 0..size {
        write(matrix, (row + size, column + arc, 1))?;
        write(matrix, (row + arc, column + size, 1))?;
    }
    Ok(())
}

#[test]
fn the_first_part_above_the_limits_stays_open(rt: HostRuntime) -> Result<(), Fail> {
    let mut matrix = zero(rt.alloc(), 2_100, 2_100)?;
    write_block(&mut matrix, 0, 2_050, &R10)?;
    write_wheel(&mut matrix, 10, 0, 1_000)?;
    write_wheel(&mut matrix, 1_011, 1_001, 1_000)?;
    let LargeVerdict::Open(lines) = verdict(&rt, &matrix, 0, 1)? else {
        return Err(Fail::from("no open part"));
    };
    assert_eq!(&rt; lines.rows.len(), 1_001);
    assert_eq!(&rt; lines.columns.len(), 1_001);
    assert_eq!(&rt; *lines.rows.get(0), 10);
    assert_eq!(&rt; *lines.columns.get(0), 0);
    Ok(())
}

#[test]
fn a_no_after_an_open_part_is_a_no(rt: HostRuntime) -> Result<(), Fail> {
    let mut matrix = zero(rt.alloc(), 1_010, 1_010)?;
    write_wheel(&mut matrix, 0, 5, 1_000)?;
    write_block(&mut matrix, 1_005, 0, &SQUARE)?;
    is_no(&rt, &matrix, &[1_005, 1_006], &[0, 1])
}

// Three consecutive nonzeros in each column. The columns are not in the order of their first rows. Each nonzero is 1, except the middle
// one of the column whose first row is `turned`.
fn write_intervals(matrix: &mut SparseMatrix, count: u32, turned: u32) -> Result<(), Fail> {
    if count >= 1_000_000 {
        return Err(Fail::from("a line outside"));
    }
    for first in 0..count {
        let column = if first % 2 == 0 { first } else { count - first };
        let middle = if first == turned { -1 } else { 1 };
        write(matrix, (first, column, 1))?;
        write(matrix, (first + 1, column, middle))?;
        write(matrix, (first + 2, column, 1))?;
    }
    Ok(())
}

#[test]
fn intervals_above_the_limits_are_a_yes(rt: HostRuntime) -> Result<(), Fail> {
    let mut matrix = zero(rt.alloc(), 1_202, 1_200)?;
    write_intervals(&mut matrix, 1_200, 1_200)?;
    is_yes(&rt, &matrix)?;
    is_yes(&rt, &matrix.transposed(rt.alloc())?)
}

#[test]
fn intervals_above_the_limits_with_two_signs_stay_open(rt: HostRuntime) -> Result<(), Fail> {
    let mut matrix = zero(rt.alloc(), 1_202, 1_200)?;
    write_intervals(&mut matrix, 1_200, 600)?;
    let LargeVerdict::Open(lines) = verdict(&rt, &matrix, 0, 1)? else {
        return Err(Fail::from("no open part"));
    };
    assert_eq!(&rt; lines.rows.len(), 1_200);
    assert_eq!(&rt; lines.columns.len(), 1_200);
    Ok(())
}

fn is_sparse_yes<R: Abort + AllocGlobal + Threads + Sync>(
    rt: &R,
    rows: u32,
    columns: u32,
    triples: &[Triple],
) -> Result<(), Fail> {
    let mut matrix = zero(rt.alloc(), rows, columns)?;
    write_block(&mut matrix, 0, 0, triples)?;
    is_yes(rt, &matrix)
}

#[test]
fn matrices_without_a_core_are_totally_unimodular(rt: HostRuntime) -> Result<(), Fail> {
    is_sparse_yes(&rt, 0, 0, &[])?;
    is_sparse_yes(&rt, 0, 3, &[])?;
    is_sparse_yes(&rt, 3, 0, &[])?;
    is_sparse_yes(&rt, 2, 2, &[(0, 0, 1), (1, 1, -1)])?;
    is_sparse_yes(
        &rt,
        3,
        3,
        &[(0, 0, 1), (0, 1, 1), (0, 2, 1), (1, 1, -1), (2, 2, 1)],
    )
}

// Rows 0 to 5 have two nonzeros, and columns 0 to 3 three: the edges and the nodes of the complete graph with four nodes.
#[test]
fn an_odd_cycle_of_rows_is_a_violator(rt: HostRuntime) -> Result<(), Fail> {
    let mut matrix = zero(rt.alloc(), 6, 4)?;
    let triples = [
        (0, 0, 1),
        (0, 1, 1),
        (1, 0, 1),
        (1, 2, 1),
        (2, 0, 1),
        (2, 3, 1),
        (3, 1, 1),
        (3, 2, 1),
        (4, 1, 1),
        (4, 3, 1),
        (5, 2, 1),
        (5, 3, 1),
    ];
    write_block(&mut matrix, 0, 0, &triples)?;
    is_no(&rt, &matrix, &[0, 1, 3], &[0, 1, 2])
}
