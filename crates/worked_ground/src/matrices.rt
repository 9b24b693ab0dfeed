// Matrices, their lines and their words.
use crate::compared::{is, is_text};
use cmr_base::{LineSet, Matrix, SignList, Word, xor_words};
use std::alloc::Global;
use std::process::Abort;
use std::test::Fail;
use worked_given::{Lines, dense, indices, line_set, lines_text, matrix};

#[test]
fn zeros(rt: HostRuntime) -> Result<(), Fail> {
    let alloc = rt.alloc();
    is_text(&rt, &dense(alloc, &Matrix::zero(alloc, 1, 2)?)?, "1 2/0 0/")?;
    is_text(&rt, &dense(alloc, &Matrix::zero(alloc, 2, 0)?)?, "2 0///")?;
    is_text(&rt, &dense(alloc, &Matrix::zero(alloc, 0, 3)?)?, "0 3/")
}

fn square(alloc: Global) -> Result<Matrix, Fail> {
    Ok(Matrix::from_cells(alloc, 2, 2, &[1, 1, 0, -1])?)
}

fn has_entries(matrix: &Matrix, entries: [i8; 4]) -> bool {
    matrix.rows() == 2
        && matrix.columns() == 2
        && matrix.entry(0, 0) == entries[0]
        && matrix.entry(0, 1) == entries[1]
        && matrix.entry(1, 0) == entries[2]
        && matrix.entry(1, 1) == entries[3]
}

fn change(matrix: &mut Matrix) {
    if matrix.rows() == 2 && matrix.columns() == 2 {
        matrix.set(1, 0, 1);
        matrix.set(0, 0, 0);
    }
}

#[test]
fn entries(rt: HostRuntime) -> Result<(), Fail> {
    let mut square = square(rt.alloc())?;
    is(&rt, has_entries(&square, [1, 1, 0, -1]), true);
    change(&mut square);
    is(&rt, has_entries(&square, [0, 1, 1, -1]), true);
    is(&rt, square.nonzeros() == 3, true);
    Ok(())
}

fn part(alloc: Global, text: &str, lines: Lines<'_>) -> Result<Matrix, Fail> {
    let matrix = matrix(alloc, text)?;
    let lines = line_set(alloc, matrix.rows(), matrix.columns(), lines)?;
    Ok(matrix.part(alloc, &lines)?)
}

fn sum(alloc: Global, text: &str, lines: Lines<'_>) -> Result<i32, Fail> {
    let matrix = matrix(alloc, text)?;
    let lines = line_set(alloc, matrix.rows(), matrix.columns(), lines)?;
    Ok(matrix.sum(&lines))
}

fn transposed_text(alloc: Global, matrix: &Matrix) -> Result<Vec<u8>, Fail> {
    dense(alloc, &matrix.transposed(alloc)?)
}

#[test]
fn parts(rt: HostRuntime) -> Result<(), Fail> {
    let alloc = rt.alloc();
    let row = part(alloc, "2 2/1 1/1 -1/", (&[1], &[0, 1]))?;
    is_text(&rt, &dense(alloc, &row)?, "1 2/1 -1/")?;
    is_text(&rt, &transposed_text(alloc, &row)?, "2 1/1/-1/")?;
    let corner = part(alloc, "3 3/1 0 1/0 -1 -1/0 0 -1/", (&[0, 1], &[1, 2]))?;
    is_text(&rt, &dense(alloc, &corner)?, "2 2/0 1/-1 -1/")?;
    is_text(&rt, &transposed_text(alloc, &corner)?, "2 2/0 -1/1 -1/")
}

#[test]
fn sums(rt: HostRuntime) -> Result<(), Fail> {
    let row = sum(rt.alloc(), "2 2/1 1/1 -1/", (&[1], &[0, 1]))?;
    let corner = sum(rt.alloc(), "3 3/1 0 1/0 -1 -1/0 0 -1/", (&[0, 1], &[1, 2]))?;
    is(&rt, row == 0 && corner == -1, true);
    Ok(())
}

fn is_set<R: Abort + AllocGlobal>(
    rt: &R,
    set: &LineSet,
    text: &str,
    size: u32,
) -> Result<(), Fail> {
    assert!(rt; set.rows.len() <= 2 && set.columns.len() <= 2);
    is(rt, set.size() == size, true);
    is_text(rt, &lines_text(rt.alloc(), set)?, text)
}

#[test]
fn line_sets(rt: HostRuntime) -> Result<(), Fail> {
    let alloc = rt.alloc();
    let all = LineSet::all(alloc, 2, 2)?;
    is_set(&rt, &all, "0 1/0 1/", 4)?;
    is_set(&rt, &all.without_row(alloc, 0)?, "1/0 1/", 3)?;
    is_set(&rt, &all.without_column(alloc, 1)?, "0 1/0/", 3)
}

fn second(alloc: Global) -> Result<u32, Fail> {
    let numbers = indices(alloc, 3, &[0, 2])?;
    if numbers.len() == 2 {
        Ok(*numbers.get(1))
    } else {
        Ok(0)
    }
}

fn sign(alloc: Global) -> Result<i8, Fail> {
    let mut signs = SignList::new(alloc);
    signs.push(-1)?;
    if signs.len() == 1 {
        Ok(*signs.get(0))
    } else {
        Ok(0)
    }
}

#[test]
fn lists(rt: HostRuntime) -> Result<(), Fail> {
    is(&rt, second(rt.alloc())? == 2, true);
    is(&rt, sign(rt.alloc())? == -1, true);
    let word = Word::new(rt.alloc(), "--lines")?;
    is_text(&rt, word.text().as_bytes(), "--lines")
}

fn wide(alloc: Global) -> Result<Matrix, Fail> {
    let mut wide = Matrix::zero(alloc, 1, 66)?;
    wide.set(0, 0, 1);
    wide.set(0, 2, -1);
    wide.set(0, 63, 1);
    wide.set(0, 65, -1);
    Ok(wide)
}

fn has_words(matrix: &Matrix, chunk: u32, support: u64, minus: u64) -> bool {
    matrix.rows() == 1
        && chunk < 16
        && 64 * chunk < matrix.columns()
        && matrix.support_word(0, chunk) == support
        && matrix.minus_word(0, chunk) == minus
}

#[test]
fn words(rt: HostRuntime) -> Result<(), Fail> {
    let wide = wide(rt.alloc())?;
    is(&rt, has_words(&wide, 0, 0x8000_0000_0000_0005, 4), true);
    is(&rt, has_words(&wide, 1, 2, 2), true);
    let narrow = matrix(rt.alloc(), "1 3/1 0 -1/")?;
    is(&rt, has_words(&narrow, 0, 5, 4), true);
    Ok(())
}

#[test]
fn sums_of_words(rt: HostRuntime) {
    let mut sums = [1u64; 9];
    xor_words(&mut sums, &[3u64; 9]);
    is(&rt, sums == [2u64; 9], true);
}
