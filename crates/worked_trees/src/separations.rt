// Connected parts, two-separations, groups of lines that no cut separates, three-separations, and the lines of the children.
ghost use Rattle.std.specs.Prelude.{◌<◌, ◌+◌};
ghost use Rattle.cmr_base.specs.Matrix.{height};
ghost use Rattle.cuts.specs.LineCuts.{HasNames};

use crate::compared::is_text;
use cmr_base::{LineSet, LineSetPair, Matrix, RowsAndColumns, Three};
use cuts::{Groups, groups_of};
use std::alloc::Global;
use std::process::Abort;
use std::test::Fail;
use std::thread::Threads;
use sum_ops::{three_parts, two_parts};
use three_sep::{Form, first_cut, three_separation};
use two_sep::{components, two_separation};
use worked_given::{bytes, found_text, lines_text, matrix, named_lines_text, row_text, sparse};

// The parts, one below the other.
fn parts_text(alloc: Global, text: &str) -> Result<Vec<u8>, Fail> {
    let parts = components(alloc, &matrix(alloc, text)?)?;
    let mut found = Vec::new(alloc);
    for part in parts.as_slice() {
        found.extend_from_slice(&lines_text(alloc, part)?)?;
    }
    Ok(found)
}

#[test]
fn parts(rt: HostRuntime) -> Result<(), Fail> {
    for (text, expected) in [
        (
            "7 7/1 1 0 0 0 0 0/1 0 1 0 0 0 0/1 0 0 1 0 0 0/1 1 1 1 0 0 0/0 0 0 0 1 1 0/0 0 0 0 0 1 1/0 0 0 0 1 0 -1/",
            "0 1 2 3/0 1 2 3/4 5 6/4 5 6/",
        ),
        ("2 2/0 1/-1 0/", "0/1/1/0/"),
        ("1 2/0 0/", "0///0//1/"),
        ("0 0/", ""),
    ] {
        is_text(&rt, &parts_text(rt.alloc(), text)?, expected)?;
    }
    Ok(())
}

// A circulant of R10.
const CIRCULANT: &str = "5 5/1 -1 0 0 -1/-1 1 -1 0 0/0 -1 1 -1 0/0 0 -1 1 -1/-1 0 0 -1 1/";

// The reference, and the lines of side one.
fn two_text(alloc: Global, text: &str) -> Result<Vec<u8>, Fail> {
    match two_separation(alloc, &matrix(alloc, text)?)? {
        Some(two) => named_lines_text(alloc, "two", &[two.row, two.column], &two.side),
        None => bytes(alloc, "none/"),
    }
}

#[test]
fn two_separations(rt: HostRuntime) -> Result<(), Fail> {
    for (text, expected) in [
        // The two-sum of two circulants.
        (
            "9 9/1 -1 0 0 -1 1 0 0 1/-1 1 -1 0 0 0 0 0 0/0 -1 1 -1 0 0 0 0 0/0 0 -1 1 -1 1 0 0 1/-1 0 0 -1 1 -1 0 0 -1/0 0 0 0 -1 1 -1 0 0/0 0 0 0 0 -1 1 -1 0/0 0 0 0 0 0 -1 1 -1/0 0 0 0 -1 0 0 -1 1/",
            "two 0 4/5 6 7 8/4 5 6 7 8/",
        ),
        // The two-sum of three blocks can be separated at two positions. The first seed separates it at the earlier one.
        (
            "7 7/1 1 0 0 0 0 0/0 1 1 1 0 0 0/1 0 -1 -1 0 0 0/0 0 0 1 1 1 0/0 0 1 0 -1 -1 0/0 0 0 0 0 1 1/0 0 0 0 1 0 -1/",
            "two 1 2/3 4 5 6/2 3 4 5 6/",
        ),
        (CIRCULANT, "none/"),
        ("2 1/1/1/", "none/"),
    ] {
        is_text(&rt, &two_text(rt.alloc(), text)?, expected)?;
    }
    Ok(())
}

// The first line of a line's group.
fn first_of_group(views: &RowsAndColumns<'_>, groups: &Groups, line: u32) -> u32
    requires names { HasNames views.now groups.now }
    requires line { line < height views.now + views.now.width }
{
    for first in 0..line {
        if groups.are_one(first, line) {
            return first;
        }
    }
    line
}

// The first line of each line's group, the rows first.
fn groups_text(alloc: Global, text: &str) -> Result<Vec<u8>, Fail> {
    let matrix = matrix(alloc, text)?;
    let columns = matrix.transposed(alloc)?;
    let views = RowsAndColumns::of(&matrix, &columns);
    let groups = groups_of(alloc, &views)?;
    let mut firsts = Vec::new(alloc);
    for line in 0..views.rows() + views.columns() {
        firsts.push(first_of_group(&views, &groups, line))?;
    }
    let word = if groups.are_all_one() { "one" } else { "many" };
    row_text(alloc, word, &firsts)
}

#[test]
fn groups(rt: HostRuntime) -> Result<(), Fail> {
    for (text, expected) in [
        // No set of its lines is a side of a cut. All sets were tried.
        (
            "11 11/1 -1 0 -1 0 1 0 1 0 1 0/-1 1 0 -1 0 0 0 0 0 0 0/1 0 0 0 1 -1 -1 0 0 0 0/0 0 -1 0 0 0 0 0 1 0 1/-1 1 0 0 -1 0 -1 0 0 0 1/1 0 0 0 0 -1 0 0 -1 0 0/0 1 0 0 1 -1 0 -1 -1 1 0/0 0 1 0 0 0 1 0 0 0 1/1 -1 1 0 -1 1 1 0 0 -1 1/-1 1 -1 0 0 -1 0 1 1 0 -1/0 -1 1 -1 0 -1 1 0 1 -1 0/",
            "one 0 0 0 0 0 0 0 0 0 0 0 0 0 0 0 0 0 0 0 0 0 0/",
        ),
        // There is one cut, with rows 0, 3, 4, 5, 8 and 9 and columns 0, 2, 3, 5, 8 and 9 on a side.
        (
            "11 12/0 1 0 -1 -1 -1 1 -1 0 1 0 -1/0 0 0 0 0 0 -1 1 0 0 -1 1/1 0 1 0 0 -1 1 -1 -1 0 0 1/-1 1 1 -1 -1 0 1 -1 1 -1 0 -1/-1 0 -1 0 0 0 0 0 1 1 0 0/1 -1 0 1 1 -1 -1 1 0 0 0 1/0 1 0 0 -1 0 0 -1 0 0 1 1/1 0 1 0 0 -1 0 -1 -1 0 -1 1/0 1 0 -1 -1 0 1 -1 -1 1 0 -1/0 1 0 0 -1 0 1 -1 1 -1 0 -1/0 1 0 0 0 0 0 1 0 0 0 -1/",
            "many 0 1 1 0 0 0 1 1 0 0 1 0 1 0 0 1 0 1 1 0 0 1 1/",
        ),
    ] {
        is_text(&rt, &groups_text(rt.alloc(), text)?, expected)?;
    }
    Ok(())
}

// The form, the two connectors, and the lines of side one.
fn three_text(alloc: Global, three: &Three) -> Result<Vec<u8>, Fail> {
    let form = match three.form {
        Form::Delta => "delta",
        Form::YForm => "y",
        Form::Mixed => "mixed",
        Form::Concentrated => "concentrated",
    };
    let (first, second) = (three.first, three.second);
    let numbers = [
        first.row,
        first.column,
        first.other,
        second.row,
        second.column,
        second.other,
    ];
    named_lines_text(alloc, form, &numbers, &three.side)
}

fn three_of<R: Threads + Sync + Abort + AllocGlobal>(
    rt: &R,
    matrix: &Matrix,
    workers: u32,
) -> Result<Vec<u8>, Fail> {
    assert!(rt; workers >= 1 && workers <= 64);
    match three_separation(rt, rt.alloc(), matrix, workers)? {
        Some(three) => three_text(rt.alloc(), &three),
        None => bytes(rt.alloc(), "none/"),
    }
}

#[test]
fn three_separations(rt: HostRuntime) -> Result<(), Fail> {
    let mixed =
        "7 7/1 1 1 0 1 1 0/0 0 0 -1 1 1 0/1 0 1 1 0 0 0/0 0 0 0 1 0 1/0 1 1 0 1 0 0/0 1 1 0 1 0 1/0 0 0 0 0 -1 1/";
    for (text, workers, expected) in [
        (mixed, 1, "mixed 4 4 5 0 1 1/3 4 5 6/4 5 6/"),
        (mixed, 3, "mixed 4 4 5 0 1 1/3 4 5 6/4 5 6/"),
        (mixed, 64, "mixed 4 4 5 0 1 1/3 4 5 6/4 5 6/"),
        (
            "4 4/1 1 0 0/1 0 0 0/1 0 1 1/0 1 -1 0/",
            3,
            "concentrated 0 0 1 2 2 3/0 1/0 1/",
        ),
        (CIRCULANT, 1, "none/"),
        (CIRCULANT, 64, "none/"),
        ("3 4/0 0 0 0/0 0 0 0/0 0 0 0/", 3, "none/"),
    ] {
        let matrix = matrix(rt.alloc(), text)?;
        is_text(&rt, &three_of(&rt, &matrix, workers)?, expected)?;
    }
    Ok(())
}

// Two rows have the connectors, and a path meets none of their lines. Side one takes in the whole path.
#[test]
fn long_three_separation(rt: HostRuntime) -> Result<(), Fail> {
    let matrix = sparse(
        rt.alloc(),
        "40 40 45/1 1 1/1 3 1/1 4 1/2 1 1/2 2 1/2 3 1/3 5 1/4 5 1/4 6 1/5 6 1/5 7 1/6 7 1/6 8 1/7 8 1/7 9 1/8 9 1/8 10 1/9 10 1/9 11 1/10 11 1/10 12 1/11 12 1/11 13 1/12 13 1/12 14 1/13 14 1/13 15 1/14 15 1/14 16 1/15 16 1/15 17 1/16 17 1/16 18 1/17 18 1/17 19 1/18 19 1/18 20 1/19 20 1/19 21 1/20 21 1/20 22 1/21 22 1/21 23 1/22 23 1/22 24 1/",
    )?;
    let expected =
        "delta 0 0 1 1 2 3/0 2 3 4 5 6 7 8 9 10 11 12 13 14 15 16 17 18 19 20 21/0 1 4 5 6 7 8 9 10 11 12 13 14 15 16 17 18 19 20 21 22 23/";
    for workers in [1, 3, 64] {
        is_text(&rt, &three_of(&rt, &matrix, workers)?, expected)?;
    }
    Ok(())
}

// A path apart from the lines of the connectors, in a matrix with many lines of zeros. Side one takes in the
// whole path, or a row of zeros if that comes first.
#[test]
fn paths_beside_connectors(rt: HostRuntime) -> Result<(), Fail> {
    for (text, expected) in [
        // The two other lines are the last columns.
        (
            "600 600 15/1 1 1/1 3 1/1 599 1/2 1 1/2 600 1/2 3 1/3 4 1/4 4 1/4 5 1/5 5 1/5 6 1/6 6 1/6 7 1/7 7 1/7 8 1/",
            "delta 0 0 599 1 2 598/0 2 3 4 5 6/0 3 4 5 6 7 599/",
        ),
        // Before these rows two others are nonzero in two columns together.
        (
            "600 600 19/1 1 1/1 2 1/2 1 1/2 2 1/9 9 1/9 11 1/9 599 1/10 9 1/10 600 1/10 11 1/4 4 1/5 4 1/5 5 1/6 5 1/6 6 1/7 6 1/7 7 1/8 7 1/8 8 1/",
            "delta 8 8 599 9 10 598/0 1 8/0 1 8 599/",
        ),
        // The first matrix transposed, and a matrix whose second connector is tall. No seed of an earlier form is good.
        (
            "600 600 15/1 1 1/3 1 1/599 1 1/1 2 1/600 2 1/3 2 1/4 3 1/4 4 1/5 4 1/5 5 1/6 5 1/6 6 1/7 6 1/7 7 1/8 7 1/",
            "y 0 0 599 2 1 598/0 1 599/0/",
        ),
        (
            "600 600 16/1 1 1/1 3 1/2 1 1/2 2 1/2 3 1/3 1 1/3 2 1/4 4 1/5 4 1/5 5 1/6 5 1/6 6 1/7 6 1/7 7 1/8 7 1/8 8 1/",
            "mixed 0 0 1 1 2 2/0 3 4 5 6 7/0 1 3 4 5 6 7/",
        ),
    ] {
        let matrix = sparse(rt.alloc(), text)?;
        for workers in [1, 3, 64] {
            is_text(&rt, &three_of(&rt, &matrix, workers)?, expected)?;
        }
    }
    Ok(())
}

// For the concentrated form the first good row i is among the last rows, or there is none.
#[test]
fn last_rows(rt: HostRuntime) -> Result<(), Fail> {
    for (text, expected) in [
        (
            "150 150 8/147 147 1/147 148 1/148 147 1/149 147 1/149 149 1/149 150 1/150 148 1/150 149 -1/",
            "concentrated 146 146 147 148 148 149/0 146/146 147/",
        ),
        (
            "150 150 9/4 4 1/5 4 1/5 5 1/6 5 1/6 6 1/7 6 1/7 7 1/8 7 1/8 8 1/",
            "none/",
        ),
    ] {
        let matrix = sparse(rt.alloc(), text)?;
        for workers in [1, 3, 64] {
            is_text(&rt, &three_of(&rt, &matrix, workers)?, expected)?;
        }
    }
    Ok(())
}

// A number below 8 for a position. Over the positions of a matrix these numbers look random.
fn drawn(row: u32, column: u32) -> u32 {
    let place = row.wrapping_mul(1024).wrapping_add(column);
    let word = place.wrapping_mul(0x9E37_79B1);
    let word = (word ^ (word >> 15)).wrapping_mul(0x85EB_CA6B);
    (word ^ (word >> 13)) >> 29
}

// The entry at a position of a sum, by a number. The lines `from <= line < to` are one side. The entries between the sides
// are a product, and 0 in rows before the lines.
fn drawn_sum(row: u32, column: u32, from: u32, to: u32) -> u32 {
    if (from <= row && row < to) == (from <= column && column < to) {
        return drawn(row, column);
    }
    if row < from {
        return 0;
    }
    row.wrapping_mul(column) % 3
}

// Puts 1 at a position for 1, and -1 for 2.
fn put(matrix: &mut Matrix, row: u32, column: u32, number: u32) {
    if row < matrix.rows() && column < matrix.columns() {
        match number {
            1 => matrix.set(row, column, 1),
            2 => matrix.set(row, column, -1),
            _ => {}
        }
    }
}

fn put_row(matrix: &mut Matrix, row: u32, from: u32, to: u32) {
    for column in 0..matrix.columns() {
        put(matrix, row, column, drawn_sum(row, column, from, to));
    }
}

// The sum in a matrix of zeros.
fn sum(alloc: Global, zeros: &str, from: u32, to: u32) -> Result<Matrix, Fail> {
    let mut matrix = sparse(alloc, zeros)?;
    for row in 0..matrix.rows() {
        put_row(&mut matrix, row, from, to);
    }
    Ok(matrix)
}

// Before the first good seed a hundred corners are refused, so the search uses groups of lines. The answers are from a slow
// program that grows all seeds in their order.
#[test]
fn late_three_separations(rt: HostRuntime) -> Result<(), Fail> {
    for (zeros, from, to, expected) in [
        (
            "110 110 0/",
            50,
            80,
            "delta 50 64 50 80 5 1/50 51 52 53 54 55 56 57 58 59 60 61 62 63 64 65 66 67 68 69 70 71 72 73 74 75 76 77 78 79/50 51 52 53 54 55 56 57 58 59 60 61 62 63 64 65 66 67 68 69 70 71 72 73 74 75 76 77 78 79/",
        ),
        // All lines are on one side.
        ("100 100 0/", 0, 0, "none/"),
    ] {
        let matrix = sum(rt.alloc(), zeros, from, to)?;
        is_text(&rt, &three_of(&rt, &matrix, 1)?, expected)?;
    }
    Ok(())
}

// Side one of the first cut.
fn first_cut_text(alloc: Global, matrix: &Matrix) -> Result<Vec<u8>, Fail> {
    let columns = matrix.transposed(alloc)?;
    let found = first_cut(alloc, &RowsAndColumns::of(matrix, &columns))?;
    found_text(alloc, &found)
}

// Each of the matrices with a cut has several. A slow program that grows all seeds in their order gave the answers.
#[test]
fn first_cuts(rt: HostRuntime) -> Result<(), Fail> {
    for (text, expected) in [
        (
            "7 7/1 1 1 0 1 1 0/0 0 0 -1 1 1 0/1 0 1 1 0 0 0/0 0 0 0 1 0 1/0 1 1 0 1 0 0/0 1 1 0 1 0 1/0 0 0 0 0 -1 1/",
            "0 1 2/0 1 2 3/",
        ),
        ("4 4/1 1 0 0/1 0 0 0/1 0 1 1/0 1 -1 0/", "0 1/0 3/"),
        ("3 5/-1 1 0 0 0/1 1 1 0 0/1 1 0 1 -1/", "0 1/0 2/"),
        (
            "5 5/0 0 0 0 1/-1 1 0 -1 0/0 1 -1 -1 -1/1 0 -1 0 0/0 0 0 0 -1/",
            "0 4/1 3/",
        ),
        (CIRCULANT, "none/"),
    ] {
        is_text(
            &rt,
            &first_cut_text(rt.alloc(), &matrix(rt.alloc(), text)?)?,
            expected,
        )?;
    }
    Ok(())
}

// The lines of the first child, and the lines of the second.
fn pair_text(alloc: Global, pair: &LineSetPair) -> Result<Vec<u8>, Fail> {
    let mut text = lines_text(alloc, &pair.one)?;
    text.extend_from_slice(&lines_text(alloc, &pair.two)?)?;
    Ok(text)
}

// The lines of the children of the first two-separation.
fn two_children(alloc: Global, matrix: &Matrix) -> Result<Vec<u8>, Fail> {
    let lines = LineSet::all(alloc, matrix.rows(), matrix.columns())?;
    match two_separation(alloc, matrix)? {
        Some(two) => pair_text(alloc, &two_parts(alloc, &lines, &two)?),
        None => bytes(alloc, "none/"),
    }
}

// The lines of the children of the first three-separation.
fn three_children<R: Threads + Sync + AllocGlobal>(
    rt: &R,
    matrix: &Matrix,
) -> Result<Vec<u8>, Fail> {
    let lines = LineSet::all(rt.alloc(), matrix.rows(), matrix.columns())?;
    match three_separation(rt, rt.alloc(), matrix, 1)? {
        Some(three) => pair_text(rt.alloc(), &three_parts(rt.alloc(), &lines, &three)?),
        None => bytes(rt.alloc(), "none/"),
    }
}

// Each child has its side, and the row or the column of the other side.
#[test]
fn children_of_a_two_sum(rt: HostRuntime) -> Result<(), Fail> {
    let sum = matrix(rt.alloc(), "4 4/1 1 0 0/1 -1 0 0/0 1 1 1/0 1 1 -1/")?;
    is_text(
        &rt,
        &two_children(rt.alloc(), &sum)?,
        "0 2 3/1 2 3/0 1/0 1/",
    )
}

// Each child has its side, and the connector of the other side.
#[test]
fn children_of_three_sums(rt: HostRuntime) -> Result<(), Fail> {
    for (text, expected) in [
        (
            "7 7/1 1 1 0 1 1 0/0 0 0 -1 1 1 0/1 0 1 1 0 0 0/0 0 0 0 1 0 1/0 1 1 0 1 0 0/0 1 1 0 1 0 1/0 0 0 0 0 -1 1/",
            "0 1 3 4 5 6/1 4 5 6/0 1 2 4/0 1 2 3 4 5/",
        ),
        (
            "4 4/1 1 0 0/1 0 0 0/1 0 1 1/0 1 -1 0/",
            "0 1 2 3/0 1 2/0 2 3/0 1 2 3/",
        ),
    ] {
        let sum = matrix(rt.alloc(), text)?;
        is_text(&rt, &three_children(&rt, &sum)?, expected)?;
    }
    Ok(())
}
