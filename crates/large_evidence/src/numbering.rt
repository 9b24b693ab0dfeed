// The part of each line, and its place in the part.
ghost use Rattle.std.specs.Prelude.{◌≡◌, ◌<◌, ◌↔◌, ℕ, true, length, slice_index_or, IfOk, IsTrue, OnOk};
ghost use Rattle.std.specs.List.{AllByRecursion};
ghost use Rattle.std.specs.List.Sorted.{IsStrictlyIncreasing};
ghost use Rattle.sparse_matrix.specs.LineMarks.{is_marked};
ghost use Rattle.sparse_matrix.specs.SparseRows.{IsNonzeroWithin, sparse_entry, value_in};
ghost use Rattle.part_numbers.specs.PartNumbering.{AreRowsTogether, IsInPart, IsRowTogether};
ghost use Rattle.large_evidence.specs.LineDivisions.{AreAtNumbers, AreTheirPlaces, HasPlacesFor, IsCovered, IsAtNumber, lines_at, lines_of_side};
ghost use Rattle.large_evidence.specs.RemovedMarks.{HasMarksFor};

use crate::evidence::PartEvidence;
use crate::lines_left::LinesLeft;
use cmr_base::Memory;
use sparse_matrix::{Nonzero, SparseMatrix};
use std::alloc::Global;

/// Rows or columns.
#[derive(Clone, Copy, Debug, PartialEq, Eq)]
pub enum Side {
    Rows,
    Columns,
}

/// For each row, or each column: the number of its part, and its place in the part.
#[derive(Debug, Drop)]
pub struct PartPlaces {
    pub numbers: Vec<usize>,
    pub places: Vec<u32>,
}

fn lines_of(part: &PartEvidence, side: Side) -> &[u32]
    ensures lines { result.now ≡ lines_of_side side part.now.lines }
    ensures increasing { IsStrictlyIncreasing result.now }
{
    match side {
        Side::Rows => part.lines.rows.as_slice(),
        Side::Columns => part.lines.columns.as_slice(),
    }
}

// Writes the number of a part and the place of each of its lines.
fn write_part(found: &mut PartPlaces, lines: &[u32], number: usize, _count: usize)
    requires { HasPlacesFor _count found.old }
    ensures { HasPlacesFor _count found.new }
{
    let mut place = 0u32;
    for line in lines {
        if (*line as usize) < found.numbers.len() {
            found.numbers[*line as usize] = number;
            found.places[*line as usize] = place;
        }
        place = place.saturating_add(1);
    }
}

/// The number of the part of each of `count` lines, and its place there. A line in no part gets no number of a part.
pub fn part_places(
    alloc: Global,
    parts: &[PartEvidence],
    side: Side,
    count: usize,
) -> Result<PartPlaces, Memory>
    ensures { IfOk result (HasPlacesFor count) }
{
    let mut found = PartPlaces {
        numbers: vec![in alloc; parts.len(); count]?,
        places: vec![in alloc; 0u32; count]?,
    };
    for number in 0..parts.len() {
        write_part(&mut found, lines_of(&parts[number], side), number, count);
    }
    Ok(found)
}

fn is_numbered(found: &PartPlaces, marks: &[bool], number: usize, place: usize, line: u32) -> bool
    requires { HasPlacesFor (length marks.now) found.now }
    ensures { IsTrue result
        ↔ IsAtNumber marks.now found.now.numbers.items found.now.places.items number place line }
{
    let index = line as usize;
    index < marks.len()
        && marks[index]
        && found.numbers[index] == number
        && found.places[index] as usize == place
}

// Whether each line of a part is marked, with the number of the part and its place.
fn are_numbered(found: &PartPlaces, marks: &[bool], number: usize, lines: &[u32]) -> bool
    requires { HasPlacesFor (length marks.now) found.now }
    ensures { IsTrue result
        ↔ AreAtNumbers marks.now found.now.numbers.items found.now.places.items number lines.now }
{
    for place in 0..lines.len() {
        if !is_numbered(found, marks, number, place, lines[place]) {
            return false;
        }
    }
    true
}

fn is_covered(found: &PartPlaces, parts: &[PartEvidence], side: Side, line: usize) -> bool
    requires numbers { line < length found.now.numbers.items }
    requires places { line < length found.now.places.items }
    ensures { IsTrue result
        ↔ IsCovered found.now.numbers.items found.now.places.items
        (lines_at side parts.now) (length parts.now) line }
{
    let number = found.numbers[line];
    if number >= parts.len() {
        return false;
    }
    let lines = lines_of(&parts[number], side);
    let place = found.places[line] as usize;
    if place >= lines.len() {
        return false;
    }
    lines[place] as usize == line
}

// Whether the parts have only marked lines, each with its number and its place.
fn are_all_numbered(found: &PartPlaces, marks: &[bool], parts: &[PartEvidence], side: Side) -> bool
    requires { HasPlacesFor (length marks.now) found.now }
    ensures { IsTrue result
        ↔ ((part : ℕ) → part < length parts.now
        → AreAtNumbers marks.now found.now.numbers.items found.now.places.items part
        (lines_at side parts.now part)) }
{
    for number in 0..parts.len() {
        if !are_numbered(found, marks, number, lines_of(&parts[number], side)) {
            return false;
        }
    }
    true
}

// Whether each marked line is at its place.
fn are_all_covered(found: &PartPlaces, marks: &[bool], parts: &[PartEvidence], side: Side) -> bool
    requires { HasPlacesFor (length marks.now) found.now }
    ensures { IsTrue result
        ↔ ((line : ℕ) → is_marked marks.now line ≡ true
        → IsCovered found.now.numbers.items found.now.places.items
        (lines_at side parts.now) (length parts.now) line) }
{
    for line in 0..marks.len() {
        if marks[line] && !is_covered(found, parts, side, line) {
            return false;
        }
    }
    true
}

/// Whether these are the numbers and places of the marked lines in the parts.
pub fn are_places(found: &PartPlaces, marks: &[bool], parts: &[PartEvidence], side: Side) -> bool
    requires { HasPlacesFor (length marks.now) found.now }
    ensures { IsTrue result
        ↔ AreTheirPlaces marks.now found.now.numbers.items found.now.places.items
        (lines_at side parts.now) (length parts.now) }
{
    are_all_numbered(found, marks, parts, side) && are_all_covered(found, marks, parts, side)
}

// Whether the nonzeros of a run in marked lines are in lines with this number.
fn is_in_part(run: &[Nonzero], marks: &[bool], numbers: &[usize], number: usize) -> bool
    requires run { AllByRecursion (IsNonzeroWithin (length marks.now)) run.now }
    requires numbers { length numbers.now ≡ length marks.now }
    ensures { IsTrue result ↔ IsInPart (value_in run.now) marks.now numbers.now number }
{
    for nonzero in run {
        let line = nonzero.line as usize;
        if marks[line] && numbers[line] != number {
            return false;
        }
    }
    true
}

/// Whether each nonzero of marked lines is in a row and a column with one number.
pub fn are_together(
    rows: &SparseMatrix,
    left: &LinesLeft,
    of_rows: &[usize],
    of_columns: &[usize],
) -> bool
    requires marks { HasMarksFor rows.now left.now }
    requires of_rows { length of_rows.now ≡ length rows.now.runs }
    requires of_columns { length of_columns.now ≡ rows.now.width }
    ensures { IsTrue result
        ↔ AreRowsTogether (sparse_entry rows.now) left.now.rows.items left.now.columns.items
        of_rows.now of_columns.now }
{
    for row in 0..rows.rows() {
        let number = of_rows[row as usize];
        if left.rows[row as usize]
            && !is_in_part(rows.row(row), &left.columns, of_columns, number)
        {
            return false;
        }
    }
    true
}
