// The search for the connected parts of a core: each line that is reached is followed to the lines with a nonzero in it.
ghost use Rattle.std.specs.Prelude.{◌≡◌, ◌<◌, ◌≤◌, ◌+◌, IfOk, OnOk, length, true};
ghost use Rattle.cmr_base.specs.Matrix.{entry};
ghost use Rattle.ghouila.specs.Found.{marked};
ghost use Rattle.sparse_matrix.specs.SparseRows.{AreCrossed, matrix_of_runs};
ghost use Rattle.sparse_core.specs.TwoCores.{HaveTwo, IsSparseLine};
ghost use Rattle.part_numbers.specs.ConnectedParts.{AreConnectedParts, AreInOrder};
ghost use Rattle.part_numbers.specs.PartNumbering.{ArePartsBy};
ghost use Rattle.part_numbers.specs.PartSearches.{AreAdjacent, AreFollowedTo, AreMarksOf, GrowsPart, FollowsAll, HasRowsBefore, IsFirstSearch, IsFollowed, IsReachedWith, ReachesLines, is_in_core, is_reached};

use crate::reached::{Search, crossing, first_search, is_free, nonzeros_of, reach_line};
use cmr_base::{Line, Memory};
use sparse_core::TwoCore;
use sparse_matrix::SparseMatrix;
use std::alloc::Global;

/// A number for each row and each column, below the count. Only those of lines of the core have a meaning.
#[derive(Debug, Drop)]
pub struct Parts {
    pub of_rows: Vec<u32>,
    pub of_columns: Vec<u32>,
    pub count: u32,
}

// Reaches a line with a nonzero in a line that is reached, if it is a line of the core.
fn reach_from(
    search: &mut Search,
    core: &TwoCore,
    rows: &SparseMatrix,
    _from: Line,
    line: Line,
    part: u32,
) -> Result<(), Memory>
    requires marks { AreMarksOf rows.now core.now }
    requires line { IsSparseLine rows.now line }
    requires grows { GrowsPart rows.now core.now part search.old }
    requires from { is_reached search.old _from ≡ true }
    requires adjacent { AreAdjacent (entry (matrix_of_runs rows.now)) _from line }
    ensures grows { OnOk result (GrowsPart rows.now core.now part search.new) }
    ensures reaches { OnOk result (ReachesLines part search.old search.new) }
    ensures line { OnOk result (is_in_core core.now line ≡ true
        → IsReachedWith search.new line _from) }
{
    if !is_free(search, core, rows, line) {
        return Ok(());
    }
    reach_line(search, rows, line, part)?;
    Ok(())
}

// Follows a line: reaches the lines of the core with a nonzero in it.
fn follow(
    search: &mut Search,
    core: &TwoCore,
    rows: &SparseMatrix,
    columns: &SparseMatrix,
    line: Line,
    part: u32,
) -> Result<(), Memory>
    requires crossed { AreCrossed rows.now columns.now }
    requires marks { AreMarksOf rows.now core.now }
    requires grows { GrowsPart rows.now core.now part search.old }
    requires line { is_reached search.old line ≡ true }
    ensures grows { OnOk result (GrowsPart rows.now core.now part search.new) }
    ensures reaches { OnOk result (ReachesLines part search.old search.new) }
    ensures followed { OnOk result (IsFollowed rows.now core.now search.new line) }
{
    let run = nonzeros_of(rows, columns, line);
    for nonzero in run {
        reach_from(search, core, rows, line, crossing(line, nonzero.line), part)?;
    }
    Ok(())
}

// Follows the lines of the queue from a place on, also those that it reaches.
fn walk(
    search: &mut Search,
    core: &TwoCore,
    rows: &SparseMatrix,
    columns: &SparseMatrix,
    from: usize,
    part: u32,
) -> Result<(), Memory>
    requires crossed { AreCrossed rows.now columns.now }
    requires marks { AreMarksOf rows.now core.now }
    requires grows { GrowsPart rows.now core.now part search.old }
    requires followed { AreFollowedTo rows.now core.now search.old from }
    ensures followed { OnOk result (FollowsAll rows.now core.now (part + 1) search.new) }
    ensures reaches { OnOk result (ReachesLines part search.old search.new) }
{
    let mut place = from;
    'lines: while place < search.queue.len() {
        let line = search.queue[place];
        place += 1;
        follow(search, core, rows, columns, line, part)?;
    }
    Ok(())
}

// Reaches the lines of the part of a row, if it is a row of the core that is not reached. Returns the number of parts.
fn find_part(
    search: &mut Search,
    core: &TwoCore,
    rows: &SparseMatrix,
    columns: &SparseMatrix,
    row: u32,
    part: u32,
) -> Result<u32, Memory>
    requires crossed { AreCrossed rows.now columns.now }
    requires marks { AreMarksOf rows.now core.now }
    requires row { row < length rows.now.runs }
    requires part { part ≤ row }
    requires followed { FollowsAll rows.now core.now part search.old }
    requires before { HasRowsBefore core.now search.old row part }
    ensures followed { IfOk result (λ count. FollowsAll rows.now core.now count search.new) }
    ensures before { IfOk result (HasRowsBefore core.now search.new (row + 1)) }
    ensures count { IfOk result (λ count. count ≤ row + 1) }
{
    let height = rows.rows();
    prove!(part < height);
    let line = Line::Row(row);
    if !is_free(search, core, rows, line) {
        return Ok(part);
    }
    let from = search.queue.len();
    reach_line(search, rows, line, part)?;
    walk(search, core, rows, columns, from, part)?;
    Ok(part + 1)
}

// Reaches the lines of all parts, in the order of their first rows. Returns how many there are.
fn find_all(
    search: &mut Search,
    core: &TwoCore,
    rows: &SparseMatrix,
    columns: &SparseMatrix,
) -> Result<u32, Memory>
    requires crossed { AreCrossed rows.now columns.now }
    requires marks { AreMarksOf rows.now core.now }
    requires first { IsFirstSearch rows.now search.old }
    ensures followed { IfOk result (λ count. FollowsAll rows.now core.now count search.new) }
    ensures before { IfOk result (HasRowsBefore core.now search.new (length rows.now.runs)) }
{
    let mut part = 0;
    for row in 0..rows.rows() {
        part = find_part(search, core, rows, columns, row, part)?;
    }
    Ok(part)
}

/// The connected parts of a core, numbered in the order of their first rows, in linear time. `columns` is the transposed matrix.
pub fn find_parts(
    alloc: Global,
    core: &TwoCore,
    rows: &SparseMatrix,
    columns: &SparseMatrix,
) -> Result<Parts, Memory>
    requires crossed { AreCrossed rows.now columns.now }
    requires marks { AreMarksOf rows.now core.now }
    requires two { HaveTwo (entry (matrix_of_runs rows.now)) (marked core.now.rows.items)
        (marked core.now.columns.items) }
    ensures of_rows { IfOk result (λ parts. length parts.of_rows.items ≡ length rows.now.runs) }
    ensures of_columns { IfOk result (λ parts. length parts.of_columns.items ≡ rows.now.width) }
    ensures parts { IfOk result (λ parts. ArePartsBy (entry (matrix_of_runs rows.now))
        core.now.rows.items core.now.columns.items parts.of_rows.items parts.of_columns.items
        parts.count) }
    ensures connected { IfOk result (λ parts. AreConnectedParts (entry (matrix_of_runs rows.now))
        core.now.rows.items core.now.columns.items parts.of_rows.items parts.of_columns.items
        parts.count) }
    ensures ordered { IfOk result (λ parts. AreInOrder core.now.rows.items parts.of_rows.items
        parts.count) }
{
    let mut search = first_search(alloc, rows)?;
    let count = find_all(&mut search, core, rows, columns)?;
    Ok(Parts {
        of_rows: search.of_rows,
        of_columns: search.of_columns,
        count,
    })
}
