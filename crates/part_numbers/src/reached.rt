// Lines that are reached, and the lines with a nonzero in them.
ghost use Rattle.std.specs.Prelude.{◌≡◌, ◌↔◌, false, IfOk, IsTrue, OnOk};
ghost use Rattle.sparse_matrix.specs.SparseRows.{AreCrossed, AreSparseRows};
ghost use Rattle.sparse_core.specs.TwoCores.{IsSparseLine};
ghost use Rattle.part_numbers.specs.PartSearches.{AreMarksOf, IsFirstSearch, IsFree, IsSized, ReachesLine, crossing_line, is_reached, line_run};

use cmr_base::{Line, Memory};
use sparse_core::TwoCore;
use sparse_matrix::{Nonzero, SparseMatrix};
use std::alloc::Global;

/// The numbers so far, a mark for each line that has one, and these lines in the order in which they are reached.
#[derive(Debug, Drop)]
pub struct Search {
    pub of_rows: Vec<u32>,
    pub of_columns: Vec<u32>,
    pub rows: Vec<bool>,
    pub columns: Vec<bool>,
    pub queue: Vec<Line>,
}

/// No line is reached.
pub fn first_search(alloc: Global, rows: &SparseMatrix) -> Result<Search, Memory>
    ensures { IfOk result (IsFirstSearch rows.now) }
{
    let height = rows.rows() as usize;
    let width = rows.columns() as usize;
    Ok(Search {
        of_rows: vec![in alloc; 0; height]?,
        of_columns: vec![in alloc; 0; width]?,
        rows: vec![in alloc; false; height]?,
        columns: vec![in alloc; false; width]?,
        queue: Vec::new(alloc),
    })
}

/// Whether a line of the core is not reached.
pub fn is_free(search: &Search, core: &TwoCore, _rows: &SparseMatrix, line: Line) -> bool
    requires marks { AreMarksOf _rows.now core.now }
    requires sized { IsSized _rows.now search.now }
    requires line { IsSparseLine _rows.now line }
    ensures { IsTrue result ↔ IsFree core.now search.now line }
{
    match line {
        Line::Row(row) => core.rows[row as usize] && !search.rows[row as usize],
        Line::Column(column) => core.columns[column as usize] && !search.columns[column as usize],
    }
}

/// Reaches a line with a number.
pub fn reach_line(
    search: &mut Search,
    _rows: &SparseMatrix,
    line: Line,
    part: u32,
) -> Result<(), Memory>
    requires sized { IsSized _rows.now search.old }
    requires line { IsSparseLine _rows.now line }
    requires free { is_reached search.old line ≡ false }
    ensures sized { OnOk result (IsSized _rows.now search.new) }
    ensures reaches { OnOk result (ReachesLine search.old search.new line part) }
{
    search.queue.push(line)?;
    match line {
        Line::Row(row) => {
            search.rows[row as usize] = true;
            search.of_rows[row as usize] = part;
        }
        Line::Column(column) => {
            search.columns[column as usize] = true;
            search.of_columns[column as usize] = part;
        }
    }
    Ok(())
}

/// The line with this number that crosses a line.
pub fn crossing(line: Line, number: u32) -> Line
    ensures { result ≡ crossing_line line number }
{
    match line {
        Line::Row(_) => Line::Column(number),
        Line::Column(_) => Line::Row(number),
    }
}

/// The nonzeros of a line. `columns` is the transposed matrix.
pub fn nonzeros_of<'a>(
    rows: &'a SparseMatrix,
    columns: &'a SparseMatrix,
    line: Line,
) -> &'a [Nonzero]
    requires crossed { AreCrossed rows.now columns.now }
    requires line { IsSparseLine rows.now line }
    ensures run { result.now ≡ line_run rows.now columns.now line }
    ensures shape { AreSparseRows rows.now }
    ensures columns_shape { AreSparseRows columns.now }
{
    let _height = rows.rows();
    let _width = columns.rows();
    match line {
        Line::Row(row) => rows.row(row),
        Line::Column(column) => columns.row(column),
    }
}
