// The first cycle place whose sum is 2 modulo 4.
ghost use Rattle.std.specs.Prelude.{◌≡◌, ◌≢◌, ◌<◌, ◌≤◌, ◌+◌, ◌↔◌, ℕ, List, pos, IsTrue, IfOk, MatchOption};
ghost use Rattle.cmr_base.specs.Matrix.{height, entry};
ghost use Rattle.cmr_base.specs.CyclePlaces.{HasNoCycleFault, IsCyclePlace, IsFaultAt};
ghost use Rattle.camion_sign.specs.Walks.{HasFoundPaths, HasPlacesAndMarks, HasWalked, place_in};
ghost use Rattle.camion_sign.specs.FaultLines.{HasNoFaultAt, IsColumnFault, IsFirstFault};
ghost use Rattle.camion_sign.specs.NearColumns.{HasNearRoom, HasWaiting, KnowsNear};
ghost use Rattle.network_orient.specs.FirstRows.{HasNoFaultBefore};

use crate::near_columns::NearColumns;
use crate::network_rows::passed_prefix;
use crate::reach::{Start, flipped, walk_from};
use crate::walk::{UNREACHED, Walk};
use cmr_base::{BitSet, Memory, RowsAndColumns};
use std::alloc::Global;

// A search for a tree begins after this number of rows, so that an early fault is found without it.
const EARLY: u32 = 64;

/// A place whose cycle has the sum 2 modulo 4: its row and its two columns, and its path.
#[derive(Drop)]
pub struct Fault {
    pub row: u32,
    pub first: u32,
    pub last: u32,
    pub lines: Vec<u32>,
}

/// The first fault in the order of places. The rows before a given row have none. After some rows, the search skips those that
/// a tree shows to have none.
pub fn first_fault(
    alloc: Global,
    matrix: &RowsAndColumns<'_>,
    first: u32,
) -> Result<Option<Fault>, Memory>
    requires passed { HasNoFaultBefore matrix.now first }
    ensures { IfOk result (λ found. MatchOption found
        (HasNoCycleFault (entry matrix.now))
        (λ f. IsFirstFault matrix.now f.row f.first f.last f.lines.items)) }
{
    if first >= matrix.rows() {
        return Ok(None);
    }
    let mut walk = Walk::new(alloc, matrix.rows(), matrix.columns())?;
    let mut near = NearColumns::new(alloc, matrix.columns())?;
    let early = early_end(first, matrix.rows());
    if let Some(fault) = fault_in_rows(alloc, matrix, &mut walk, &mut near, first, early)? {
        return Ok(Some(fault));
    }
    let later = passed_prefix(alloc, matrix, early)?;
    fault_in_rows(alloc, matrix, &mut walk, &mut near, later, matrix.rows())
}

// The end of the first rows that are searched without a search for a tree.
fn early_end(first: u32, rows: u32) -> u32
    requires { first < rows }
    ensures { result ≤ rows }
{
    first + EARLY.min(rows - first)
}

// The first fault, if it is in the rows before `end`. The rows before a given row have none.
fn fault_in_rows(
    alloc: Global,
    matrix: &RowsAndColumns<'_>,
    walk: &mut Walk,
    near: &mut NearColumns,
    first: u32,
    end: u32,
) -> Result<Option<Fault>, Memory>
    requires fits { HasPlacesAndMarks matrix.now walk.old }
    requires room { HasNearRoom matrix.now near.old }
    requires passed { HasNoFaultBefore matrix.now first }
    requires end { end ≤ height matrix.now }
    ensures found { IfOk result (λ found. MatchOption found
        (HasNoFaultBefore matrix.now end)
        (λ f. IsFirstFault matrix.now f.row f.first f.last f.lines.items)) }
    ensures fits { IfOk result (λ found. HasPlacesAndMarks matrix.now walk.new) }
    ensures room { IfOk result (λ found. HasNearRoom matrix.now near.new) }
{
    for row in first..end {
        if let Some(fault) = fault_of_row(alloc, matrix, walk, near, row)? {
            return Ok(Some(fault));
        }
    }
    Ok(None)
}

// The first fault of a row.
fn fault_of_row(
    alloc: Global,
    matrix: &RowsAndColumns<'_>,
    walk: &mut Walk,
    near: &mut NearColumns,
    row: u32,
) -> Result<Option<Fault>, Memory>
    requires row { row < height matrix.now }
    requires fits { HasPlacesAndMarks matrix.now walk.old }
    requires room { HasNearRoom matrix.now near.old }
    ensures found { IfOk result (λ found. MatchOption found
        ((x y : ℕ) → HasNoFaultAt matrix.now row x y)
        (λ f. (f.row ≡ row)
        × IsColumnFault matrix.now row f.first f.last f.lines.items
        × ((x y : ℕ) → x < f.first → HasNoFaultAt matrix.now row x y))) }
    ensures fits { IfOk result (λ found. HasPlacesAndMarks matrix.now walk.new) }
    ensures room { IfOk result (λ found. HasNearRoom matrix.now near.new) }
{
    near.begin(matrix, row);
    let mut from = 0;
    while let Some(column) = matrix.by_rows().next_nonzero(row, from) {
        let start = Start { row, column };
        if let Some(fault) = fault_at(alloc, matrix, walk, near, start)? {
            return Ok(Some(fault));
        }
        from = column + 1;
    }
    Ok(None)
}

// The same as `fault_from`. There is no walk if it is known without it that the first column has no fault.
fn fault_at(
    alloc: Global,
    matrix: &RowsAndColumns<'_>,
    walk: &mut Walk,
    near: &mut NearColumns,
    start: Start,
) -> Result<Option<Fault>, Memory>
    requires row { start.row < height matrix.now }
    requires column { start.column < matrix.now.width }
    requires first { entry matrix.now start.row start.column ≢ pos 0 }
    requires fits { HasPlacesAndMarks matrix.now walk.old }
    requires knows { KnowsNear matrix.now start.row start.column near.old }
    ensures found { IfOk result (λ found. MatchOption found
        ((y : ℕ) → HasNoFaultAt matrix.now start.row start.column y)
        (λ f. (f.row ≡ start.row)
        × (f.first ≡ start.column)
        × IsColumnFault matrix.now start.row start.column f.last f.lines.items)) }
    ensures fits { IfOk result (λ found. HasPlacesAndMarks matrix.now walk.new) }
    ensures knows { IfOk result (λ found.
        KnowsNear matrix.now start.row (start.column + 1) near.new) }
{
    if near.has_no_fault(matrix, start) {
        return Ok(None);
    }
    fault_from(alloc, matrix, walk, start, &near.waiting)
}

// The fault of a row and a first column with the least last column.
fn fault_from(
    alloc: Global,
    matrix: &RowsAndColumns<'_>,
    walk: &mut Walk,
    start: Start,
    waiting: &BitSet,
) -> Result<Option<Fault>, Memory>
    requires row { start.row < height matrix.now }
    requires column { start.column < matrix.now.width }
    requires first { entry matrix.now start.row start.column ≢ pos 0 }
    requires fits { HasPlacesAndMarks matrix.now walk.old }
    requires waiting { HasWaiting matrix.now start.row start.column waiting.now }
    ensures found { IfOk result (λ found. MatchOption found
        ((y : ℕ) → HasNoFaultAt matrix.now start.row start.column y)
        (λ f. (f.row ≡ start.row)
        × (f.first ≡ start.column)
        × IsColumnFault matrix.now start.row start.column f.last f.lines.items)) }
    ensures fits { IfOk result (λ found. HasPlacesAndMarks matrix.now walk.new) }
{
    walk_from(matrix, matrix.by_rows(), walk, start, waiting)?;
    let mut from = start.column + 1;
    while let Some(last) = matrix.by_rows().next_nonzero(start.row, from) {
        if is_fault(matrix, walk, start, last) {
            return Ok(Some(Fault {
                row: start.row,
                first: start.column,
                last,
                lines: path_to(alloc, matrix, walk, start, last)?,
            }));
        }
        from = last + 1;
    }
    Ok(None)
}

// Whether the cycle of a place has the sum 2 modulo 4.
fn is_fault(matrix: &RowsAndColumns<'_>, walk: &Walk, start: Start, last: u32) -> bool
    requires row { start.row < height matrix.now }
    requires order { start.column < last }
    requires width { last < matrix.now.width }
    requires first { entry matrix.now start.row start.column ≢ pos 0 }
    requires walked { HasWalked matrix.now matrix.now start.row start.column walk.now }
    ensures reached { IsTrue result → place_in walk.now.places.items last < UNREACHED }
    ensures fault { IsTrue result
        ↔ ((path : List ℕ) × IsFaultAt (entry matrix.now) start.row start.column last path) }
{
    if matrix.entry(start.row, last) == 0 || !walk.has_reached(last) {
        return false;
    }
    let step = walk.steps[walk.places[last as usize] as usize];
    let is_same = matrix.entry(start.row, start.column) == matrix.entry(start.row, last);
    flipped(step.is_two, is_same)
}

// The path of a place, from its last column back to its first.
pub fn path_to(
    alloc: Global,
    matrix: &RowsAndColumns<'_>,
    walk: &Walk,
    start: Start,
    last: u32,
) -> Result<Vec<u32>, Memory>
    requires order { start.column < last }
    requires width { last < matrix.now.width }
    requires first { entry matrix.now start.row start.column ≢ pos 0 }
    requires last { entry matrix.now start.row last ≢ pos 0 }
    requires walked { HasFoundPaths matrix.now start.row start.column walk.now }
    requires reached { place_in walk.now.places.items last < UNREACHED }
    ensures { IfOk result (λ lines.
        IsCyclePlace (entry matrix.now) start.row start.column last lines.items) }
{
    let step = walk.steps[walk.places[last as usize] as usize];
    let mut lines = vec![in alloc; step.row; 1]?;
    let mut place = step.before as usize;
    while place != 0 {
        let step = walk.steps[place];
        lines.push(step.column)?;
        lines.push(step.row)?;
        place = step.before as usize;
    }
    lines.reverse();
    Ok(lines)
}
