// Walks from the first column of the places of a row.
ghost use Rattle.std.specs.Prelude.{◌≡◌, ◌≢◌, ◌<◌, ◌≤◌, ◌+◌, ◌*◌, ◌⊎◌, ℕ, pos, true, false, IfOk, OnOk};
ghost use Rattle.cmr_base.specs.Matrix.{height, entry};
ghost use Rattle.cmr_base.specs.ColumnSets.{has_column};
ghost use Rattle.cmr_base.specs.Planes.{words_for};
ghost use Rattle.camion_sign.specs.NearColumns.{HasWaiting};
ghost use Rattle.camion_sign.specs.Walks.{HasPlacesAndMarks, HasValuesBefore, IsReaching, IsReachingChunk, IsWalking, IsOpen, GrowsFrom, HasSettled, HasWalked, IsUntouched, HasOneMore, NoneWaits, step_at, place_in, flip};

use crate::line_words::{column_words, row_words};
use crate::row_signs::{has_one_sign, is_in};
use crate::walk::{ReachedColumn, UNREACHED, Walk};
use cmr_base::columns::outside;
use cmr_base::{BitSet, Matrix, Memory, RowsAndColumns, with_bit};
use std::alloc::Global;

/// The row and the first column of a set of places.
#[derive(Clone, Copy)]
pub struct Start {
    pub row: u32,
    pub column: u32,
}

/// Walks until each waiting column after the first one is reached. The walk is breadth-first: it uses the rows before the row of
/// the places, passes through columns in which that row is 0, and takes lines in increasing order. So it reaches each column by
/// the least of its shortest paths. The sums are those of the values in the positions of the nonzeros.
pub fn walk_from(
    matrix: &RowsAndColumns<'_>,
    values: &Matrix,
    walk: &mut Walk,
    start: Start,
    waiting: &BitSet,
) -> Result<(), Memory>
    requires row { start.row < height matrix.now }
    requires column { start.column < matrix.now.width }
    requires values { HasValuesBefore matrix.now values.now start.row }
    requires waiting { HasWaiting matrix.now start.row start.column waiting.now }
    requires fits { HasPlacesAndMarks matrix.now walk.old }
    ensures { OnOk result (HasWalked matrix.now values.now start.row start.column walk.new) }
{
    walk.begin(start.column)?;
    pass_earlier(matrix, start, &mut walk.reached);
    let ends = row_words(matrix, start.row);
    let mut head = 0;
    let mut pending = first_waiting(walk, waiting, start.column + 1);
    while head < walk.steps.len() && pending < matrix.columns() {
        if head == 0 || !is_in(ends, walk.steps[head].column) {
            pending = reach_rows(matrix, values, walk, start, waiting, head, pending)?;
        }
        head += 1;
    }
    Ok(())
}

// Adds the columns of the row that are before the first column. No path goes on through them, and none of them is a last column.
fn pass_earlier(matrix: &RowsAndColumns<'_>, start: Start, reached: &mut BitSet)
    requires row { start.row < height matrix.now }
    requires size { reached.old.size ≡ matrix.now.width }
    requires column { start.column < matrix.now.width }
    ensures size { reached.new.size ≡ reached.old.size }
    ensures only { (x : ℕ) → has_column reached.new.words x ≡ true
        → (has_column reached.old.words x ≡ true)
        ⊎ ((entry matrix.now start.row x ≢ pos 0) × (x < start.column)) }
    ensures kept { (x : ℕ) → has_column reached.old.words x ≡ true
        → has_column reached.new.words x ≡ true }
{
    let mut from = 0;
    while let Some(column) = matrix.by_rows().next_nonzero(start.row, from) {
        if column >= start.column {
            return;
        }
        reached.insert(column);
        from = column + 1;
    }
}

// Takes the rows that meet the column at a position of the walk, until no last column waits.
fn reach_rows(
    matrix: &RowsAndColumns<'_>,
    values: &Matrix,
    walk: &mut Walk,
    start: Start,
    waiting: &BitSet,
    head: usize,
    pending: u32,
) -> Result<u32, Memory>
    requires row { start.row < height matrix.now }
    requires values { HasValuesBefore matrix.now values.now start.row }
    requires waiting { HasWaiting matrix.now start.row start.column waiting.now }
    requires open { IsOpen matrix.now start.row head walk.old }
    requires walking { IsWalking matrix.now values.now start.row start.column head 0 walk.old }
    requires pending { pending ≤ matrix.now.width }
    requires waits { NoneWaits matrix.now start.row start.column pending walk.old.places.items }
    ensures walk { IfOk result (λ pending.
        IsWalking matrix.now values.now start.row start.column (head + 1) 0 walk.new
        ⊎ ((pending ≡ matrix.now.width)
        × HasSettled matrix.now values.now start.row start.column walk.new)) }
    ensures pending { IfOk result (λ pending. pending ≤ matrix.now.width) }
    ensures waits { IfOk result (λ pending.
        NoneWaits matrix.now start.row start.column pending walk.new.places.items) }
{
    let rows = column_words(matrix, walk.steps[head].column);
    let mut pending = pending;
    let mut low = 0;
    while let Some(row) = walk.next_unused(rows, low) {
        if row >= start.row {
            return Ok(pending);
        }
        reach_row(matrix, values, walk, start, head, row)?;
        pending = first_waiting(walk, waiting, pending);
        if pending == matrix.columns() {
            return Ok(pending);
        }
        low = row + 1;
    }
    Ok(pending)
}

// Reaches the columns of a row that the walk needs and has not reached before.
fn reach_row(
    matrix: &RowsAndColumns<'_>,
    values: &Matrix,
    walk: &mut Walk,
    start: Start,
    head: usize,
    row: u32,
) -> Result<(), Memory>
    requires row { start.row < height matrix.now }
    requires early { row < start.row }
    requires values { HasValuesBefore matrix.now values.now start.row }
    requires open { IsOpen matrix.now start.row head walk.old }
    requires leads { entry matrix.now row (step_at walk.old.steps.items head).column ≢ pos 0 }
    requires walking { IsWalking matrix.now values.now start.row start.column head row walk.old }
    ensures walking { OnOk result
        (IsWalking matrix.now values.now start.row start.column head (row + 1) walk.new) }
    ensures grows { OnOk result (GrowsFrom walk.old walk.new) }
    ensures used { OnOk result (HasOneMore walk.old.used row walk.new.used) }
{
    let columns = row_words(matrix, row);
    for chunk in 0..columns.len() {
        let fresh = outside(columns[chunk], walk.reached.words()[chunk]);
        if fresh != 0 {
            reach_chunk(matrix, values, walk, start, head, row, chunk, fresh)?;
        }
    }
    walk.used.insert(row);
    Ok(())
}

// The same for the columns of one word of the row. The word has those that the walk has not reached.
fn reach_chunk(
    matrix: &RowsAndColumns<'_>,
    values: &Matrix,
    walk: &mut Walk,
    start: Start,
    head: usize,
    row: u32,
    chunk: usize,
    fresh: u64,
) -> Result<(), Memory>
    requires row { start.row < height matrix.now }
    requires early { row < start.row }
    requires chunk { chunk < words_for matrix.now.width }
    requires values { HasValuesBefore matrix.now values.now start.row }
    requires open { IsOpen matrix.now start.row head walk.old }
    requires leads { entry matrix.now row (step_at walk.old.steps.items head).column ≢ pos 0 }
    requires reaching { IsReachingChunk matrix.now values.now start.row start.column head row
        chunk fresh (step_at walk.old.steps.items head) walk.old walk.old }
    ensures { OnOk result (IsReaching matrix.now values.now start.row start.column head row
        (64 * chunk + 64) (step_at walk.old.steps.items head) walk.old walk.new) }
{
    let from = walk.steps[head];
    let minus = values.minus_words(row);
    let mut rest = fresh;
    'bits: while rest != 0 {
        let bit = rest.trailing_zeros();
        let column = 64 * chunk as u32 + bit;
        let is_same = has_one_sign(minus, from.column, column);
        walk.reach(ReachedColumn {
            column,
            row,
            before: head as u32,
            is_two: flipped(from.is_two, is_same),
        })?;
        rest = with_bit(rest, bit, false);
    }
    Ok(())
}

// The first waiting column that is at least `from` and that the walk has not reached. If there is none, the number of columns.
fn first_waiting(walk: &Walk, waiting: &BitSet, from: u32) -> u32
    requires size { waiting.now.size ≡ walk.now.reached.size }
    requires from { from ≤ waiting.now.size }
    ensures from { from ≤ result }
    ensures width { result ≤ waiting.now.size }
    ensures reached { (d : ℕ) → from ≤ d → d < result → has_column waiting.now.words d ≡ true
        → has_column walk.now.reached.words d ≡ true }
{
    match walk.next_unreached(waiting.words(), from) {
        Some(column) => column,
        None => waiting.size(),
    }
}

/// Whether an earlier row meets the column.
pub fn is_touched(matrix: &RowsAndColumns<'_>, row: u32, column: u32) -> bool
    requires { column < matrix.now.width }
    ensures { result ≡ false → IsUntouched matrix.now row column }
{
    match matrix.by_columns().next_nonzero(column, 0) {
        Some(first) => first < row,
        None => false,
    }
}

/// `is_odd`, negated if `is_same`.
pub fn flipped(is_odd: bool, is_same: bool) -> bool
    ensures { result ≡ flip is_odd is_same }
{
    if is_same { !is_odd } else { is_odd }
}
