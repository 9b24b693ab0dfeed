ghost use Rattle.std.specs.Prelude.{◌≡◌, ◌<◌, ◌*◌, ◌-ℤ◌, ◌*ℤ◌, pos, ℕ, [], ◌∷◌, slice_index, IfSome, IfNone, IsTrue, ◌↔◌};
ghost use Rattle.std.specs.List.{AllByRecursion, Contains};
ghost use Rattle.cmr_base.specs.Matrix.{Matrix, height, entry, IsEntry, IsMatrix};
ghost use Rattle.cmr_base.specs.LineSets.{AllBelow, IsRowSet};
ghost use Rattle.cmr_base.specs.Signing.{IsSign};
ghost use Rattle.cmr_base.specs.PlacedPivots.{reduced};
ghost use Rattle.ghouila.specs.Pivot.{IsOutside, IsTernaryRow, IsPivot, HasNoPivot, IsFirstPivot, ArePivotColumns, IsFirstTwoEntry, HasSquareViolator, KeepsRowsElsewhere, PivotsRows};

use cmr_base::{MAX_COLUMNS, Matrix, product};

/// The position of a pivot: the index of its row in the list of the remaining rows, and its column.
#[derive(Debug, Clone, Copy)]
pub struct PivotPlace {
    pub place: usize,
    pub column: u32,
}

/// A row and a column that are a violator together with the row and the column of a pivot.
#[derive(Debug, Clone, Copy)]
pub struct Corner {
    pub row: u32,
    pub column: u32,
}

/// Gives the first column with a positive even number of nonzeros in the remaining rows, and the first of these rows
/// with a nonzero in it.
pub fn first_pivot(work: &Matrix, left: &[u32]) -> Option<PivotPlace>
    requires { AllBelow (height work.now) left.now }
    ensures some { IfSome result (λ pivot.
        IsFirstPivot work.now left.now pivot.place pivot.column) }
    ensures none { IfNone result ((column : ℕ) → column < work.now.width
        → HasNoPivot work.now left.now column) }
    ensures shape { IsMatrix work.now }
{
    let chunks = (work.columns() + 63) / 64;
    for chunk in 0..chunks {
        let columns = pivot_columns(work, left, chunk);
        if columns != 0 {
            let column = 64 * chunk + columns.trailing_zeros();
            let place = pivot_in(work, left, column)?;
            return Some(PivotPlace { place, column });
        }
    }
    None
}

// Gives the columns of a chunk of 64, as bits, that have a positive even number of nonzeros in the remaining rows.
fn pivot_columns(work: &Matrix, left: &[u32], chunk: u32) -> u64
    requires shape { IsMatrix work.now }
    requires rows { AllBelow (height work.now) left.now }
    requires chunk { 64 * chunk < work.now.width }
    ensures { ArePivotColumns work.now left.now chunk result }
{
    let mut some = 0u64;
    let mut odd = 0u64;
    for row in left {
        let word = work.support_word(*row, chunk);
        some |= word;
        odd ^= word;
    }
    some & !odd
}

// Gives the index of the row with the column's first nonzero, if the column has a positive even number of nonzeros.
fn pivot_in(work: &Matrix, left: &[u32], column: u32) -> Option<usize>
    requires rows { AllBelow (height work.now) left.now }
    requires column { column < work.now.width }
    ensures some { IfSome result (λ place. IsPivot work.now left.now place column) }
    ensures first { IfSome result (λ place. (k : ℕ) → k < place
        → entry work.now (slice_index left.now k) column ≡ pos 0) }
    ensures none { IfNone result (HasNoPivot work.now left.now column) }
{
    let mut first = None;
    let mut odd = false;
    for (place, row) in left.iter().enumerate() {
        if work.entry(*row, column) != 0 {
            odd = !odd;
            if first.is_none() {
                first = Some(place);
            }
        }
    }
    if odd { None } else { first }
}

/// Gives the first entry in the remaining rows, by rows and then by columns, at which the pivot would give a 2 or a
/// -2.
pub fn first_square_violator(work: &Matrix, left: &[u32], row: u32, column: u32) -> Option<Corner>
    requires rows { AllBelow (height work.now) left.now }
    requires row { row < height work.now }
    requires column { column < work.now.width }
    requires nonzero { IsSign (entry work.now row column) }
    ensures some { IfSome result (λ corner. Contains left.now corner.row
        × HasSquareViolator work.now row column corner.row corner.column) }
    ensures first { IfSome result (λ corner. (place : ℕ)
        × (corner.row ≡ slice_index left.now place)
        × IsFirstTwoEntry work.now left.now row column place corner.column) }
    ensures none { IfNone result (AllByRecursion
        (λ other. IsTernaryRow work.now.width (reduced (entry work.now) row column other))
        left.now) }
{
    for other in left {
        if let Some(last) = square_violator_in(work, row, column, *other) {
            return Some(Corner {
                row: *other,
                column: last,
            });
        }
    }
    None
}

fn square_violator_in(work: &Matrix, row: u32, column: u32, other: u32) -> Option<u32>
    requires row { row < height work.now }
    requires column { column < work.now.width }
    requires other { other < height work.now }
    requires nonzero { IsSign (entry work.now row column) }
    ensures some { IfSome result (λ last. HasSquareViolator work.now row column other last) }
    ensures two { IfSome result (λ last.
        ¬ (IsEntry (reduced (entry work.now) row column other last))) }
    ensures first { IfSome result (λ last.
        IsTernaryRow last (reduced (entry work.now) row column other)) }
    ensures none { IfNone result (IsTernaryRow work.now.width (reduced (entry work.now) row column
        other)) }
{
    let factor = product(work.entry(row, column), work.entry(other, column));
    prove!(work.columns() <= MAX_COLUMNS);
    if factor == 0 {
        return None;
    }
    let mut from = 0;
    while let Some(last) = work.next_nonzero(row, from) {
        let left = reduced(work.entry(other, last), factor, work.entry(row, last));
        if !is_entry(left) {
            return Some(last);
        }
        from = last + 1;
    }
    None
}

fn is_entry(z: i8) -> bool
    ensures { IsTrue result ↔ IsEntry z }
{
    -1 <= z && z <= 1
}

fn reduced(entry: i8, factor: i8, top: i8) -> i8
    requires entry { IsEntry entry }
    requires factor { IsEntry factor }
    requires top { IsEntry top }
    ensures { result ≡ entry -ℤ factor *ℤ top }
{
    entry - product(factor, top)
}

/// Makes the pivot in the remaining rows.
pub fn make_pivot(work: &mut Matrix, left: &[u32], row: u32, column: u32)
    requires rows { IsRowSet work.old left.now }
    requires row { row < height work.old }
    requires apart { IsOutside row left.now }
    requires column { column < work.old.width }
    requires nonzero { IsSign (entry work.old row column) }
    requires small { AllByRecursion
        (λ other. IsTernaryRow work.old.width (reduced (entry work.old) row column other))
        left.now }
    ensures pivoted { PivotsRows work.old work.new row column left.now }
    ensures others { KeepsRowsElsewhere work.old work.new left.now }
{
    for other in left {
        pivot_row(work, row, column, *other);
    }
}

fn pivot_row(work: &mut Matrix, row: u32, column: u32, other: u32)
    requires row { row < height work.old }
    requires other { other < height work.old }
    requires apart { IsOutside row (other ∷ []) }
    requires column { column < work.old.width }
    requires nonzero { IsSign (entry work.old row column) }
    requires small { IsTernaryRow work.old.width (reduced (entry work.old) row column other) }
    ensures pivoted { PivotsRows work.old work.new row column (other ∷ []) }
    ensures others { KeepsRowsElsewhere work.old work.new (other ∷ []) }
{
    let factor = product(work.entry(row, column), work.entry(other, column));
    prove!(work.columns() <= MAX_COLUMNS);
    if factor == 0 {
        return;
    }
    let mut from = 0;
    while let Some(last) = work.next_nonzero(row, from) {
        let left = reduced(work.entry(other, last), factor, work.entry(row, last));
        work.set(other, last, left);
        from = last + 1;
    }
    work.set(other, column, -factor);
}
