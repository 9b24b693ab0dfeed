ghost use Rattle.std.specs.Prelude.{◌≡◌, ◌<◌, ◌⊎◌, ◌∷◌, ℕ, List, pos, IfOk, OnOk};
ghost use Rattle.std.specs.List.Sorted.{IsStrictlyIncreasing};
ghost use Rattle.cmr_base.specs.Matrix.{Matrix, height, entry};
ghost use Rattle.cmr_base.specs.LineSets.{AllBelow, IsRowSet};
ghost use Rattle.cmr_base.specs.Signing.{IsSign};
ghost use Rattle.cmr_base.specs.Sums.{sum_over, IsEven, IsOdd};
ghost use Rattle.ghouila.specs.Pivot.{IsOutside, IsTernaryRow, KeepsRowsElsewhere};
ghost use Rattle.ghouila.specs.SignRuns.{IsPivotNext, IsPutAside};
ghost use Rattle.ghouila.specs.MarkedSignings.{IsOutcome, AddsRun, NamesLines, HasMarkForEachLine};
ghost use Rattle.ghouila.specs.Answer.{SignsOrViolates, IsAnswerOfRun};

use crate::marked_lines::MarkedLines;
use crate::pivots::{first_pivot, first_square_violator, make_pivot};
use crate::row_signs::RowSigns;
use cmr_base::{Indices, ItemList, LineSet, MAX_COLUMNS, MAX_ROWS, Matrix, Memory, SignList};
use std::alloc::Global;

/// The result for a set of rows.
#[derive(Debug, Drop)]
pub enum SigningOrViolator {
    /// A signing of the rows: the sign of each row, in the order of the rows.
    Signed(SignList),
    /// A violator of the matrix, with rows from the set. The rows may still have a signing.
    Violated(LineSet),
}

/// A step that removes one row: a pivot at the row and a column, or the row is put aside.
#[derive(Debug, Clone, Copy)]
pub struct Pivot {
    pub row: u32,
    pub column: Option<u32>,
}

/// The steps, in the order in which they were made.
pub type PivotList = ItemList<Pivot>;

/// The result for a set of rows, with the steps that led to it.
#[derive(Debug, Drop)]
pub struct SignRun {
    pub steps: PivotList,
    pub signing: SigningOrViolator,
}

#[derive(Debug, Drop)]
enum MarkedSigning {
    Signed(RowSigns),
    Violated(MarkedLines),
}

/// Gives a signing of the rows, or a violator. It can fail only by an allocation failure.
pub fn sign_or_violate(
    alloc: Global,
    matrix: &Matrix,
    rows: &Indices,
) -> Result<SigningOrViolator, Memory>
    requires { AllBelow (height matrix.now) rows.now }
    ensures { IfOk result (SignsOrViolates matrix.now rows.now) }
{
    let run = sign_by_steps(alloc, matrix, rows)?;
    Ok(run.signing)
}

/// Does the same as `sign_or_violate`, and also gives the steps. Each pivot removes a row from a copy of the matrix.
/// The sign of that row, or its part in a violator, follows from the result for the other rows. The time is at most
/// the number of rows squared times the number of columns, plus the copy of the matrix.
pub fn sign_by_steps(alloc: Global, matrix: &Matrix, rows: &Indices) -> Result<SignRun, Memory>
    requires { AllBelow (height matrix.now) rows.now }
    ensures right { IfOk result (λ run. SignsOrViolates matrix.now rows.now run.signing) }
    ensures run { IfOk result (λ run. IsAnswerOfRun matrix.now rows.now run.steps run.signing) }
    ensures increasing { OnOk result (IsStrictlyIncreasing rows.now) }
{
    let mut work = matrix.copy(alloc)?;
    let left = copy_of_rows(alloc, rows)?;
    let mut steps = PivotList::new(alloc);
    let outcome = sign_left(alloc, &mut work, left, &mut steps)?;
    let signing = named(alloc, matrix, rows, outcome)?;
    Ok(SignRun { steps, signing })
}

fn copy_of_rows(alloc: Global, rows: &Indices) -> Result<Vec<u32>, Memory>
    ensures items { IfOk result (λ left. left.items ≡ rows.now) }
    ensures increasing { IsStrictlyIncreasing rows.now }
{
    let mut left = Vec::new(alloc);
    for row in rows.as_slice() {
        left.push(*row)?;
    }
    Ok(left)
}

// Gives the signs of the rows, or the marked lines.
fn named(
    alloc: Global,
    matrix: &Matrix,
    rows: &Indices,
    outcome: MarkedSigning,
) -> Result<SigningOrViolator, Memory>
    requires rows { AllBelow (height matrix.now) rows.now }
    requires sizes { HasMarkForEachLine matrix.now outcome }
    ensures { IfOk result (NamesLines rows.now outcome) }
{
    prove!(matrix.rows() <= MAX_ROWS && matrix.columns() <= MAX_COLUMNS);
    match outcome {
        MarkedSigning::Signed(signs) => Ok(SigningOrViolator::Signed(signs.of_rows(
            alloc,
            rows.as_slice(),
        )?)),
        MarkedSigning::Violated(lines) => Ok(SigningOrViolator::Violated(lines.to_lines(alloc)?)),
    }
}

// Gives the result for the remaining rows. The other rows of `work` do not change.
#[cycle(sign_rows)]
fn sign_left(
    alloc: Global,
    work: &mut Matrix,
    mut left: Vec<u32>,
    steps: &mut PivotList,
) -> Result<MarkedSigning, Memory>
    requires { IsRowSet work.old left.items }
    ensures found { IfOk result (IsOutcome work.old left.items) }
    ensures run { IfOk result (AddsRun work.old left.items steps.old steps.new) }
    ensures others { KeepsRowsElsewhere work.old work.new left.items }
{
    if left.is_empty() {
        return Ok(MarkedSigning::Signed(RowSigns::new(alloc, work)?));
    }
    match first_pivot(work, &left) {
        Some(pivot) => {
            let row = left.remove(pivot.place);
            sign_by_pivot(alloc, work, left, row, pivot.column, steps)
        }
        None => {
            let row = left.remove(0);
            sign_aside(alloc, work, left, row, steps)
        }
    }
}

// Gives the result for the remaining rows and one more row, at which it makes a pivot.
#[cycle(sign_rows)]
fn sign_by_pivot(
    alloc: Global,
    work: &mut Matrix,
    left: Vec<u32>,
    row: u32,
    column: u32,
    steps: &mut PivotList,
) -> Result<MarkedSigning, Memory>
    requires rows { IsRowSet work.old left.items }
    requires row { row < height work.old }
    requires apart { IsOutside row left.items }
    requires column { column < work.old.width }
    requires nonzero { IsSign (entry work.old row column) }
    requires odd { IsOdd (sum_over left.items (λ other. entry work.old other column)) }
    ensures found { IfOk result (IsOutcome work.old (row ∷ left.items)) }
    ensures run { (rows : List ℕ) → IsPivotNext work.old rows row column left.items
        → IfOk result (AddsRun work.old rows steps.old steps.new) }
    ensures others { KeepsRowsElsewhere work.old work.new left.items }
{
    if let Some(corner) = first_square_violator(work, &left, row, column) {
        let lines = MarkedLines::of_square(alloc, work, row, column, corner)?;
        return Ok(MarkedSigning::Violated(lines));
    }
    steps.push(Pivot {
        row,
        column: Some(column),
    })?;
    make_pivot(work, &left, row, column);
    match sign_left(alloc, work, left, steps)? {
        MarkedSigning::Signed(mut signs) => {
            signs.sign_pivot(row, column);
            Ok(MarkedSigning::Signed(signs))
        }
        MarkedSigning::Violated(mut lines) => {
            lines.undo_pivot(work, row, column);
            Ok(MarkedSigning::Violated(lines))
        }
    }
}

// Gives the result for the remaining rows and one more row. The remaining rows have an even sum in each column with a
// nonzero of that row.
#[cycle(sign_rows)]
fn sign_aside(
    alloc: Global,
    work: &mut Matrix,
    left: Vec<u32>,
    row: u32,
    steps: &mut PivotList,
) -> Result<MarkedSigning, Memory>
    requires rows { IsRowSet work.old left.items }
    requires row { row < height work.old }
    requires apart { IsOutside row left.items }
    requires small { IsTernaryRow work.old.width (entry work.old row) }
    requires quiet { (column : ℕ) → column < work.old.width
        → (entry work.old row column ≡ pos 0)
        ⊎ IsEven (sum_over left.items (λ other. entry work.old other column)) }
    ensures found { IfOk result (IsOutcome work.old (row ∷ left.items)) }
    ensures run { (rows : List ℕ) → IsPutAside work.old rows row left.items
        → IfOk result (AddsRun work.old rows steps.old steps.new) }
    ensures others { KeepsRowsElsewhere work.old work.new left.items }
{
    steps.push(Pivot { row, column: None })?;
    match sign_left(alloc, work, left, steps)? {
        MarkedSigning::Signed(mut signs) => {
            signs.sign_aside(work, row);
            Ok(MarkedSigning::Signed(signs))
        }
        violated => Ok(violated),
    }
}
