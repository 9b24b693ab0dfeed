// The check of chains.
ghost use Rattle.std.specs.Prelude.{◌≡◌, ◌<◌, ◌≤◌, ◌+◌, ◌+ℤ◌, ◌↔◌, ℕ, ℤ, pos, length, map, cond, nat_eq, slice_index, IsTrue, IfOk, MatchOption};
ghost use Rattle.std.specs.List.{AllByRecursion};
ghost use Rattle.std.specs.List.Sorted.{IsStrictlyIncreasing};
ghost use Rattle.cmr_base.specs.Matrix.{Matrix, height, entry, IsMatrix};
ghost use Rattle.cmr_base.specs.Members.{IsIn};
ghost use Rattle.cmr_base.specs.LineSets.{AllBelow};
ghost use Rattle.cmr_base.specs.Signing.{IsSign};
ghost use Rattle.cmr_base.specs.Sums.{sum_over};
ghost use Rattle.chains.specs.declared.step.SignStep.TheVariants.{Free, Forced};
ghost use Rattle.chains.specs.SignSteps.{AreSigns, IsUnsignedOne, IsZeroModFour, signed_by, unsigned};
ghost use Rattle.chains.specs.Chains.{HasTwoEach, IsFirstBrokenPart, IsSignedViolator, IsSoundChain, KeepsRule};
ghost use Rattle.chains.specs.ChainStates.{AllSignedBut, IsOpenBut, AreLabels, HasFollowed};

use crate::step::{SignStep, SizedChain};
use cmr_base::{Indices, LineSet, MAX_COLUMNS, MAX_ROWS, Matrix, Memory, join_labels, own_labels};
use parity::is_violator;
use std::alloc::Global;

/// The signs that the first steps of a chain give, and the number of these steps. All of them keep their rules.
#[derive(Drop)]
pub struct Followed {
    pub signs: Matrix,
    pub kept: usize,
}

/// The first part of a chain that breaks its rule for a 0/1 matrix, counted from 1; the violator is the part after the last
/// step. `None` if and only if the chain is sound; then no choice of the signs of the ones is totally unimodular. A chain with
/// sizes other than the matrix's is broken at its first part. The time is at most the number of lines for each free step, and
/// the size of the named lines' submatrix for each forced step.
pub fn check_chain(
    alloc: Global,
    matrix: &Matrix,
    chain: &SizedChain,
) -> Result<Option<u32>, Memory>
    ensures { IfOk result (λ found. MatchOption found
        ((signs : Matrix) × IsSoundChain matrix.now chain.now signs)
        (IsFirstBrokenPart matrix.now chain.now)) }
{
    if chain.rows != matrix.rows() || chain.columns != matrix.columns() {
        return Ok(Some(1));
    }
    let steps = chain.chain.steps.as_slice();
    let followed = follow(alloc, matrix, steps)?;
    if followed.kept < steps.len() {
        return Ok(Some(followed.kept as u32 + 1));
    }
    if is_signed_violator(matrix, &followed.signs, &chain.chain.violator) {
        Ok(None)
    } else {
        Ok(Some(steps.len() as u32 + 1))
    }
}

/// The signs that the steps of a sound chain give, and 0 in each other position.
pub fn chain_signs(alloc: Global, matrix: &Matrix, chain: &SizedChain) -> Result<Matrix, Memory>
    requires sound { (signs : Matrix) × IsSoundChain matrix.now chain.now signs }
    ensures { IfOk result (IsSoundChain matrix.now chain.now) }
{
    Ok(follow(alloc, matrix, chain.chain.steps.as_slice())?.signs)
}

fn follow(alloc: Global, matrix: &Matrix, steps: &[SignStep]) -> Result<Followed, Memory>
    ensures followed { IfOk result (HasFollowed matrix.now steps.now) }
    // Each step signs a one that had no sign.
    ensures few { IfOk result (λ followed. followed.kept ≤ 1000000) }
    ensures shape { IfOk result (λ followed. IsMatrix matrix.now) }
{
    let mut signs = Matrix::zero(alloc, matrix.rows(), matrix.columns())?;
    let mut labels = first_labels(alloc, matrix)?;
    let kept = sign_by_steps(matrix, &mut signs, &mut labels, steps);
    Ok(Followed { signs, kept })
}

// A different label for each line, since no entry is signed.
fn first_labels(alloc: Global, matrix: &Matrix) -> Result<Vec<u32>, Memory>
    ensures { IfOk result (λ labels. AreLabels matrix.now (unsigned matrix.now) labels.items) }
{
    own_labels(alloc, matrix.rows() + matrix.columns())
}

// Gives the signs of the first steps up to the first that breaks its rule, and returns the number of steps that keep theirs.
fn sign_by_steps(
    matrix: &Matrix,
    signs: &mut Matrix,
    labels: &mut Vec<u32>,
    steps: &[SignStep],
) -> usize
    requires matrix { IsMatrix matrix.now }
    requires unsigned { signs.old ≡ unsigned matrix.now }
    requires labels { AreLabels matrix.now signs.old labels.old.items }
    ensures followed { HasFollowed matrix.now steps.now
        (record { signs = signs.new; kept = result }) }
    ensures few { result ≤ 1000000 }
{
    for kept in 0..steps.len() {
        match sign_of_step(matrix, signs, labels, &steps[kept]) {
            Some(sign) => give_sign(matrix, signs, labels, &steps[kept], sign),
            None => return kept,
        }
    }
    steps.len()
}

fn give_sign(matrix: &Matrix, signs: &mut Matrix, labels: &mut Vec<u32>, step: &SignStep, sign: i8)
    requires signs { AreSigns matrix.now signs.old }
    requires labels { AreLabels matrix.now signs.old labels.old.items }
    requires rule { KeepsRule matrix.now signs.old step.now sign }
    ensures signs { signs.new ≡ signed_by signs.old step.now sign }
    ensures labels { AreLabels matrix.now signs.new labels.new.items }
{
    let rows = matrix.rows() as usize;
    let (row, column) = step.place();
    signs.set(row, column, sign);
    join(labels, row as usize, rows + column as usize);
}

// Gives all lines with the column's label the label of the row.
fn join(labels: &mut Vec<u32>, row: usize, column: usize)
    requires row { row < length labels.old.items }
    requires column { column < length labels.old.items }
    ensures { labels.new.items
        ≡ map
        (λ label. cond (nat_eq label (slice_index labels.old.items column))
        (slice_index labels.old.items row) label)
        labels.old.items }
{
    let kept = labels[row];
    let replaced = labels[column];
    join_labels(labels, replaced, kept);
}

// The sign of a step that keeps its rule.
fn sign_of_step(matrix: &Matrix, signs: &Matrix, labels: &[u32], step: &SignStep) -> Option<i8>
    requires matrix { IsMatrix matrix.now }
    requires signs { AreSigns matrix.now signs.now }
    requires labels { AreLabels matrix.now signs.now labels.now }
    ensures { MatchOption result
        ((sign : ℤ) → ¬ (KeepsRule matrix.now signs.now step.now sign))
        (KeepsRule matrix.now signs.now step.now) }
{
    match step {
        SignStep::Free { row, column } => {
            if is_free(matrix, signs, labels, *row, *column) {
                Some(1)
            } else {
                None
            }
        }
        SignStep::Forced { row, column, cycle } => forced_sign(matrix, signs, *row, *column, cycle),
    }
}

fn is_free(matrix: &Matrix, signs: &Matrix, labels: &[u32], row: u32, column: u32) -> bool
    requires signs { AreSigns matrix.now signs.now }
    requires labels { AreLabels matrix.now signs.now labels.now }
    ensures { IsTrue result ↔ KeepsRule matrix.now signs.now (Free row column) (pos 1) }
{
    is_open(matrix, signs, row, column)
        && labels[row as usize] != labels[matrix.rows() as usize + column as usize]
}

// Whether this entry is a one without sign.
fn is_open(matrix: &Matrix, signs: &Matrix, row: u32, column: u32) -> bool
    requires signs { AreSigns matrix.now signs.now }
    ensures open { IsTrue result ↔ IsUnsignedOne matrix.now signs.now row column }
    ensures inside { IsTrue result → (row < height matrix.now) × (column < matrix.now.width) }
{
    row < matrix.rows()
        && column < matrix.columns()
        && matrix.entry(row, column) != 0
        && signs.entry(row, column) == 0
}

fn forced_sign(
    matrix: &Matrix,
    signs: &Matrix,
    row: u32,
    column: u32,
    cycle: &LineSet,
) -> Option<i8>
    requires matrix { IsMatrix matrix.now }
    requires signs { AreSigns matrix.now signs.now }
    ensures { MatchOption result
        ((sign : ℤ) → ¬ (KeepsRule matrix.now signs.now (Forced row column cycle.now) sign))
        (KeepsRule matrix.now signs.now (Forced row column cycle.now)) }
{
    if !is_open(matrix, signs, row, column) || !are_lines_of(matrix, cycle) {
        return None;
    }
    if !has(cycle.rows.as_slice(), row) || !has(cycle.columns.as_slice(), column) {
        return None;
    }
    if !have_two_each(matrix, cycle) || !all_signed_but(matrix, signs, cycle, row, column) {
        return None;
    }
    closing(signs.sum(cycle))
}

fn are_lines_of(matrix: &Matrix, lines: &LineSet) -> bool
    ensures inside { IsTrue result
        ↔ (AllBelow (height matrix.now) lines.now.rows
        × AllBelow matrix.now.width lines.now.columns) }
    ensures rows_increase { IsStrictlyIncreasing lines.now.rows }
    ensures columns_increase { IsStrictlyIncreasing lines.now.columns }
{
    let rows = lines.rows.as_slice();
    let columns = lines.columns.as_slice();
    are_below(rows, matrix.rows()) && are_below(columns, matrix.columns())
}

fn are_below(lines: &[u32], bound: u32) -> bool
    ensures { IsTrue result ↔ AllBelow bound lines.now }
{
    for place in 0..lines.len() {
        if lines[place] >= bound {
            return false;
        }
    }
    true
}

fn has(lines: &[u32], line: u32) -> bool
    ensures { IsTrue result ↔ IsIn line lines.now }
{
    for place in 0..lines.len() {
        if lines[place] == line {
            return true;
        }
    }
    false
}

// Whether each of these lines has two ones in the submatrix of these lines.
fn have_two_each(matrix: &Matrix, lines: &LineSet) -> bool
    requires rows { AllBelow (height matrix.now) lines.now.rows }
    requires columns { AllBelow matrix.now.width lines.now.columns }
    ensures { IsTrue result ↔ HasTwoEach matrix.now lines.now.rows lines.now.columns }
{
    let rows = lines.rows.as_slice();
    let columns = lines.columns.as_slice();
    prove!(rows.len() <= matrix.rows() as usize);
    prove!(columns.len() <= matrix.columns() as usize);
    if !have_two_in_rows(matrix, rows, columns) {
        return false;
    }
    have_two_in_columns(matrix, rows, columns)
}

fn have_two_in_rows(matrix: &Matrix, rows: &[u32], columns: &[u32]) -> bool
    requires rows { AllBelow (height matrix.now) rows.now }
    requires columns { AllBelow matrix.now.width columns.now }
    requires few { length columns.now ≤ MAX_COLUMNS }
    ensures { IsTrue result
        ↔ AllByRecursion
        (λ row. sum_over columns.now (λ column. entry matrix.now row column) ≡ pos 2)
        rows.now }
{
    for row in rows {
        if !is_two(matrix.row_sum(*row, columns)) {
            return false;
        }
    }
    true
}

fn have_two_in_columns(matrix: &Matrix, rows: &[u32], columns: &[u32]) -> bool
    requires rows { AllBelow (height matrix.now) rows.now }
    requires columns { AllBelow matrix.now.width columns.now }
    requires few { length rows.now ≤ MAX_ROWS }
    ensures { IsTrue result
        ↔ AllByRecursion
        (λ column. sum_over rows.now (λ row. entry matrix.now row column) ≡ pos 2)
        columns.now }
{
    for column in columns {
        if !is_two(matrix.column_sum(rows, *column)) {
            return false;
        }
    }
    true
}

fn is_two(sum: i32) -> bool
    ensures { IsTrue result ↔ (sum ≡ pos 2) }
{
    sum == 2
}

// Whether all ones in the submatrix of these lines have signs, except in one position.
fn all_signed_but(matrix: &Matrix, signs: &Matrix, lines: &LineSet, row: u32, column: u32) -> bool
    requires signs { AreSigns matrix.now signs.now }
    requires rows { AllBelow (height matrix.now) lines.now.rows }
    requires columns { AllBelow matrix.now.width lines.now.columns }
    ensures { IsTrue result
        ↔ AllSignedBut matrix.now signs.now lines.now.rows lines.now.columns row column }
{
    let rows = lines.rows.as_slice();
    let columns = lines.columns.as_slice();
    for i in rows {
        if !row_signed_but(matrix, signs, *i, columns, row, column) {
            return false;
        }
    }
    true
}

fn row_signed_but(
    matrix: &Matrix,
    signs: &Matrix,
    i: u32,
    columns: &[u32],
    row: u32,
    column: u32,
) -> bool
    requires signs { AreSigns matrix.now signs.now }
    requires row { i < height matrix.now }
    requires columns { AllBelow matrix.now.width columns.now }
    ensures { IsTrue result
        ↔ AllByRecursion (λ j. ¬ (IsOpenBut matrix.now signs.now row column i j)) columns.now }
{
    for j in columns {
        if is_open_but(matrix, signs, row, column, i, *j) {
            return false;
        }
    }
    true
}

// Whether this entry is a one without sign in another position.
fn is_open_but(matrix: &Matrix, signs: &Matrix, row: u32, column: u32, i: u32, j: u32) -> bool
    requires signs { AreSigns matrix.now signs.now }
    ensures { IsTrue result ↔ IsOpenBut matrix.now signs.now row column i j }
{
    is_open(matrix, signs, i, j) && (i != row || j != column)
}

// The sign that makes a sum a multiple of four.
fn closing(sum: i32) -> Option<i8>
    ensures { MatchOption result ((sign : ℤ) → IsSign sign → ¬ (IsZeroModFour (sum +ℤ sign)))
        (λ sign. IsSign sign × IsZeroModFour (sum +ℤ sign)) }
{
    let rest = sum.rem_euclid(4);
    if rest == 1 {
        Some(-1)
    } else if rest == 3 {
        Some(1)
    } else {
        None
    }
}

// Whether all ones in the submatrix of these lines have signs, and these signs are a violator. No row has the number of all
// rows.
fn is_signed_violator(matrix: &Matrix, signs: &Matrix, lines: &LineSet) -> bool
    requires signs { AreSigns matrix.now signs.now }
    ensures { IsTrue result ↔ IsSignedViolator matrix.now signs.now lines.now }
{
    if !are_lines_of(matrix, lines) {
        return false;
    }
    if !all_signed_but(matrix, signs, lines, matrix.rows(), 0) {
        return false;
    }
    is_violator(signs, lines)
}
