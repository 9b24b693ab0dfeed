// Camion's signing of a 0/1 matrix, row by row.
ghost use Rattle.std.specs.Prelude.{◌≡◌, ◌<◌, ◌≤◌, ◌+◌, ◌*◌, ◌+ℤ◌, ℕ, ℤ, pos, List, length, IfOk, OnOk, IsTrue, MatchOption};
ghost use Rattle.cmr_base.specs.Matrix.{height, entry, IsMatrix};
ghost use Rattle.cmr_base.specs.Signing.{IsSign};
ghost use Rattle.cmr_base.specs.Supports.{HaveOneSupport};
ghost use Rattle.cmr_base.specs.Trees.{IsBinary};
ghost use Rattle.chains.specs.SignSteps.{AreSigns, IsUnsignedOne, IsZeroModFour, unsigned, LeadTo};
ghost use Rattle.camion_sign.specs.SignOrder.{IsForcedBy, IsSignedBy};
ghost use Rattle.camion_sign.specs.Walks.{TwoIf};
ghost use Rattle.cmr_base.specs.Planes.{is_minus};
ghost use Rattle.chains.specs.declared.step.SignStep.{SignStep};
ghost use Rattle.chains.specs.Chains.{KeepsRule};
ghost use Rattle.std.specs.List.{AllByRecursion};
ghost use Rattle.chains.specs.ChainTexts.{IsStepIn};
ghost use Rattle.camion_sign.specs.declared.row_places.RowPlaces.{RowPlaces};
ghost use Rattle.camion_sign.specs.Signings.{HasRoomForPlaces, KnowsPlaces, KnowsSigned, IsAtRow, IsFirstUnsigned, IsForcedAt, IsForcedNext, IsLeastPartner, IsNextUnsigned, IsPlacedPartner, NoneForced, unsigned_before};

use crate::kept_steps::KeptSteps;
use crate::line_words::row_words;
use crate::row_places::{ForcedOne, Partner, RowPlaces};
use crate::signed_columns::SignedColumns;
use crate::walk::first_outside;
use chains::SignStepList;
use cmr_base::{Matrix, Memory, RowsAndColumns, columns_of};
use std::alloc::Global;

/// The signs given so far, and 0 without a sign; the steps that gave them, if they are kept; and the signed columns of the
/// current row.
#[derive(Drop)]
pub struct Signing {
    pub signs: Matrix,
    pub steps: KeptSteps,
    pub signed: SignedColumns,
}

/// The signing of a 0/1 matrix (Camion), and its steps, row by row. If a one makes a cycle place with a signed one of its row,
/// it gets the sign that makes the sum of the place's cycle divisible by 4; otherwise it gets 1. Among the places of a row, the
/// signing takes the least column without sign first, and for this column the least signed column. The signed matrix can still
/// have a cycle fault.
///
/// The time is one walk through the earlier rows for each first column of a place that is required, usually few in a row, and
/// at most one more walk for each forced one. In addition, it is at most the product of the numbers of ones and columns for each
/// row, and the square of the length of its cycle for each forced one.
pub fn sign(alloc: Global, matrix: &Matrix) -> Result<(Matrix, SignStepList), Memory>
    ensures signed { IfOk result (λ signed. IsSignedBy matrix.now signed.1 signed.0) }
    // For a 0/1 matrix, the steps are the steps of a chain.
    ensures chain { IsBinary matrix.now
        → IfOk result (λ signed.
        LeadTo (KeepsRule matrix.now) (unsigned matrix.now) signed.1 signed.0) }
    ensures support { IfOk result (λ signed. HaveOneSupport matrix.now signed.0) }
    ensures few { IfOk result (λ signed. length signed.1 ≤ height matrix.now * matrix.now.width) }
    ensures steps { IfOk result (λ signed.
        AllByRecursion (IsStepIn (height matrix.now) matrix.now.width) signed.1) }
{
    let columns = matrix.transposed(alloc)?;
    let signing = all_rows_signed(alloc, &RowsAndColumns::of(matrix, &columns), true)?;
    Ok((signing.signs, signing.steps.list))
}

/// The signed matrix of the same signing. It needs no lines of cycles, so the time is that of the walks and at most the product of
/// the numbers of ones and columns for each row.
pub fn signed_matrix(alloc: Global, matrix: &Matrix) -> Result<Matrix, Memory>
    ensures signed { IfOk result (λ signed. (steps : List SignStep)
        × IsSignedBy matrix.now steps signed
        × (IsBinary matrix.now
        → LeadTo (KeepsRule matrix.now) (unsigned matrix.now) steps signed)) }
    ensures support { IfOk result (λ signed. HaveOneSupport matrix.now signed) }
{
    let columns = matrix.transposed(alloc)?;
    let signing = all_rows_signed(alloc, &RowsAndColumns::of(matrix, &columns), false)?;
    Ok(signing.signs)
}

fn all_rows_signed(
    alloc: Global,
    matrix: &RowsAndColumns<'_>,
    keeps_steps: bool,
) -> Result<Signing, Memory>
    ensures state { IfOk result (IsAtRow matrix.now (height matrix.now)) }
    ensures flag { IfOk result (λ signing. signing.steps.are_kept ≡ keeps_steps) }
    ensures shape { IfOk result (λ signing. IsMatrix matrix.now) }
{
    let mut signing = no_signs(alloc, matrix, keeps_steps)?;
    sign_rows(alloc, matrix, &mut signing)?;
    Ok(signing)
}

// The state before the first step.
fn no_signs(
    alloc: Global,
    matrix: &RowsAndColumns<'_>,
    keeps_steps: bool,
) -> Result<Signing, Memory>
    ensures state { IfOk result (IsAtRow matrix.now 0) }
    ensures flag { IfOk result (λ signing. signing.steps.are_kept ≡ keeps_steps) }
{
    Ok(Signing {
        signs: Matrix::zero(alloc, matrix.rows(), matrix.columns())?,
        steps: KeptSteps::new(alloc, keeps_steps),
        signed: SignedColumns::new(alloc, matrix.columns())?,
    })
}

// Signs the ones of all rows.
fn sign_rows(
    alloc: Global,
    matrix: &RowsAndColumns<'_>,
    signing: &mut Signing,
) -> Result<(), Memory>
    requires { IsAtRow matrix.now 0 signing.old }
    ensures state { OnOk result (IsAtRow matrix.now (height matrix.now) signing.new) }
    ensures flag { OnOk result (signing.new.steps.are_kept ≡ signing.old.steps.are_kept) }
    ensures shape { OnOk result (IsMatrix matrix.now) }
{
    let mut places = RowPlaces::new(alloc, matrix)?;
    for row in 0..matrix.rows() {
        places.begin(matrix);
        sign_row(alloc, matrix, &mut places, row, signing)?;
        places.end(matrix, row);
    }
    Ok(())
}

// Signs the ones of a row.
fn sign_row(
    alloc: Global,
    matrix: &RowsAndColumns<'_>,
    places: &mut RowPlaces,
    row: u32,
    signing: &mut Signing,
) -> Result<(), Memory>
    requires row { row < height matrix.now }
    requires places { KnowsPlaces matrix.now signing.old.signs row places.old }
    requires state { IsAtRow matrix.now row signing.old }
    ensures state { OnOk result (IsAtRow matrix.now (row + 1) signing.new) }
    ensures flag { OnOk result (signing.new.steps.are_kept ≡ signing.old.steps.are_kept) }
    ensures room { OnOk result (HasRoomForPlaces matrix.now row places.new) }
{
    let mut next = first_unsigned(matrix, row, 0, &signing.signs);
    'ones: while let Some(column) = next {
        sign_next(alloc, matrix, places, row, column, signing)?;
        next = first_unsigned(matrix, row, column, &signing.signs);
    }
    signing.signed.begin();
    Ok(())
}

// Signs the next one of a row. The first one without sign is in this column.
fn sign_next(
    alloc: Global,
    matrix: &RowsAndColumns<'_>,
    places: &mut RowPlaces,
    row: u32,
    first: u32,
    signing: &mut Signing,
) -> Result<(), Memory>
    requires row { row < height matrix.now }
    requires places { KnowsPlaces matrix.now signing.old.signs row places.old }
    requires state { IsAtRow matrix.now row signing.old }
    requires first { IsFirstUnsigned matrix.now signing.old.signs row first }
    ensures state { OnOk result (IsAtRow matrix.now row signing.new) }
    ensures flag { OnOk result (signing.new.steps.are_kept ≡ signing.old.steps.are_kept) }
    ensures places { OnOk result (KnowsPlaces matrix.now signing.new.signs row places.new) }
    ensures fewer { OnOk result (unsigned_before matrix.now signing.new.signs row matrix.now.width
        < unsigned_before matrix.now signing.old.signs row matrix.now.width) }
    ensures keeps { OnOk result ((d : ℕ) → IsUnsignedOne matrix.now signing.new.signs row d
        → IsUnsignedOne matrix.now signing.old.signs row d) }
{
    match forced_one(
        matrix,
        places,
        row,
        first,
        &signing.signs,
        &mut signing.signed,
    )? {
        Some(forced) => sign_forced(alloc, matrix, places, row, forced, signing),
        None => sign_free(row, first, matrix, signing),
    }
}

// The least column of a row without sign that makes a cycle place with a signed column, and the least such signed column. The
// search begins at the first one without sign.
fn forced_one(
    matrix: &RowsAndColumns<'_>,
    places: &mut RowPlaces,
    row: u32,
    first: u32,
    signs: &Matrix,
    signed: &mut SignedColumns,
) -> Result<Option<ForcedOne>, Memory>
    requires row { row < height matrix.now }
    requires places { KnowsPlaces matrix.now signs.now row places.old }
    requires signs { AreSigns matrix.now signs.now }
    requires first { IsFirstUnsigned matrix.now signs.now row first }
    requires signed { KnowsSigned matrix.now signs.now row signed.old }
    ensures forced { IfOk result (λ found. MatchOption found
        (NoneForced matrix.now signs.now row)
        (IsForcedNext matrix.now signs.now row)) }
    ensures places { IfOk result (λ found. KnowsPlaces matrix.now signs.now row places.new) }
    ensures signed { IfOk result (λ found. KnowsSigned matrix.now signs.now row signed.new) }
{
    let mut from = first;
    while let Some(column) = next_unsigned(matrix, row, from, signs) {
        if let Some(forced) = forced_at(matrix, places, row, column, signs, signed)? {
            return Ok(Some(forced));
        }
        from = column + 1;
    }
    Ok(None)
}

// The first column that is at least `from` and in which a row has a one without sign.
fn next_unsigned(matrix: &RowsAndColumns<'_>, row: u32, from: u32, signs: &Matrix) -> Option<u32>
    requires shape { IsMatrix matrix.now }
    requires row { row < height matrix.now }
    requires from { from ≤ matrix.now.width }
    requires signs { AreSigns matrix.now signs.now }
    ensures { MatchOption result
        ((d : ℕ) → from ≤ d → ¬ (IsUnsignedOne matrix.now signs.now row d))
        (IsNextUnsigned matrix.now signs.now row from) }
{
    first_outside(row_words(matrix, row), columns_of(signs, row), from)
}

// A one without sign with the least signed column of its row that makes a cycle place with it.
fn forced_at(
    matrix: &RowsAndColumns<'_>,
    places: &mut RowPlaces,
    row: u32,
    column: u32,
    signs: &Matrix,
    signed: &mut SignedColumns,
) -> Result<Option<ForcedOne>, Memory>
    requires row { row < height matrix.now }
    requires column { column < matrix.now.width }
    requires places { KnowsPlaces matrix.now signs.now row places.old }
    requires signs { AreSigns matrix.now signs.now }
    requires here { IsUnsignedOne matrix.now signs.now row column }
    requires signed { KnowsSigned matrix.now signs.now row signed.old }
    ensures forced { IfOk result (λ found. MatchOption found
        ((c : ℕ) → ¬ (IsForcedBy matrix.now signs.now row column c))
        (IsForcedAt matrix.now signs.now row column)) }
    ensures places { IfOk result (λ found. KnowsPlaces matrix.now signs.now row places.new) }
    ensures signed { IfOk result (λ found. KnowsSigned matrix.now signs.now row signed.new) }
{
    let Some(found) = signed.first_forcing(matrix, places, row, column, signs)? else {
        return Ok(None);
    };
    let partner = least_partner(matrix, places, row, column, signs, found)?;
    Ok(Some(ForcedOne {
        column,
        partner: partner.column,
        mark: partner.mark,
    }))
}

// The least signed column that makes a cycle place with a column. One such column is known, so the search visits only the signed
// columns before it.
fn least_partner(
    matrix: &RowsAndColumns<'_>,
    places: &mut RowPlaces,
    row: u32,
    column: u32,
    signs: &Matrix,
    found: Partner,
) -> Result<Partner, Memory>
    requires row { row < height matrix.now }
    requires column { column < matrix.now.width }
    requires places { KnowsPlaces matrix.now signs.now row places.old }
    requires signs { AreSigns matrix.now signs.now }
    requires here { IsUnsignedOne matrix.now signs.now row column }
    requires found { IsPlacedPartner matrix.now signs.now row column found }
    ensures partner { IfOk result (IsLeastPartner matrix.now signs.now row column) }
    ensures places { IfOk result (λ partner. KnowsPlaces matrix.now signs.now row places.new) }
{
    let mut from = 0;
    while let Some(signed) = signs.next_nonzero(row, from) {
        if signed >= found.column {
            return Ok(found);
        }
        let mark = places.mark(matrix, signs, row, column, signed)?;
        if mark != 0 {
            return Ok(Partner {
                column: signed,
                mark,
            });
        }
        from = signed + 1;
    }
    Ok(found)
}

// The first column at or after `from` in which a row has a one without sign.
fn first_unsigned(matrix: &RowsAndColumns<'_>, row: u32, from: u32, signs: &Matrix) -> Option<u32>
    requires shape { IsMatrix matrix.now }
    requires row { row < height matrix.now }
    requires signs { AreSigns matrix.now signs.now }
    requires from { from ≤ matrix.now.width }
    requires before { (d : ℕ) → d < from → ¬ (IsUnsignedOne matrix.now signs.now row d) }
    ensures { MatchOption result ((d : ℕ) → ¬ (IsUnsignedOne matrix.now signs.now row d))
        (IsFirstUnsigned matrix.now signs.now row) }
{
    next_unsigned(matrix, row, from, signs)
}

fn sign_free(
    row: u32,
    column: u32,
    matrix: &RowsAndColumns<'_>,
    signing: &mut Signing,
) -> Result<(), Memory>
    requires matrix { IsMatrix matrix.now }
    requires row { row < height matrix.now }
    requires state { IsAtRow matrix.now row signing.old }
    requires first { IsFirstUnsigned matrix.now signing.old.signs row column }
    requires none { NoneForced matrix.now signing.old.signs row }
    ensures state { OnOk result (IsAtRow matrix.now row signing.new) }
    ensures flag { OnOk result (signing.new.steps.are_kept ≡ signing.old.steps.are_kept) }
    ensures fewer { OnOk result (unsigned_before matrix.now signing.new.signs row matrix.now.width
        < unsigned_before matrix.now signing.old.signs row matrix.now.width) }
    ensures keeps { OnOk result ((d : ℕ) → IsUnsignedOne matrix.now signing.new.signs row d
        → IsUnsignedOne matrix.now signing.old.signs row d) }
    ensures places { OnOk result ((places : RowPlaces)
        → KnowsPlaces matrix.now signing.old.signs row places
        → KnowsPlaces matrix.now signing.new.signs row places) }
{
    signing.signs.set(row, column, 1);
    signing.steps.free(row, column)?;
    signing.signed.columns.push(column)?;
    Ok(())
}

fn sign_forced(
    alloc: Global,
    matrix: &RowsAndColumns<'_>,
    places: &mut RowPlaces,
    row: u32,
    forced: ForcedOne,
    signing: &mut Signing,
) -> Result<(), Memory>
    requires row { row < height matrix.now }
    requires places { KnowsPlaces matrix.now signing.old.signs row places.old }
    requires state { IsAtRow matrix.now row signing.old }
    requires forced { IsForcedNext matrix.now signing.old.signs row forced }
    ensures state { OnOk result (IsAtRow matrix.now row signing.new) }
    ensures flag { OnOk result (signing.new.steps.are_kept ≡ signing.old.steps.are_kept) }
    ensures places { OnOk result (KnowsPlaces matrix.now signing.new.signs row places.new) }
    ensures fewer { OnOk result (unsigned_before matrix.now signing.new.signs row matrix.now.width
        < unsigned_before matrix.now signing.old.signs row matrix.now.width) }
    ensures keeps { OnOk result ((d : ℕ) → IsUnsignedOne matrix.now signing.new.signs row d
        → IsUnsignedOne matrix.now signing.old.signs row d) }
{
    signing
        .steps
        .forced(alloc, matrix, &signing.signs, places, row, forced)?;
    let ForcedOne {
        column,
        partner,
        mark,
    } = forced;
    let sign = closing_sign(mark, signing.signs.entry(row, partner));
    signing.signs.set(row, column, sign);
    signing.signed.columns.push(column)?;
    Ok(())
}

// The sign that makes the sum of a cycle a multiple of four. The mark is -1 if the sum of the path is 2 modulo 4, and 1 if it is
// a multiple of four. The other sign is that of the partner.
fn closing_sign(mark: i8, partner: i8) -> i8
    requires mark { IsSign mark }
    requires partner { IsSign partner }
    ensures sign { IsSign result }
    ensures four { (sum : ℤ) → TwoIf (is_minus mark) sum
        → IsZeroModFour ((partner +ℤ result) +ℤ sum) }
{
    if mark == partner { -1 } else { 1 }
}
