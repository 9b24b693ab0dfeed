// The position of the next pivot of a submatrix.
ghost use Rattle.std.specs.Prelude.{◌<◌, ◌^◌, IfOk, IfSome, MatchOption};
ghost use Rattle.cmr_base.specs.LineSets.{IsColumnSet, IsRowSet};
ghost use Rattle.cmr_base.specs.PlacedPivots.{IsPlaceIn};
ghost use Rattle.separating_places.specs.SeparatingPlaces.{HasNoLatePlace, HasNoPlaceFor, HasNoSeparatingPlace, IsLatePlace, IsNextPlace, IsPlaceFor, IsSeparatingPlace};

use block_ranks::place_before_cut;
use cmr_base::{LineSet, Matrix, Memory, Position, RowsAndColumns};
use path_places::cut_place;
use pivots::{DrawnPlace, drawn_place};
use std::alloc::Global;
use three_sep::first_cut;

/// The state after ten positions are drawn from the state 1.
pub const LATE_STATE: u32 = 267_834_847;

/// The position of the next pivot of the submatrix on these lines, with the state after it: the position of its first cut, or a drawn
/// position if it has no cut or its first cut has no position. After ten drawn positions the first nonzero whose pivot has a 2, a -2 or a
/// cut comes before a drawn one.
pub fn chosen_place(
    alloc: Global,
    matrix: &Matrix,
    lines: &LineSet,
    state: u32,
) -> Result<Option<DrawnPlace>, Memory>
    requires rows { IsRowSet matrix.now lines.now.rows }
    requires columns { IsColumnSet matrix.now lines.now.columns }
    requires state { state < 2 ^ 31 }
    ensures place { IfOk result (IsNextPlace matrix.now lines.now state) }
    ensures inside { IfOk result (λ found. IfSome found
        (λ chosen. IsPlaceIn matrix.now lines.now chosen.place)) }
    ensures low { IfOk result (λ found. IfSome found (λ chosen. chosen.state < 2 ^ 31)) }
{
    if let Some(place) = separating_place(alloc, matrix, lines)? {
        return Ok(Some(DrawnPlace { place, state }));
    }
    match late_place(alloc, matrix, lines, state)? {
        Some(place) => Ok(Some(DrawnPlace { place, state })),
        None => Ok(drawn_place(matrix, lines, state)),
    }
}

// After ten drawn positions, the first nonzero of the submatrix on these lines whose pivot has a 2, a -2 or a cut.
fn late_place(
    alloc: Global,
    matrix: &Matrix,
    lines: &LineSet,
    state: u32,
) -> Result<Option<Position>, Memory>
    requires rows { IsRowSet matrix.now lines.now.rows }
    requires columns { IsColumnSet matrix.now lines.now.columns }
    ensures place { IfOk result (λ found. MatchOption found
        (HasNoLatePlace matrix.now lines.now state)
        (IsLatePlace matrix.now lines.now state)) }
    ensures inside { IfOk result (λ found. IfSome found (IsPlaceIn matrix.now lines.now)) }
{
    if state != LATE_STATE {
        return Ok(None);
    }
    let submatrix = matrix.part(alloc, lines)?;
    let columns = submatrix.transposed(alloc)?;
    let Some(place) = place_before_cut(alloc, &RowsAndColumns::of(&submatrix, &columns))? else {
        return Ok(None);
    };
    Ok(Some(Position {
        row: *lines.rows.get(place.row as usize),
        column: *lines.columns.get(place.column as usize),
    }))
}

// The position of the first cut of the submatrix on these lines, by the line numbers of the matrix.
fn separating_place(
    alloc: Global,
    matrix: &Matrix,
    lines: &LineSet,
) -> Result<Option<Position>, Memory>
    requires rows { IsRowSet matrix.now lines.now.rows }
    requires columns { IsColumnSet matrix.now lines.now.columns }
    ensures place { IfOk result (λ found. MatchOption found
        (HasNoSeparatingPlace matrix.now lines.now)
        (IsSeparatingPlace matrix.now lines.now)) }
    ensures inside { IfOk result (λ found. IfSome found (IsPlaceIn matrix.now lines.now)) }
{
    let submatrix = matrix.part(alloc, lines)?;
    let columns = submatrix.transposed(alloc)?;
    let Some(place) = place_for(alloc, &RowsAndColumns::of(&submatrix, &columns))? else {
        return Ok(None);
    };
    Ok(Some(Position {
        row: *lines.rows.get(place.row as usize),
        column: *lines.columns.get(place.column as usize),
    }))
}

// The position of the first cut.
fn place_for(alloc: Global, matrix: &RowsAndColumns<'_>) -> Result<Option<Position>, Memory>
    ensures { IfOk result (λ found. MatchOption found (HasNoPlaceFor matrix.now)
        (IsPlaceFor matrix.now)) }
{
    let Some(side) = first_cut(alloc, matrix)? else {
        return Ok(None);
    };
    cut_place(alloc, matrix.by_rows(), &side)
}
