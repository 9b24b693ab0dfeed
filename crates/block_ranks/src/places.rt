// The first position of a pivot after which there is a cut.
ghost use Rattle.std.specs.Prelude.{◌≡◌, ◌≢◌, ◌<◌, ◌+◌, pos, true, false, IfOk, MatchOption};
ghost use Rattle.cmr_base.specs.declared.line.Line.TheVariants.{Column, Row};
ghost use Rattle.cmr_base.specs.Matrix.{height, entry, IsMatrix};
ghost use Rattle.three_sep.specs.FirstCuts.{HasCut, HasNoCut};
ghost use Rattle.block_ranks.specs.Links.{AreLinkedLines, HaveLabelsUpTo};
ghost use Rattle.block_ranks.specs.PlacesBeforeCuts.{HasNoPlaceBeforeCut, IsFirstPlaceBeforeCut, IsPlaceBeforeCut};

use cmr_base::{Matrix, Memory, Position, RowsAndColumns, join_labels, own_labels};
use pivots::{Pivoted, pivot};
use std::alloc::Global;
use three_sep::first_cut;

/// The first nonzero, by rows and then by columns, whose pivot has a 2, a -2 or a cut, and `None` if and only if there is none.
/// A cut is searched for only if earlier nonzeros do not link the row and the column. So the number of searches is at most the
/// number of edges of a spanning forest.
pub fn place_before_cut(
    alloc: Global,
    matrix: &RowsAndColumns<'_>,
) -> Result<Option<Position>, Memory>
    ensures { IfOk result (λ found. MatchOption found (HasNoPlaceBeforeCut matrix.now)
        (IsFirstPlaceBeforeCut matrix.now)) }
{
    let mut labels = own_labels(alloc, matrix.rows() + matrix.columns())?;
    for row in 0..matrix.rows() {
        let found = place_in_row(alloc, matrix, row, &mut labels)?;
        if found.is_some() {
            return Ok(found);
        }
    }
    Ok(None)
}

// The first one in a row. Without one, the labels join the lines of all nonzeros of the row.
fn place_in_row(
    alloc: Global,
    matrix: &RowsAndColumns<'_>,
    row: u32,
    labels: &mut Vec<u32>,
) -> Result<Option<Position>, Memory>
    requires row { row < height matrix.now }
    requires before { HaveLabelsUpTo matrix.now row 0 labels.old.items }
    ensures { IfOk result (λ found. MatchOption found
        (HaveLabelsUpTo matrix.now (row + 1) 0 labels.new.items)
        (IsFirstPlaceBeforeCut matrix.now)) }
{
    let rows = matrix.rows();
    for column in 0..matrix.columns() {
        if matrix.is_nonzero(row, column) {
            let place = Position { row, column };
            let label = labels[row as usize];
            let other = labels[(rows + column) as usize];
            if is_before_cut(alloc, matrix, place, label == other)? {
                return Ok(Some(place));
            }
            join_labels(labels, label, other);
        }
    }
    Ok(None)
}

// Whether the pivot at a nonzero has a 2, a -2 or a cut. If the row and the column are linked, a pivot without a 2 and a -2 has
// no cut.
fn is_before_cut(
    alloc: Global,
    matrix: &RowsAndColumns<'_>,
    place: Position,
    are_linked: bool,
) -> Result<bool, Memory>
    requires row { place.row < height matrix.now }
    requires column { place.column < matrix.now.width }
    requires nonzero { entry matrix.now place.row place.column ≢ pos 0 }
    requires shape { IsMatrix matrix.now }
    requires linked { are_linked ≡ true
        → AreLinkedLines matrix.now (Row place.row) (Column place.column) }
    ensures yes { IfOk result (λ is. is ≡ true → IsPlaceBeforeCut matrix.now place) }
    ensures no { IfOk result (λ is. is ≡ false → ¬ (IsPlaceBeforeCut matrix.now place)) }
{
    match pivot(alloc, matrix.by_rows(), place.row, place.column)? {
        Pivoted::Violated(_) => Ok(true),
        Pivoted::Ternary(after) => {
            let _rows = after.rows();
            Ok(!are_linked && has_cut(alloc, &after)?)
        }
    }
}

// Whether a matrix has a cut.
fn has_cut(alloc: Global, matrix: &Matrix) -> Result<bool, Memory>
    ensures yes { IfOk result (λ has. has ≡ true → HasCut matrix.now) }
    ensures no { IfOk result (λ has. has ≡ false → HasNoCut matrix.now) }
{
    let columns = matrix.transposed(alloc)?;
    let found = first_cut(alloc, &RowsAndColumns::of(matrix, &columns))?;
    Ok(found.is_some())
}
