// The first two-separation.
ghost use Rattle.std.specs.Prelude.{◌≢◌, ◌<◌, ◌+◌, pos, IfOk, MatchOption};
ghost use Rattle.cmr_base.specs.Matrix.{height, entry};
ghost use Rattle.cmr_base.specs.Separations.{HasNoTwoSeparation};
ghost use Rattle.line_growth.specs.GrowingSets.{IsSizedFor, set_of};
ghost use Rattle.two_sep.specs.FirstSeeds.{AreLabelled, ArePassed, HasNoGoodSeed, IsFirstGoodSide, IsFirstTwoSeparation};
ghost use Rattle.two_sep.specs.LinkedLines.{AreSizedFor};

use crate::linked_lines::LinkedLines;
use crate::seeds::first_good_side;
use cmr_base::{Matrix, Memory, RowsAndColumns, Two, join_labels, own_labels};
use line_growth::GrowingSet;
use std::alloc::Global;

/// The two-separation of the first good seed, in the order of the rows, columns and lines of seeds, and `None` if the matrix
/// has no two-separation. A nonzero without a good seed has its row and its column on one side of every two-separation. So the
/// search skips nonzeros whose lines are linked by earlier nonzeros.
pub fn two_separation(alloc: Global, matrix: &Matrix) -> Result<Option<Two>, Memory>
    ensures { IfOk result (λ found. MatchOption found (HasNoTwoSeparation matrix.now)
        (λ two. IsFirstTwoSeparation matrix.now two)) }
{
    let columns = matrix.transposed(alloc)?;
    two_separation_of(alloc, &RowsAndColumns::of(matrix, &columns))
}

/// The same for a matrix by its rows and its columns.
pub fn two_separation_of(alloc: Global, matrix: &RowsAndColumns<'_>) -> Result<Option<Two>, Memory>
    ensures { IfOk result (λ found. MatchOption found (HasNoTwoSeparation matrix.now)
        (λ two. IsFirstTwoSeparation matrix.now two)) }
{
    let mut labels = own_labels(alloc, matrix.rows() + matrix.columns())?;
    let mut linked = LinkedLines::new(alloc, matrix)?;
    for row in 0..matrix.rows() {
        let found = separation_at(alloc, matrix, row, &mut labels, &mut linked)?;
        if found.is_some() {
            return Ok(found);
        }
    }
    Ok(None)
}

// The first two-separation at a nonzero of a row. Without one, the labels join the lines of all nonzeros of the row.
fn separation_at(
    alloc: Global,
    matrix: &RowsAndColumns<'_>,
    row: u32,
    labels: &mut Vec<u32>,
    linked: &mut LinkedLines,
) -> Result<Option<Two>, Memory>
    requires size { AreSizedFor matrix.now linked.old }
    requires row { row < height matrix.now }
    requires passed { ArePassed matrix.now row 0 labels.old.items }
    ensures size { AreSizedFor matrix.now linked.new }
    ensures found { IfOk result (λ found. MatchOption found
        (ArePassed matrix.now (row + 1) 0 labels.new.items)
        (λ two. IsFirstTwoSeparation matrix.now two)) }
{
    let rows = matrix.rows();
    for column in 0..matrix.columns() {
        let label = labels[row as usize];
        let other = labels[(rows + column) as usize];
        if label != other && matrix.entry(row, column) != 0 {
            if let Some(side) = good_side(alloc, matrix, row, column, labels, linked)? {
                return Ok(Some(Two {
                    side: side.line_set(alloc)?,
                    row,
                    column,
                }));
            }
            join_labels(labels, label, other);
        }
    }
    Ok(None)
}

// The side to which the first good seed at a nonzero grows, and `None` if no seed there is good. It is searched for only if the
// labels do not show that there is none.
fn good_side(
    alloc: Global,
    matrix: &RowsAndColumns<'_>,
    row: u32,
    column: u32,
    labels: &[u32],
    linked: &mut LinkedLines,
) -> Result<Option<GrowingSet>, Memory>
    requires size { AreSizedFor matrix.now linked.old }
    requires linked { AreLabelled matrix.now labels.now }
    requires row { row < height matrix.now }
    requires column { column < matrix.now.width }
    requires nonzero { entry matrix.now row column ≢ pos 0 }
    ensures size { AreSizedFor matrix.now linked.new }
    ensures found { IfOk result (λ found. MatchOption found (HasNoGoodSeed matrix.now row column)
        (λ side. IsSizedFor matrix.now side
        × IsFirstGoodSide matrix.now row column (set_of side))) }
{
    if linked.show_none(matrix, labels, row, column)? {
        return Ok(None);
    }
    first_good_side(alloc, matrix, row, column)
}
