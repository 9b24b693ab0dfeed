// Stars: trees in which no arc separates others.
ghost use Rattle.std.specs.Prelude.{◌≡◌, ◌<◌, OnOk};
ghost use Rattle.cmr_base.specs.Cuts.{IsCuts};
ghost use Rattle.cmr_base.specs.LineSets.{AllBelow};
ghost use Rattle.cmr_base.specs.Matrix.{height};
ghost use Rattle.cmr_base.specs.Members.{IsIn};
ghost use Rattle.cmr_base.specs.Splits.{HasNoThree};
ghost use Rattle.cmr_base.specs.Trees.{support};
ghost use Rattle.cmr_base.specs.ColumnSets.{has_column};
ghost use Rattle.graph_realise.specs.SideTables.{AreClear, AreTablesOf, KeepsOtherArcs, KeepsOutside, side_in, end_in};
ghost use Rattle.graph_realise.specs.Rays.{IsRayAfter};

use crate::arc_sides::ArcSides;
use cmr_base::{BitSet, Indices, Matrix, Memory, columns_of};
use std::alloc::Global;

/// Draws the rows as a star if no column has three nonzeros in them. The first end of a column is the leaf of its first row.
/// The last end is the leaf of its second row, or the middle if there is none.
pub fn draw_star(
    alloc: Global,
    matrix: &Matrix,
    rows: &Indices,
    sides: &mut ArcSides,
) -> Result<(), Memory>
    requires rows { AllBelow (height matrix.now) rows.now }
    requires few { HasNoThree (support matrix.now) rows.now }
    requires tables { AreTablesOf matrix.now sides.old }
    ensures tables { AreTablesOf matrix.now sides.new }
    ensures cuts { OnOk result (IsCuts (support matrix.now) (λ r. IsIn r rows.now)
        (side_in sides.new) (end_in sides.new)) }
    ensures clear { OnOk result (AreClear (support matrix.now) rows.now sides.new) }
    ensures others { KeepsOutside sides.old sides.new rows.now }
{
    let mut seen = BitSet::new(alloc, matrix.columns())?;
    for row in rows.as_slice() {
        draw_ray(matrix, *row, &seen, sides);
        seen.add_words(columns_of(matrix, *row));
    }
    Ok(())
}

// One arc of the star. `seen` contains the columns of earlier rows.
fn draw_ray(matrix: &Matrix, row: u32, seen: &BitSet, sides: &mut ArcSides)
    requires row { row < height matrix.now }
    requires seen { seen.now.size ≡ matrix.now.width }
    requires tables { AreTablesOf matrix.now sides.old }
    ensures tables { AreTablesOf matrix.now sides.new }
    ensures drawn { IsRayAfter (support matrix.now) (has_column seen.now.words) row sides.new }
    ensures others { KeepsOtherArcs sides.old sides.new row }
{
    let _rows = matrix.rows();
    let columns = columns_of(matrix, row);
    sides.arcs.clear(row);
    sides.first.fill_outside(row, columns, seen);
    sides.last.fill_common(row, columns, seen);
}
