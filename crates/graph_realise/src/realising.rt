// A tree in which the supports of the columns are paths.
ghost use Rattle.std.specs.Prelude.{IfOk, MatchOption};
ghost use Rattle.cmr_base.specs.Trees.{HasGraphicSupport, ReproducesSupport};

use crate::arc_sides::ArcSides;
use crate::growing::grow_network;
use crate::side_search::{TreeSearch, find_sides};
use cmr_base::{LineSet, Matrix, Memory, Network};
use std::alloc::Global;

/// A tree whose arcs are the rows, and for each column the path whose arcs are the column's support; `None` if and only if
/// there is none. Signs do not matter. A 0/1 matrix is graphic if and only if there is such a tree.
pub fn realise(alloc: Global, matrix: &Matrix) -> Result<Option<Network>, Memory>
    ensures { IfOk result (λ found. MatchOption found (¬ (HasGraphicSupport matrix.now))
        (λ net. ReproducesSupport net matrix.now)) }
{
    let mut sides = ArcSides::new(alloc, matrix)?;
    let lines = LineSet::all(alloc, matrix.rows(), 0)?;
    match find_sides(alloc, matrix, &lines.rows, 0, &mut sides)? {
        TreeSearch::Found => Ok(Some(grow_network(alloc, matrix, &sides)?)),
        TreeSearch::NoTree => Ok(None),
    }
}
