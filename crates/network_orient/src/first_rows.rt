// First rows without cycle fault, since they agree with a network matrix or a transposed network matrix.
ghost use Rattle.std.specs.Prelude.{IfOk};
ghost use Rattle.cmr_base.specs.Matrix.{transposed};
ghost use Rattle.cmr_base.specs.Trees.{ReproducesSupport};
ghost use Rattle.network_orient.specs.FirstRows.{HasNoFaultBefore};

use crate::line_signs::{SignsBetween, signs_between};
use crate::orienting::{Orientation, orientation_of};
use cmr_base::{Matrix, Memory, Network, RowsAndColumns};
use graph_realise::realise;
use std::alloc::Global;

/// The number of first rows that a tree shows to have no cycle fault. The tree has the supports of the columns as paths, or
/// otherwise the supports of the rows. The rows end before the first row that differs from the network's signs, however lines
/// are multiplied by -1. The number is 0 if there is no such tree.
pub fn rows_without_fault(alloc: Global, matrix: &RowsAndColumns<'_>) -> Result<u32, Memory>
    ensures { IfOk result (HasNoFaultBefore matrix.now) }
{
    match orientation_of(alloc, matrix.by_rows())? {
        Orientation::Directed(_) => Ok(matrix.rows()),
        Orientation::WrongSigns { row, .. } => Ok(row),
        Orientation::NoTree => rows_by_columns(alloc, matrix),
    }
}

// The number of first rows that a tree with the supports of the rows as paths shows to have no cycle fault.
fn rows_by_columns(alloc: Global, matrix: &RowsAndColumns<'_>) -> Result<u32, Memory>
    ensures { IfOk result (HasNoFaultBefore matrix.now) }
{
    match realise(alloc, matrix.by_columns())? {
        Some(net) => rows_of_transposed(alloc, &net, matrix.by_rows()),
        None => Ok(0),
    }
}

/// The number of first rows that this tree shows to have no cycle fault. Its paths are the supports of the rows. The rows end
/// before the first row that differs from the transposed network's signs, however lines are multiplied by -1.
pub fn rows_of_transposed(alloc: Global, net: &Network, matrix: &Matrix) -> Result<u32, Memory>
    requires { ReproducesSupport net.now (transposed matrix.now) }
    ensures { IfOk result (HasNoFaultBefore matrix.now) }
{
    let reproduced = net.matrix(alloc, matrix.columns(), matrix.rows())?;
    let transposed = reproduced.transposed(alloc)?;
    match signs_between(alloc, &transposed, matrix)? {
        SignsBetween::Found(_) => Ok(matrix.rows()),
        SignsBetween::WrongRow(row) => Ok(row),
    }
}
