// The sides of the arcs of a tree.
ghost use Rattle.std.specs.Prelude.{IfOk};
ghost use Rattle.graph_realise.specs.SideTables.{AreTablesOf};

use crate::table::Table;
use cmr_base::{Matrix, Memory};
use std::alloc::Global;

/// A tree, described by its arcs only. Each arc has two sides, which are truth values. For the arc of each row the tables
/// contain the side on which each other arc lies, and the sides of the first and the last end of each column's path.
#[derive(Debug, Drop)]
pub struct ArcSides {
    pub arcs: Table,
    pub first: Table,
    pub last: Table,
}

impl ArcSides {
    /// Room for the arcs of a matrix.
    pub fn new(alloc: Global, matrix: &Matrix) -> Result<ArcSides, Memory>
        ensures { IfOk result (AreTablesOf matrix.now) }
    {
        let (rows, columns) = (matrix.rows(), matrix.columns());
        Ok(ArcSides {
            arcs: Table::new(alloc, rows, rows)?,
            first: Table::new(alloc, rows, columns)?,
            last: Table::new(alloc, rows, columns)?,
        })
    }
}
