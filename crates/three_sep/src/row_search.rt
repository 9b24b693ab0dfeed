// The search for good seeds of the concentrated form with a given row in side one.
ghost use Rattle.std.specs.Prelude.{◌<◌};
ghost use Rattle.cmr_base.specs.Matrix.{height};
ghost use Rattle.three_sep.specs.Concentrated.{AreCandidates};

use crate::forced::ForcedColumns;
use cmr_base::{BitSet, Memory, RowsAndColumns};
use std::alloc::Global;

/// A row of side one, and the columns that may be in side two.
#[derive(Drop)]
pub struct RowSearch<'a> {
    pub matrix: &'a RowsAndColumns<'a>,
    pub row: u32,
    pub candidates: BitSet,
    ghost row_in: { row < height matrix.now },
    ghost are_candidates: { AreCandidates matrix.now row candidates },
}

impl<'a> RowSearch<'a> {
    ghost use Rattle.std.specs.Prelude.{◌<◌, IfOk};
    ghost use Rattle.cmr_base.specs.Matrix.{height};
    ghost use Rattle.three_sep.specs.RowSearches.{IsRowSearchOf};

    /// The candidates are all columns except the columns forced by the row.
    pub fn new(
        alloc: Global,
        matrix: &'a RowsAndColumns<'a>,
        row: u32,
    ) -> Result<RowSearch<'a>, Memory>
        requires { row < height matrix.now }
        ensures { IfOk result (IsRowSearchOf matrix.entry.now row) }
    {
        let forced = ForcedColumns::by_row(alloc, matrix, row)?;
        let candidates = forced.others(alloc)?;
        Ok(RowSearch {
            matrix,
            row,
            candidates,
        })
    }
}
