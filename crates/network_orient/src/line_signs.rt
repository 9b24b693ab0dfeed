// Signs of lines that turn one matrix into another.
ghost use Rattle.std.specs.Prelude.{IfOk};
ghost use Rattle.cmr_base.specs.Supports.{HaveOneSupport};
ghost use Rattle.network_orient.specs.SignsBetween.{AreSignsBetween};

use crate::column_groups::ColumnGroups;
use cmr_base::{Matrix, Memory};
use std::alloc::Global;

/// A sign, +1 or -1, for each row and each column.
#[derive(Debug, Drop)]
pub struct LineSigns {
    pub rows: Vec<i8>,
    pub columns: Vec<i8>,
}

/// Whether signs of the lines turn one matrix into another.
#[derive(Debug, Drop)]
pub enum SignsBetween {
    /// Signs that turn the first matrix into the second.
    Found(LineSigns),
    /// No signs turn the rows up to this row. If the first matrix has no violator, this is the first row of the second matrix
    /// with a cycle fault.
    WrongRow(u32),
}

/// Signs of the lines that turn one matrix into another with the same support.
pub fn signs_between(alloc: Global, from: &Matrix, to: &Matrix) -> Result<SignsBetween, Memory>
    requires { HaveOneSupport from.now to.now }
    ensures { IfOk result (AreSignsBetween from.now to.now) }
{
    let groups = ColumnGroups::of(alloc, from, to)?;
    let _columns = to.columns();
    let mut rows = Vec::with_capacity(alloc, from.rows() as usize)?;
    for row in 0..from.rows() {
        let sign = groups.row_sign(from, to, row);
        if !groups.is_row_multiplied(from, to, row, sign) {
            return Ok(SignsBetween::WrongRow(row));
        }
        rows.push(sign)?;
    }
    Ok(SignsBetween::Found(LineSigns {
        rows,
        columns: groups.signs,
    }))
}
