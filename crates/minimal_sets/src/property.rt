// Properties of matrices.
ghost use Rattle.std.specs.Prelude.{◌↔◌, IsTrue, IfOk};
ghost use Rattle.cmr_base.specs.Matrix.{Matrix, IsMatrix};
ghost use Rattle.cmr_base.specs.LineSets.{IsRowSet, IsColumnSet, submatrix};

use cmr_base::{LineSet, Matrix, Memory};
use std::alloc::Global;

/// A property of matrices, with a test of it.
pub trait Property {
    /// The definition of the property.
    ghost holds: { Self → Matrix → Type 0 };

    /// The matrices whose submatrices may be tested.
    ghost domain: { Self → Matrix → Type 0 };

    /// Decides whether the submatrix on these lines has the property.
    fn holds_on(&self, alloc: Global, matrix: &Matrix, lines: &LineSet) -> Result<bool, Memory>
        requires shape { IsMatrix matrix.now }
        requires domain { domain self.now matrix.now }
        requires rows { IsRowSet matrix.now lines.now.rows }
        requires columns { IsColumnSet matrix.now lines.now.columns }
        ensures { IfOk result (λ yes. IsTrue yes ↔ holds self.now (submatrix matrix.now
            lines.now.rows lines.now.columns)) };
}
