// A node that is searched.
ghost use Rattle.std.specs.Prelude.{◌≡◌};
ghost use Rattle.cmr_base.specs.Matrix.{IsMatrix};
ghost use Rattle.tree_type.specs.Invariant.{AreLines};
ghost use Rattle.tree_type.specs.Soundness.{part};

use crate::search_limits::SearchLimits;
use cmr_base::{LineSet, Matrix, RowsAndColumns};

/// Some lines of a matrix, the submatrix on them, and the limits of the search.
#[derive(Clone, Copy)]
pub struct SearchedNode<'a> {
    pub matrix: &'a Matrix,
    pub lines: &'a LineSet,
    pub submatrix: &'a RowsAndColumns<'a>,
    pub limits: SearchLimits,
    ghost shape: { IsMatrix matrix.now },
    ghost are_lines: { AreLines matrix.now lines.now },
    ghost submatrix_is: { submatrix.now ≡ part matrix.now lines.now },
}
