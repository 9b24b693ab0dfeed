// A minimal submatrix that is not graphic.
ghost use Rattle.std.specs.Prelude.{IfOk, IfSome, MatchOption};
ghost use Rattle.cmr_base.specs.GreedySets.{IsGreedySet, IsMinimalWithout};
ghost use Rattle.cmr_base.specs.Trees.{IsBinary, IsGraphic};

use crate::realising::realise;
use cmr_base::{LineSet, Matrix, Memory};
use minimal_sets::{Property, minimal_without};
use std::alloc::Global;

/// A minimal set of lines whose submatrix is not graphic, and `None` if and only if the matrix is graphic. The search visits
/// each line once, rows first, and removes a line if the others still make a matrix that is not graphic.
pub fn minimal_not_graphic(alloc: Global, matrix: &Matrix) -> Result<Option<LineSet>, Memory>
    requires { IsBinary matrix.now }
    ensures found { IfOk result (λ found. MatchOption found
        (IsGraphic matrix.now)
        (λ lines. (¬ IsGraphic matrix.now)
        × IsGreedySet IsGraphic matrix.now lines.rows lines.columns)) }
    ensures minimal { IfOk result (λ found.
        IfSome found (λ lines. IsMinimalWithout IsGraphic matrix.now lines.rows lines.columns)) }
{
    minimal_without(alloc, matrix, &Graphic)
}

// The property of a 0/1 matrix to be graphic.
#[derive(Drop)]
struct Graphic;

impl Property for Graphic {
    ghost holds = { λ _ m. IsGraphic m };

    ghost domain = { λ _ m. IsBinary m };

    fn holds_on(&self, alloc: Global, matrix: &Matrix, lines: &LineSet) -> Result<bool, Memory> {
        let part = matrix.part(alloc, lines)?;
        Ok(realise(alloc, &part)?.is_some())
    }
}
