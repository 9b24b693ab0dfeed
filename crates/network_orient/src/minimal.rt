// A minimal submatrix that is not a network matrix.
ghost use Rattle.std.specs.Prelude.{IfOk, IfSome, MatchOption};
ghost use Rattle.cmr_base.specs.GreedySets.{IsGreedySet, IsMinimalWithout};
ghost use Rattle.cmr_base.specs.Trees.{IsNetworkMatrix};

use crate::orienting::orient;
use cmr_base::{LineSet, Matrix, Memory};
use minimal_sets::{Property, minimal_without};
use std::alloc::Global;

/// A minimal set of lines whose submatrix is not a network matrix, and `None` if and only if the matrix is a network matrix.
/// The search visits each line once, rows first, and removes a line if the others still make a matrix that is not a network
/// matrix.
pub fn minimal_not_network(alloc: Global, matrix: &Matrix) -> Result<Option<LineSet>, Memory>
    ensures found { IfOk result (λ found. MatchOption found
        (IsNetworkMatrix matrix.now)
        (λ lines. (¬ IsNetworkMatrix matrix.now)
        × IsGreedySet IsNetworkMatrix matrix.now lines.rows lines.columns)) }
    ensures minimal { IfOk result (λ found. IfSome found (λ lines.
        IsMinimalWithout IsNetworkMatrix matrix.now lines.rows lines.columns)) }
{
    minimal_without(alloc, matrix, &NetworkMatrices)
}

// The property of a matrix to be a network matrix.
#[derive(Drop)]
struct NetworkMatrices;

impl Property for NetworkMatrices {
    ghost holds = { λ _ m. IsNetworkMatrix m };

    ghost domain = { λ _ _. Unit {0} };

    fn holds_on(&self, alloc: Global, matrix: &Matrix, lines: &LineSet) -> Result<bool, Memory> {
        let part = matrix.part(alloc, lines)?;
        Ok(orient(alloc, &part)?.is_some())
    }
}
