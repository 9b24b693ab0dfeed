// Why the submatrix of a part is totally unimodular.
ghost use Rattle.std.specs.Prelude.{◌≡◌, ◌↔◌, length, IfOk, IsTrue};
ghost use Rattle.cmr_base.specs.Matrix.{height};
ghost use Rattle.sparse_matrix.specs.SparseRows.{AreCrossed, matrix_of_runs};
ghost use Rattle.tree_type.specs.DecompositionTrees.{tree_of};
ghost use Rattle.tree_type.specs.Verdicts.{Yes, verdict_of};
ghost use Rattle.two_nonzeros.specs.Cancelling.{AreSplitBy};
ghost use Rattle.large_evidence.specs.LargeEvidence.{IsReasonFor, IsTreeOfYes};

use crate::evidence::PartReason;
use cert_check::accept;
use cmr_base::{MAX_COLUMNS, MAX_ROWS, Memory};
use core_parts::dense;
use sparse_matrix::SparseMatrix;
use std::alloc::Global;
use tree_type::{DecTree, VerdictOf, verdict};
use two_nonzeros::first_uncancelled;

// Whether there is a sign for each row, and these signs cancel the columns.
fn cancel_columns(minus: &[bool], rows: &SparseMatrix, columns: &SparseMatrix) -> bool
    requires { AreCrossed rows.now columns.now }
    ensures { IsTrue result
        → (length minus.now ≡ length rows.now.runs) × AreSplitBy minus.now rows.now }
{
    if minus.len() != rows.rows() as usize {
        return false;
    }
    first_uncancelled(minus, rows, columns).is_none()
}

fn is_yes(tree: &DecTree) -> bool
    ensures { IsTrue result ↔ (verdict_of (tree_of tree.now.root) ≡ Yes) }
{
    matches!(verdict(tree), VerdictOf::Yes)
}

// Whether a matrix is within the limits, and the tree is sound for it, with the verdict yes.
fn is_decomposed(alloc: Global, part: &SparseMatrix, tree: &DecTree) -> Result<bool, Memory>
    ensures { IfOk result (λ yes. IsTrue yes → IsTreeOfYes (matrix_of_runs part.now) tree.now) }
{
    let _root = tree.root();
    if part.rows() > MAX_ROWS || part.columns() > MAX_COLUMNS {
        return Ok(false);
    }
    if !is_yes(tree) {
        return Ok(false);
    }
    let matrix = dense(alloc, part)?;
    let _height = matrix.rows();
    Ok(accept(alloc, &matrix, tree)?.is_none())
}

/// Whether the reason is one for this matrix.
pub fn is_reason(alloc: Global, part: &SparseMatrix, reason: &PartReason) -> Result<bool, Memory>
    ensures { IfOk result (λ yes. IsTrue yes → IsReasonFor (matrix_of_runs part.now) reason.now) }
{
    let _height = part.rows();
    let columns = part.transposed(alloc)?;
    let _width = columns.rows();
    match reason {
        PartReason::Columns(minus) => Ok(cancel_columns(minus, part, &columns)),
        PartReason::Rows(minus) => Ok(cancel_columns(minus, &columns, part)),
        PartReason::Tree(tree) => is_decomposed(alloc, part, tree),
    }
}
