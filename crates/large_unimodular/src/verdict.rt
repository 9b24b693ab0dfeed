// The verdict on a large matrix.
ghost use Rattle.std.specs.Prelude.{◌≤◌, IfOk};
ghost use Rattle.std.specs.List.{Contains};
ghost use Rattle.cmr_base.specs.declared.limits.TheConstants.{MAX_LINES};
ghost use Rattle.sparse_matrix.specs.SparseRows.{matrix_of_runs};
ghost use Rattle.tree_type.specs.Soundness.{part};
ghost use Rattle.core_parts.specs.CoreParts.{AreDivided};
ghost use Rattle.large_unimodular.specs.LargeVerdicts.{IsLargeVerdict};
ghost use Rattle.large_unimodular.specs.PartVerdicts.{IsPartVerdict};

use crate::part_verdicts::{PartVerdict, part_verdict};
use cmr_base::{LineSet, Memory};
use core_parts::{CoreParts, part_matrix, parts_of_core};
use decomp_tree::named_set;
use first_hit::Workers;
use sparse_matrix::SparseMatrix;
use std::alloc::Global;
use std::thread::Threads;
use tree_type::copy_of;

/// Whether a matrix is totally unimodular.
#[derive(Debug, Drop)]
pub enum LargeVerdict {
    Yes,
    /// It is not: these lines are a violator.
    No(LineSet),
    /// Undecided, since this part of the core stays open.
    Open(LineSet),
}

// The verdict on a part.
fn verdict_at<R: Threads + Sync>(
    rt: &R,
    alloc: Global,
    matrix: &SparseMatrix,
    parts: &CoreParts,
    lines: &LineSet,
    limit: u32,
    pivots: u32,
    workers: Workers,
) -> Result<PartVerdict, Memory>
    requires limit { limit ≤ MAX_LINES }
    requires divided { AreDivided matrix.now parts.now }
    requires lines { Contains parts.now.sets.items lines.now }
    ensures { IfOk result (IsPartVerdict limit pivots
        (part (matrix_of_runs matrix.now) lines.now)) }
{
    let _height = matrix.rows();
    let part = part_matrix(alloc, matrix, lines, &parts.columns, &parts.places)?;
    part_verdict(rt, alloc, &part, limit, pivots, workers)
}

/// Decides whether a matrix is totally unimodular, by the connected parts of its core in the order of their first rows: no by the first
/// part that is a no, and otherwise open by the first part that stays open. A part is decided if none of its columns, or none of its
/// rows, has three nonzeros. Otherwise it is a yes if the nonzeros of each column, or of each row, are consecutive and equal. Any other
/// part within the limits of `Matrix` is decided by its decomposition with this budget and this number of pivots.
pub fn decide_large<R: Threads + Sync>(
    rt: &R,
    alloc: Global,
    matrix: &SparseMatrix,
    limit: u32,
    pivots: u32,
    workers: Workers,
) -> Result<LargeVerdict, Memory>
    requires { limit ≤ MAX_LINES }
    ensures { IfOk result (IsLargeVerdict limit pivots (matrix_of_runs matrix.now)) }
{
    let _height = matrix.rows();
    let parts = parts_of_core(alloc, matrix)?;
    let mut first_open = None;
    for index in 0..parts.sets.len() {
        let lines = &parts.sets[index];
        match verdict_at(rt, alloc, matrix, &parts, lines, limit, pivots, workers)? {
            PartVerdict::Yes => {}
            PartVerdict::No(fault) => {
                return Ok(LargeVerdict::No(named_set(alloc, lines, &fault)?));
            }
            PartVerdict::Open => first_open = first_open.or(Some(index)),
        }
    }
    match first_open {
        None => Ok(LargeVerdict::Yes),
        Some(index) => Ok(LargeVerdict::Open(copy_of(alloc, &parts.sets[index])?)),
    }
}
