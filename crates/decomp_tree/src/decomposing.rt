// The tree of a matrix.
ghost use Rattle.std.specs.Prelude.{◌≡◌, ◌≤◌, IfOk};
ghost use Rattle.cmr_base.specs.Matrix.{height, IsMatrix};
ghost use Rattle.tree_type.specs.DecompositionTrees.{tree_of};
ghost use Rattle.tree_type.specs.Soundness.{IsSound};
ghost use Rattle.decomp_tree.specs.PivotedShapes.{IsShapeWith, all_lines};

use crate::levels::is_on_levels;
use crate::search_limits::SearchLimits;
use crate::settling::draw_root;
use cmr_base::{LineSet, MAX_DEPTH, MAX_LINES, Matrix, Memory};
use first_hit::Workers;
use std::alloc::Global;
use std::thread::Threads;
use tree_type::{DecTree, Node};

// The state from which the first pivot on the way to a node is drawn.
const FIRST_STATE: u32 = 1;

/// The decomposition of the matrix, by the first case that applies at each node. `limit` is the greatest number of lines of the shorter side
/// of a matrix whose row sets are enumerated. If nothing decides, at most `pivots` pivots are made on the path to a node. If a node of the
/// tree is then deeper than 2,000, the tree is drawn again with one pivot fewer, until none is.
pub fn decompose<R: Threads + Sync>(
    rt: &R,
    alloc: Global,
    matrix: &Matrix,
    limit: u32,
    pivots: u32,
    workers: Workers,
) -> Result<DecTree, Memory>
    requires { limit ≤ MAX_LINES }
    ensures rows { IfOk result (λ tree. tree.rows ≡ height matrix.now) }
    ensures columns { IfOk result (λ tree. tree.columns ≡ matrix.now.width) }
    ensures shape { IfOk result (λ tree. IsShapeWith limit pivots matrix.now (tree_of tree.root)) }
    ensures sound { IfOk result (IsSound matrix.now) }
{
    let lines = LineSet::all(alloc, matrix.rows(), matrix.columns())?;
    let limits = SearchLimits::new(limit, workers);
    let root = shallow_root(rt, alloc, matrix, &lines, limits, pivots)?;
    Ok(DecTree::make(matrix.rows(), matrix.columns(), root))
}

// The tree with the greatest number of pivots, at most this one, with which no node is deeper than 2,000, and without pivots if there is none.
fn shallow_root<R: Threads + Sync>(
    rt: &R,
    alloc: Global,
    matrix: &Matrix,
    lines: &LineSet,
    limits: SearchLimits,
    pivots: u32,
) -> Result<Node, Memory>
    requires shape { IsMatrix matrix.now }
    requires lines { lines.now ≡ all_lines matrix.now }
    ensures { IfOk result (λ node. IsShapeWith limits.lines pivots matrix.now (tree_of node)) }
{
    let root = draw_root(rt, alloc, matrix, lines, limits, pivots, FIRST_STATE)?;
    if pivots == 0 || is_on_levels(&root, MAX_DEPTH + 1) {
        return Ok(root);
    }
    shallow_root(rt, alloc, matrix, lines, limits, pivots - 1)
}
