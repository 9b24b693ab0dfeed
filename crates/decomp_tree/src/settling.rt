// The second pass over a draft: late cycle faults are searched for from the root down, and pivots replace undecided nodes.
ghost use Rattle.std.specs.Prelude.{◌≡◌, ◌<◌, ◌^◌, ◌++◌, ◌∷◌, [], length, map, IfOk, OnOk};
ghost use Rattle.cmr_base.specs.Matrix.{IsMatrix};
ghost use Rattle.tree_type.specs.DecompositionTrees.{Branch, Cycle, NoTrees, tree_of, trees_from};
ghost use Rattle.tree_type.specs.Invariant.{AreLines, HasChildren};
ghost use Rattle.tree_type.specs.Findings.{finding_shown};
ghost use Rattle.decomp_tree.specs.PivotedShapes.{HasOneMoreTree, IsDrawnWith, IsFound};
ghost use Rattle.decomp_tree.specs.Refined.{is_undecided};
ghost use Rattle.decomp_tree.specs.Sketches.{IsDrafted, lines_of_sketch, sketch_of};

use crate::drafts::{Draft, Opening, draft_root};
use crate::faults::late_fault;
use crate::pulling_back::{leaf, pulled_back};
use crate::search_limits::SearchLimits;
use cmr_base::{LineSet, Matrix, Memory, RowsAndColumns};
use pivots::{PivotedPart, pivot_part};
use separating_places::chosen_place;
use std::alloc::Global;
use std::thread::Threads;
use tree_type::{Finding, Node, join_node};

/// The tree of the submatrix on these lines. The first pass ignores late cycle faults: if no node below a node has a
/// violator, its lines contain none, and the search is not needed.
#[cycle(settling)]
pub fn draw_root<R: Threads + Sync>(
    rt: &R,
    alloc: Global,
    matrix: &Matrix,
    lines: &LineSet,
    limits: SearchLimits,
    pivots: u32,
    state: u32,
) -> Result<Node, Memory>
    requires state { state < 2 ^ 31 }
    requires shape { IsMatrix matrix.now }
    requires lines { AreLines matrix.now lines.now }
    ensures { IfOk result (λ node.
        IsDrawnWith limits.lines pivots state matrix.now lines.now (tree_of node)) }
{
    let columns = matrix.transposed(alloc)?;
    let both = RowsAndColumns::of(matrix, &columns);
    let drawn = draft_root(rt, alloc, &both, lines, limits)?;
    let mut roots = Vec::new(alloc);
    settle(rt, alloc, &both, drawn, limits, pivots, state, &mut roots)?;
    let Some(root) = roots.pop() else {
        unreachable!()
    };
    Ok(root)
}

// Settles a draft and appends its tree. A node with a late cycle fault becomes a leaf that names it, without the drafts
// below it. An undecided node is replaced by what pivots find. Otherwise the children are settled.
#[cycle(settling)]
fn settle<R: Threads + Sync>(
    rt: &R,
    alloc: Global,
    matrix: &RowsAndColumns<'_>,
    drawn: Draft,
    limits: SearchLimits,
    pivots: u32,
    state: u32,
    nodes: &mut Vec<Node>,
) -> Result<(), Memory>
    requires state { state < 2 ^ 31 }
    requires shape { IsMatrix matrix.now }
    requires lines { AreLines matrix.now (lines_of_sketch (sketch_of drawn)) }
    requires drafted { IsDrafted limits.lines matrix.now (sketch_of drawn) }
    ensures { OnOk result (HasOneMoreTree
        (IsDrawnWith limits.lines pivots state matrix.now (lines_of_sketch (sketch_of drawn)))
        (map tree_of nodes.old.items)
        (map tree_of nodes.new.items)) }
{
    let opening = drawn.opening;
    if let Some(fault) = late_fault(
        alloc,
        matrix,
        &opening.lines,
        &opening.finding,
        drawn.is_free,
        drawn.fault_rows,
    )? {
        push_fault(alloc, lines_of(opening), fault, nodes)?;
        return Ok(());
    }
    if is_undecided(&opening.finding) {
        let whole = matrix.by_rows();
        let found = find(rt, alloc, whole, &opening.lines, limits, pivots, state)?;
        nodes.push(found)?;
        return Ok(());
    }
    let mut children = Vec::new(alloc);
    for child in drawn.children {
        settle(
            rt,
            alloc,
            matrix,
            child,
            limits,
            pivots,
            state,
            &mut children,
        )?;
    }
    push_node(alloc, opening, children, nodes)?;
    Ok(())
}

fn is_undecided(finding: &Finding) -> bool
    ensures { result ≡ is_undecided (finding_shown finding.now) }
{
    matches!(finding, Finding::Undecided)
}

// What replaces an undecided node: its submatrix is pivoted at the next position, and the tree of the pivot decides.
#[cycle(settling)]
fn find<R: Threads + Sync>(
    rt: &R,
    alloc: Global,
    matrix: &Matrix,
    lines: &LineSet,
    limits: SearchLimits,
    pivots: u32,
    state: u32,
) -> Result<Node, Memory>
    requires state { state < 2 ^ 31 }
    requires shape { IsMatrix matrix.now }
    requires lines { AreLines matrix.now lines.now }
    ensures { IfOk result (λ node.
        IsFound limits.lines pivots state matrix.now lines.now (tree_of node)) }
{
    if pivots == 0 {
        return leaf(alloc, lines, Finding::Undecided);
    }
    let Some(chosen) = chosen_place(alloc, matrix, lines, state)? else {
        return leaf(alloc, lines, Finding::Undecided);
    };
    match pivot_part(alloc, matrix, lines, chosen.place)? {
        PivotedPart::Violated(fault) => leaf(alloc, lines, Finding::Violator(fault)),
        PivotedPart::Ternary(after) => {
            let tree = draw_root(rt, alloc, &after, lines, limits, pivots - 1, chosen.state)?;
            pulled_back(alloc, matrix, lines, chosen.place, tree)
        }
    }
}

// Joins a node from its finding and its children, and appends it.
#[inline(never)]
fn push_node(
    alloc: Global,
    opening: Box<Opening>,
    children: Vec<Node>,
    nodes: &mut Vec<Node>,
) -> Result<(), Memory>
    requires { HasChildren (finding_shown opening.value.finding) (length children.items) }
    ensures { OnOk result (map tree_of nodes.new.items
        ≡ map tree_of nodes.old.items
        ++ Branch opening.value.lines (finding_shown opening.value.finding)
        (trees_from (map tree_of children.items))
        ∷ []) }
{
    let Opening { lines, finding, .. } = Box::into_inner(opening);
    nodes.push(join_node(alloc, lines, finding, children)?)?;
    Ok(())
}

// The lines of an opening.
fn lines_of(opening: Box<Opening>) -> LineSet
    ensures { result ≡ opening.value.lines }
{
    let Opening { lines, .. } = Box::into_inner(opening);
    lines
}

// Appends the leaf of some lines with a cycle fault.
#[inline(never)]
fn push_fault(
    alloc: Global,
    lines: LineSet,
    fault: LineSet,
    nodes: &mut Vec<Node>,
) -> Result<(), Memory>
    ensures { OnOk result (map tree_of nodes.new.items
        ≡ map tree_of nodes.old.items ++ Branch lines (Cycle fault) NoTrees ∷ []) }
{
    nodes.push(join_node(alloc, lines, Finding::Cycle(fault), Vec::new(alloc))?)?;
    Ok(())
}
