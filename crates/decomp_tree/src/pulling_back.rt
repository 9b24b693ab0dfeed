// What the tree of a submatrix after a pivot says of the submatrix.
ghost use Rattle.std.specs.Prelude.{◌≡◌, IfOk};
ghost use Rattle.cmr_base.specs.PlacedPivots.{IsPlaceIn};
ghost use Rattle.tree_type.specs.DecompositionTrees.{Branch, NoTrees, Pivoted, one_tree, tree_of};
ghost use Rattle.tree_type.specs.Invariant.{AreLines, HasChildren};
ghost use Rattle.tree_type.specs.Findings.{finding_shown};
ghost use Rattle.tree_type.specs.Verdicts.{verdict_of};
ghost use Rattle.decomp_tree.specs.PivotedShapes.{HasFaultAmong, IsMappedBack, SaysBeforePivot};

use cmr_base::{LineSet, Matrix, Memory, Position};
use pivots::violator_before_part;
use std::alloc::Global;
use tree_type::{Finding, Node, VerdictOf, copy_of, join_node, verdict_at};

/// The node on these lines, by the tree of their submatrix after a pivot: a pivoted node above a tree that says yes, a
/// violator on the lines before the pivot if the tree names a fault, and otherwise an undecided node.
pub fn pulled_back(
    alloc: Global,
    matrix: &Matrix,
    lines: &LineSet,
    place: Position,
    after: Node,
) -> Result<Node, Memory>
    requires lines { AreLines matrix.now lines.now }
    requires place { IsPlaceIn matrix.now lines.now place }
    requires fault { HasFaultAmong lines.now (verdict_of (tree_of after)) }
    ensures { IfOk result (λ node. IsMappedBack matrix.now lines.now place (tree_of after)
        (verdict_of (tree_of after)) (tree_of node)) }
{
    match finding_before(alloc, matrix, lines, place, &after)? {
        Some(finding) => leaf(alloc, lines, finding),
        None => above(alloc, lines, place, after),
    }
}

// The finding on the lines before the pivot, if the tree does not say yes.
fn finding_before(
    alloc: Global,
    matrix: &Matrix,
    lines: &LineSet,
    place: Position,
    after: &Node,
) -> Result<Option<Finding>, Memory>
    requires lines { AreLines matrix.now lines.now }
    requires place { IsPlaceIn matrix.now lines.now place }
    requires fault { HasFaultAmong lines.now (verdict_of (tree_of after.now)) }
    ensures { IfOk result
        (SaysBeforePivot matrix.now place (verdict_of (tree_of after.now))) }
{
    match verdict_at(after) {
        VerdictOf::Yes => Ok(None),
        VerdictOf::No(fault) => {
            let before = violator_before_part(alloc, matrix, lines, place, fault)?;
            Ok(Some(Finding::Violator(before)))
        }
        VerdictOf::Undecided(_) => Ok(Some(Finding::Undecided)),
    }
}

// The pivoted node above a tree.
fn above(alloc: Global, lines: &LineSet, place: Position, after: Node) -> Result<Node, Memory>
    ensures { IfOk result (λ node. tree_of node
        ≡ Branch lines.now (Pivoted place) (one_tree (tree_of after))) }
{
    let mut children = Vec::new(alloc);
    children.push(after)?;
    join_node(
        alloc,
        copy_of(alloc, lines)?,
        Finding::Pivoted(place),
        children,
    )
}

/// The leaf on these lines with this finding.
pub fn leaf(alloc: Global, lines: &LineSet, finding: Finding) -> Result<Node, Memory>
    requires { HasChildren (finding_shown finding) 0 }
    ensures { IfOk result (λ node. tree_of node
        ≡ Branch lines.now (finding_shown finding) NoTrees) }
{
    join_node(alloc, copy_of(alloc, lines)?, finding, Vec::new(alloc))
}
