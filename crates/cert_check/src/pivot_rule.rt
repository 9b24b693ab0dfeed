// The rules on pivots.
ghost use Rattle.std.specs.Prelude.{◌≡◌, ◌↔◌, List, Contains, IfOk, IsTrue};
ghost use Rattle.cmr_base.specs.PlacedPivots.{IsPlaceIn, IsTernaryPivot};
ghost use Rattle.tree_type.specs.DecompositionTrees as says;
ghost use Rattle.tree_type.specs.DecompositionTrees.{tree_of, finding_of};
ghost use Rattle.tree_type.specs.Invariant.{AreLines};
ghost use Rattle.tree_type.specs.Places.{MadePivot};
ghost use Rattle.tree_type.specs.Soundness.{MayStand};
ghost use Rattle.cert_check.specs.Answers.{Says, has_pivot, is_settled};

use crate::leaf_rules::unless;
use cmr_base::{LineSet, Matrix, Memory, Position};
use pivots::{PivotedPart, pivot_part};
use std::alloc::Global;
use tree_type::{Kind, Node, Rule};

/// The rule on the position of a pivot.
pub fn pivot_rule(
    alloc: Global,
    matrix: &Matrix,
    lines: &LineSet,
    place: Position,
) -> Result<Option<Rule>, Memory>
    requires lines { AreLines matrix.now lines.now }
    requires row { Contains lines.now.rows place.row }
    requires column { Contains lines.now.columns place.column }
    ensures { IfOk result (Says matrix.now lines.now (says.Pivoted place)) }
{
    if matrix.entry(place.row, place.column) == 0 {
        return Ok(Some(Rule::NotPivot));
    }
    Ok(unless(
        is_ternary_pivot(alloc, matrix, lines, place)?,
        Rule::NotPivot,
    ))
}

// Whether the entries of the pivoted submatrix are -1, 0 and 1, that is none is 2 or -2.
fn is_ternary_pivot(
    alloc: Global,
    matrix: &Matrix,
    lines: &LineSet,
    place: Position,
) -> Result<bool, Memory>
    requires lines { AreLines matrix.now lines.now }
    requires place { IsPlaceIn matrix.now lines.now place }
    ensures { IfOk result (λ yes. IsTrue yes ↔ IsTernaryPivot matrix.now lines.now place) }
{
    match pivot_part(alloc, matrix, lines, place)? {
        PivotedPart::Ternary(_after) => Ok(true),
        PivotedPart::Violated(_fault) => Ok(false),
    }
}

/// Whether the finding of a node is allowed: below a pivot it names no fault and leaves no lines open.
pub fn is_allowed(below_pivot: bool, node: &Node) -> bool
    ensures { (pivots : List MadePivot) → has_pivot pivots ≡ below_pivot → IsTrue result
        ↔ MayStand pivots (finding_of (tree_of node.now)) }
{
    !below_pivot || is_settled(node)
}

fn is_settled(node: &Node) -> bool
    ensures { result ≡ is_settled (finding_of (tree_of node.now)) }
{
    match &node.kind {
        Kind::Cycle { .. } | Kind::Violator { .. } | Kind::Undecided => false,
        Kind::Empty
        | Kind::Reduced { .. }
        | Kind::OneSum { .. }
        | Kind::Network { .. }
        | Kind::Conetwork { .. }
        | Kind::R10
        | Kind::TwoSum { .. }
        | Kind::ThreeSum { .. }
        | Kind::Enumerated
        | Kind::Pivoted { .. } => true,
    }
}
