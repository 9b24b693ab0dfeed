// The check of a tree, node by node in preorder.
ghost use Rattle.std.specs.Prelude.{◌++◌, ◌↔◌, [], ◌∷◌, true, false, None, IfOk, IsTrue};
ghost use Rattle.cmr_base.specs.PlacedPivots.{pivoted_part, IsPlaceIn, IsTernaryPivot};
ghost use Rattle.tree_type.specs.DecompositionTrees.{tree_of};
ghost use Rattle.tree_type.specs.Invariant.{AreLines};
ghost use Rattle.tree_type.specs.Places.{AllLines};
ghost use Rattle.tree_type.specs.Soundness.{HasItsLines};
ghost use Rattle.cert_check.specs.Answers.{Answers, AnswersBelow, AnswersFrom, IsOwnRule, IsRuleAt, KeepsOwn, IsValidNode, due_from, due_child_of};

use crate::due_lines::due_lines;
use crate::leaf_rules::unless;
use crate::own_rule::{own_rule, same_lines};
use crate::pivot_rule::is_allowed;
use cmr_base::{LineSet, Matrix, Memory, PathList, Position};
use pivots::{PivotedPart, pivot_part};
use std::alloc::Global;
use tree_type::{DecTree, Kind, Node, Refusal, Rule};

/// The first node in preorder that breaks a rule of decomposition trees, with the first rule that it breaks, and `None` if and
/// only if the tree is sound.
pub fn accept(alloc: Global, matrix: &Matrix, tree: &DecTree) -> Result<Option<Refusal>, Memory>
    ensures { IfOk result (Answers matrix.now tree.now) }
{
    let path = PathList::new(alloc);
    match root_rule(alloc, matrix, tree)? {
        Some(rule) => Ok(Some(Refusal { path, rule })),
        None => check_below(alloc, matrix, false, &path, tree.root()),
    }
}

/// The first rule that the root breaks, if there is one.
fn root_rule(alloc: Global, matrix: &Matrix, tree: &DecTree) -> Result<Option<Rule>, Memory>
    ensures rule { IfOk result (IsRuleAt matrix.now false (AllLines tree.now.rows tree.now.columns)
        (tree_of tree.now.root)) }
    ensures own { IfOk result (KeepsOwn matrix.now (tree_of tree.now.root)) }
{
    if tree.rows() != matrix.rows() {
        return Ok(Some(Rule::Size));
    }
    if tree.columns() != matrix.columns() {
        return Ok(Some(Rule::Size));
    }
    let all = LineSet::all(alloc, matrix.rows(), matrix.columns())?;
    let root = tree.root();
    if !same_lines(&root.lines, &all) {
        return Ok(Some(Rule::Lines));
    }
    own_rule(alloc, matrix, root)
}

/// The first node below a node that breaks a rule. `matrix` is the matrix after the pivots above the node, and `pivoted` says
/// whether there are any. The recursion uses the ordinary stack, so its functions have few variables.
#[cycle(check)]
fn check_below(
    alloc: Global,
    matrix: &Matrix,
    pivoted: bool,
    path: &PathList,
    node: &Node,
) -> Result<Option<Refusal>, Memory>
    requires valid { IsValidNode matrix.now (tree_of node.now) }
    requires own { IsOwnRule matrix.now (tree_of node.now) None }
    ensures { IfOk result (AnswersBelow matrix.now pivoted path.now (tree_of node.now)) }
{
    if let Kind::Pivoted { place, child } = &node.kind {
        return check_pivoted(alloc, matrix, path, child, node, *place);
    }
    let most = matrix.rows() + matrix.columns() + 2;
    let count = node.child_count();
    prove!(count <= most as usize);
    for number in 0..count as u32 {
        let child = node.child(number as usize);
        if let Some(refusal) = check_child(alloc, matrix, pivoted, path, child, node, number)? {
            return Ok(Some(refusal));
        }
    }
    Ok(None)
}

/// The first node that breaks a rule, among a child and the nodes below it. The child has this number, and the path is the
/// parent's.
#[cycle(check)]
fn check_child(
    alloc: Global,
    matrix: &Matrix,
    pivoted: bool,
    path: &PathList,
    child: &Node,
    parent: &Node,
    number: u32,
) -> Result<Option<Refusal>, Memory>
    requires { IsValidNode matrix.now (tree_of child.now) }
    ensures { IfOk result (AnswersFrom matrix.now pivoted (path.now ++ number ∷ [])
        (due_child_of (tree_of parent.now) number) (tree_of child.now)) }
{
    let longer = path.child(number)?;
    match rule_of(alloc, matrix, pivoted, child, parent, number)? {
        Some(rule) => Ok(Some(Refusal { path: longer, rule })),
        None => check_below(alloc, matrix, pivoted, &longer, child),
    }
}

/// The same for the child of a pivoted node, in the matrix after its pivot. This matrix is freed after the check of the child.
#[cycle(check)]
#[inline(never)]
fn check_pivoted(
    alloc: Global,
    matrix: &Matrix,
    path: &PathList,
    child: &Node,
    parent: &Node,
    place: Position,
) -> Result<Option<Refusal>, Memory>
    requires lines { AreLines matrix.now parent.now.lines }
    requires place { IsPlaceIn matrix.now parent.now.lines place }
    requires ternary { IsTernaryPivot matrix.now parent.now.lines place }
    requires valid { IsValidNode matrix.now (tree_of child.now) }
    ensures { IfOk result (AnswersFrom (pivoted_part matrix.now parent.now.lines place) true
        (path.now ++ 0 ∷ []) (due_child_of (tree_of parent.now) 0) (tree_of child.now)) }
{
    match pivot_part(alloc, matrix, &parent.lines, place)? {
        PivotedPart::Ternary(after) => check_child(alloc, &after, true, path, child, parent, 0),
        PivotedPart::Violated(_fault) => unreachable!(),
    }
}

/// The first rule that the child with this number breaks, if there is one.
#[inline(never)]
fn rule_of(
    alloc: Global,
    matrix: &Matrix,
    pivoted: bool,
    child: &Node,
    parent: &Node,
    number: u32,
) -> Result<Option<Rule>, Memory>
    requires { IsValidNode matrix.now (tree_of child.now) }
    ensures rule { IfOk result (IsRuleAt matrix.now pivoted
        (due_child_of (tree_of parent.now) number) (tree_of child.now)) }
    ensures own { IfOk result (KeepsOwn matrix.now (tree_of child.now)) }
{
    let due = due_lines(alloc, parent, number)?;
    rule_at(alloc, matrix, pivoted, &due, child)
}

/// The first rule that a child breaks, if there is one.
fn rule_at(
    alloc: Global,
    matrix: &Matrix,
    pivoted: bool,
    due: &Option<LineSet>,
    child: &Node,
) -> Result<Option<Rule>, Memory>
    requires { IsValidNode matrix.now (tree_of child.now) }
    ensures rule { IfOk result (IsRuleAt matrix.now pivoted (due_from due.now)
        (tree_of child.now)) }
    ensures own { IfOk result (KeepsOwn matrix.now (tree_of child.now)) }
{
    if !has_lines(due, child) {
        return Ok(Some(Rule::Lines));
    }
    if let Some(rule) = own_rule(alloc, matrix, child)? {
        return Ok(Some(rule));
    }
    Ok(unless(is_allowed(pivoted, child), Rule::BelowPivot))
}

/// Whether a child has the lines that its parent names for it.
fn has_lines(due: &Option<LineSet>, child: &Node) -> bool
    ensures { IsTrue result ↔ HasItsLines (due_from due.now) child.now.lines }
{
    match due {
        Some(lines) => same_lines(&child.lines, lines),
        None => true,
    }
}
