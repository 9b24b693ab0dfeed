// The rules on the finding of a node.
ghost use Rattle.std.specs.Prelude.{◌≡◌, ◌↔◌, IfOk, IsTrue};
ghost use Rattle.tree_type.specs.DecompositionTrees.{tree_of};
ghost use Rattle.cert_check.specs.Answers.{IsOwnRule, IsValidNode};

use crate::apart_rule::apart_rule;
use crate::leaf_rules::{
    conetwork_rule, empty_rule, enumerated_rule, fault_rule, network_rule, r10_rule,
};
use crate::pivot_rule::pivot_rule;
use crate::reduced_rule::reduced_rule;
use crate::sum_rules::{three_rule, two_rule};
use cmr_base::{LineSet, Matrix, Memory};
use std::alloc::Global;
use tree_type::{Kind, Node, Rule};

/// The first rule on the finding of a node that the node breaks, if there is one.
pub(crate) fn own_rule(alloc: Global, matrix: &Matrix, node: &Node) -> Result<Option<Rule>, Memory>
    requires { IsValidNode matrix.now (tree_of node.now) }
    ensures { IfOk result (IsOwnRule matrix.now (tree_of node.now)) }
{
    let lines = &node.lines;
    match &node.kind {
        Kind::Empty => Ok(empty_rule(lines)),
        Kind::Cycle { fault } => Ok(fault_rule(matrix, fault)),
        Kind::Reduced { steps, .. } => reduced_rule(alloc, matrix, lines, steps),
        Kind::OneSum { children } => Ok(apart_rule(matrix, lines, children)),
        Kind::Network { net } => network_rule(alloc, matrix, lines, net),
        Kind::Conetwork { net } => conetwork_rule(alloc, matrix, lines, net),
        Kind::R10 => r10_rule(alloc, matrix, lines),
        Kind::TwoSum { two, .. } => two_rule(alloc, matrix, lines, two),
        Kind::ThreeSum { three, .. } => three_rule(alloc, matrix, lines, three),
        Kind::Enumerated => enumerated_rule(alloc, matrix, lines),
        Kind::Violator { fault } => Ok(fault_rule(matrix, fault)),
        Kind::Undecided => Ok(None),
        Kind::Pivoted { place, .. } => pivot_rule(alloc, matrix, lines, *place),
    }
}

/// Whether two sets have the same lines.
pub(crate) fn same_lines(one: &LineSet, other: &LineSet) -> bool
    ensures { IsTrue result
        ↔ ((one.now.rows ≡ other.now.rows) × (one.now.columns ≡ other.now.columns)) }
{
    one.rows.as_slice() == other.rows.as_slice()
        && one.columns.as_slice() == other.columns.as_slice()
}
