// The rules on the findings of leaves.
ghost use Rattle.std.specs.Prelude.{◌≡◌, ◌↔◌, min, IfOk, IsTrue};
ghost use Rattle.cmr_base.specs.CyclePlaces.{HasNoCycleFault};
ghost use Rattle.cmr_base.specs.Matrix.{Matrix, entry};
ghost use Rattle.cmr_base.specs.R10.{IsR10};
ghost use Rattle.cmr_base.specs.declared.line_set.LineSet.{LineSet};
ghost use Rattle.tree_type.specs.DecompositionTrees as says;
ghost use Rattle.tree_type.specs.Invariant.{AreLines, size_of};
ghost use Rattle.cert_check.specs.Answers.{Says, unless};

use crate::clean::is_clean;
use cmr_base::{LineSet, MAX_LINES, Matrix, Memory, Network, reproduces};
use parity::is_violator;
use r10_leaf::is_r10;
use std::alloc::Global;
use tree_type::Rule;

/// `None` if the rule is kept, and the rule otherwise.
pub fn unless(kept: bool, rule: Rule) -> Option<Rule>
    ensures { result ≡ unless kept rule }
{
    if kept { None } else { Some(rule) }
}

pub fn empty_rule(lines: &LineSet) -> Option<Rule>
    ensures { (m : Matrix) → Says m lines.now says.Empty result }
{
    unless(is_empty(lines), Rule::NotEmpty)
}

/// Whether there is no line.
pub fn is_empty(lines: &LineSet) -> bool
    ensures { IsTrue result ↔ (size_of lines.now ≡ 0) }
{
    lines.rows.len() == 0 && lines.columns.len() == 0
}

/// The rule on the fault that a node names.
pub fn fault_rule(matrix: &Matrix, fault: &LineSet) -> Option<Rule>
    requires { AreLines matrix.now fault.now }
    ensures cycle { (lines : LineSet) → Says matrix.now lines (says.Cycle fault.now) result }
    ensures violator { (lines : LineSet) → Says matrix.now lines (says.Violator fault.now) result }
{
    unless(is_violator(matrix, fault), Rule::NotViolator)
}

pub fn network_rule(
    alloc: Global,
    matrix: &Matrix,
    lines: &LineSet,
    net: &Network,
) -> Result<Option<Rule>, Memory>
    requires { AreLines matrix.now lines.now }
    ensures { IfOk result (Says matrix.now lines.now (says.Network net.now)) }
{
    let part = matrix.part(alloc, lines)?;
    Ok(unless(reproduces(alloc, net, &part)?, Rule::NotNetwork))
}

pub fn conetwork_rule(
    alloc: Global,
    matrix: &Matrix,
    lines: &LineSet,
    net: &Network,
) -> Result<Option<Rule>, Memory>
    requires { AreLines matrix.now lines.now }
    ensures { IfOk result (Says matrix.now lines.now (says.Conetwork net.now)) }
{
    let part = matrix.part(alloc, lines)?.transposed(alloc)?;
    Ok(unless(reproduces(alloc, net, &part)?, Rule::NotNetwork))
}

pub fn enumerated_rule(
    alloc: Global,
    matrix: &Matrix,
    lines: &LineSet,
) -> Result<Option<Rule>, Memory>
    requires { AreLines matrix.now lines.now }
    ensures { IfOk result (Says matrix.now lines.now says.Enumerated) }
{
    if lines.rows.len().min(lines.columns.len()) > MAX_LINES as usize {
        return Ok(Some(Rule::TooMany));
    }
    let part = matrix.part(alloc, lines)?;
    Ok(unless(is_clean(alloc, &part)?, Rule::NotClean))
}

pub fn r10_rule(alloc: Global, matrix: &Matrix, lines: &LineSet) -> Result<Option<Rule>, Memory>
    requires { AreLines matrix.now lines.now }
    ensures { IfOk result (Says matrix.now lines.now says.R10) }
{
    let part = matrix.part(alloc, lines)?;
    if is_r10(&part) {
        return Ok(unless(has_no_fault(alloc, &part)?, Rule::CycleFault));
    }
    Ok(Some(Rule::NotR10))
}

// Whether an R10 matrix has no cycle fault. This is equivalent to having no violator, so the check tries its few sets of rows.
fn has_no_fault(alloc: Global, matrix: &Matrix) -> Result<bool, Memory>
    requires { IsR10 matrix.now }
    ensures { IfOk result (λ yes. IsTrue yes ↔ HasNoCycleFault (entry matrix.now)) }
{
    prove!(matrix.rows() == 5);
    let clean = is_clean(alloc, matrix)?;
    Ok(clean)
}
