// The rule on reductions.
ghost use Rattle.std.specs.Prelude.{◌↔◌, false, IfOk, IsTrue, IsSome};
ghost use Rattle.cmr_base.specs.Matrix.{entry};
ghost use Rattle.cmr_base.specs.Reductions.{HasLine, line_reason};
ghost use Rattle.tree_type.specs.DecompositionTrees as says;
ghost use Rattle.tree_type.specs.Invariant.{AreLines};
ghost use Rattle.tree_type.specs.Soundness.{AreReductions};
ghost use Rattle.cert_check.specs.Answers.{Says};

use crate::due_lines::without_line;
use crate::leaf_rules::unless;
use crate::members::is_in;
use cmr_base::{Line, LineList, LineSet, Matrix, Memory};
use sp_reduce::is_reducible_line;
use std::alloc::Global;
use tree_type::{Rule, copy_of};

pub fn reduced_rule(
    alloc: Global,
    matrix: &Matrix,
    lines: &LineSet,
    steps: &LineList,
) -> Result<Option<Rule>, Memory>
    requires { AreLines matrix.now lines.now }
    ensures { IfOk result (Says matrix.now lines.now (says.Reduced steps.now)) }
{
    let steps = steps.as_slice();
    if steps.len() == 0 {
        return Ok(Some(Rule::NotReducible));
    }
    Ok(unless(
        are_reductions(alloc, matrix, lines, steps)?,
        Rule::NotReducible,
    ))
}

fn are_reductions(
    alloc: Global,
    matrix: &Matrix,
    lines: &LineSet,
    steps: &[Line],
) -> Result<bool, Memory>
    requires { AreLines matrix.now lines.now }
    ensures { IfOk result (λ yes. IsTrue yes ↔ AreReductions (entry matrix.now) lines.now.rows
        lines.now.columns steps.now) }
{
    let mut left = copy_of(alloc, lines)?;
    for step in steps {
        if !is_step(matrix, &left, *step) {
            return Ok(false);
        }
        left = without_line(alloc, &left, *step)?;
    }
    Ok(true)
}

// Whether a line is one of these lines and reducible.
fn is_step(matrix: &Matrix, lines: &LineSet, line: Line) -> bool
    requires { AreLines matrix.now lines.now }
    ensures { IsTrue result
        ↔ (HasLine lines.now.rows lines.now.columns line
        × IsSome (line_reason false (entry matrix.now) lines.now.rows lines.now.columns line)) }
{
    has_line(lines, line) && is_reducible_line(matrix, lines, line, false)
}

fn has_line(lines: &LineSet, line: Line) -> bool
    ensures { IsTrue result ↔ HasLine lines.now.rows lines.now.columns line }
{
    match line {
        Line::Row(row) => is_in(&lines.rows, row),
        Line::Column(column) => is_in(&lines.columns, column),
    }
}
