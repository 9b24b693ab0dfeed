// The lines that a child must have.
ghost use Rattle.std.specs.Prelude.{◌≡◌, IfOk};
ghost use Rattle.cmr_base.specs.Reductions.{rows_without, columns_without};
ghost use Rattle.tree_type.specs.DecompositionTrees.{tree_of};
ghost use Rattle.tree_type.specs.Places.{lines_left};
ghost use Rattle.cert_check.specs.Answers.{due_from, due_child_of};
ghost use Rattle.cert_check.specs.SideLines.{two_child, three_child};

use cmr_base::{Line, LineSet, Memory, Three, Two};
use std::alloc::Global;
use tree_type::{Kind, Node, copy_of, three_one, three_two, two_one, two_two};

/// The lines that a child must have, if its parent names them.
pub fn due_lines(alloc: Global, node: &Node, number: u32) -> Result<Option<LineSet>, Memory>
    ensures { IfOk result (λ due. due_from due ≡ due_child_of (tree_of node.now) number) }
{
    match &node.kind {
        Kind::Reduced { steps, .. } => {
            Ok(Some(lines_left(alloc, &node.lines, steps.as_slice())?))
        }
        Kind::TwoSum { two, .. } => Ok(Some(two_child(alloc, &node.lines, two, number == 0)?)),
        Kind::ThreeSum { three, .. } => {
            Ok(Some(three_child(alloc, &node.lines, three, number == 0)?))
        }
        Kind::Pivoted { .. } => Ok(Some(copy_of(alloc, &node.lines)?)),
        Kind::Empty
        | Kind::Cycle { .. }
        | Kind::OneSum { .. }
        | Kind::Network { .. }
        | Kind::Conetwork { .. }
        | Kind::R10
        | Kind::Enumerated
        | Kind::Violator { .. }
        | Kind::Undecided => Ok(None),
    }
}

fn lines_left(alloc: Global, lines: &LineSet, steps: &[Line]) -> Result<LineSet, Memory>
    ensures { IfOk result (λ left. left ≡ lines_left lines.now steps.now) }
{
    let mut left = copy_of(alloc, lines)?;
    for step in steps {
        left = without_line(alloc, &left, *step)?;
    }
    Ok(left)
}

/// The lines without the given line.
pub fn without_line(alloc: Global, lines: &LineSet, line: Line) -> Result<LineSet, Memory>
    ensures rows { IfOk result (λ fewer. fewer.rows ≡ rows_without lines.now.rows line) }
    ensures columns { IfOk result (λ fewer. fewer.columns
        ≡ columns_without lines.now.columns line) }
{
    match line {
        Line::Row(row) => lines.without_row(alloc, row),
        Line::Column(column) => lines.without_column(alloc, column),
    }
}

// The lines of the first child of a two-sum, or of the second child.
fn two_child(alloc: Global, lines: &LineSet, two: &Two, one: bool) -> Result<LineSet, Memory>
    ensures { IfOk result (λ child. child ≡ two_child one lines.now two.now) }
{
    if one {
        two_one(alloc, lines, two)
    } else {
        two_two(alloc, lines, two)
    }
}

// The lines of the first child of a three-sum, or of the second child.
fn three_child(alloc: Global, lines: &LineSet, three: &Three, one: bool) -> Result<LineSet, Memory>
    ensures { IfOk result (λ child. child ≡ three_child one lines.now three.now) }
{
    if one {
        three_one(alloc, lines, three)
    } else {
        three_two(alloc, lines, three)
    }
}
