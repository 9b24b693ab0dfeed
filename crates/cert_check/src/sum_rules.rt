// The rules on separations.
ghost use Rattle.std.specs.Prelude.{◌≡◌, ◌≤◌, ◌<◌, ◌↔◌, true, false, IfOk, IsTrue, Contains};
ghost use Rattle.cmr_base.specs.Matrix.{entry, height};
ghost use Rattle.cmr_base.specs.declared.line_set.LineSet.{LineSet};
ghost use Rattle.cmr_base.specs.Separations.{zeros, product_at, spread_at, first_is_flat, second_is_flat};
ghost use Rattle.tree_type.specs.Sides.{sides, AreEntries, HaveLines, IsReference, AreTwoBlocks, HasConnector, AreThreeBlocks};
ghost use Rattle.tree_type.specs.DecompositionTrees as says;
ghost use Rattle.tree_type.specs.Invariant.{AreLines, size_of};
ghost use Rattle.cert_check.specs.Answers.{Says};
ghost use Rattle.cert_check.specs.SideLines.{sides_from, IsConnectorIn};

use crate::blocks::{is_made_block, is_zero_block};
use crate::connectors::{are_connectors, have_corner_sign};
use crate::leaf_rules::unless;
use crate::members::is_in;
use crate::spread::is_spread_block;
use cmr_base::{Connector, Form, LineSet, Matrix, Memory, Three, Two};
use std::alloc::Global;
use tree_type::{Rule, side_one, side_two};

pub fn two_rule(
    alloc: Global,
    matrix: &Matrix,
    lines: &LineSet,
    two: &Two,
) -> Result<Option<Rule>, Memory>
    requires lines { AreLines matrix.now lines.now }
    requires row { Contains lines.now.rows two.now.row }
    requires column { Contains lines.now.columns two.now.column }
    ensures { IfOk result (Says matrix.now lines.now (says.TwoSum two.now)) }
{
    let one = side_one(alloc, lines, &two.side)?;
    let other = side_two(alloc, lines, &two.side)?;
    Ok(two_rule_on(matrix, &one, &other, two))
}

fn two_rule_on(matrix: &Matrix, one: &LineSet, other: &LineSet, two: &Two) -> Option<Rule>
    requires one { AreLines matrix.now one.now }
    requires other { AreLines matrix.now other.now }
    requires row { two.now.row < height matrix.now }
    requires column { two.now.column < matrix.now.width }
    ensures { (lines : LineSet) → sides_from one.now other.now ≡ sides lines two.now.side
        → Says matrix.now lines (says.TwoSum two.now) result }
{
    if !have_lines(one, other, 2) {
        return Some(Rule::TooShort);
    }
    if !is_reference(matrix, one, other, two) {
        return Some(Rule::BadConnector);
    }
    unless(are_two_blocks(matrix, one, other, two), Rule::BadBlock)
}

fn have_lines(one: &LineSet, other: &LineSet, low: u32) -> bool
    ensures { IsTrue result ↔ HaveLines low (sides_from one.now other.now) }
{
    are_so_many(one, low) && are_so_many(other, low)
}

fn are_so_many(lines: &LineSet, low: u32) -> bool
    ensures { IsTrue result ↔ (low ≤ size_of lines.now) }
{
    let rows = lines.rows.len();
    let low = low as usize;
    rows >= low || lines.columns.len() >= low - rows
}

fn is_reference(matrix: &Matrix, one: &LineSet, other: &LineSet, two: &Two) -> bool
    requires row { two.now.row < height matrix.now }
    requires column { two.now.column < matrix.now.width }
    ensures { IsTrue result
        ↔ IsReference (entry matrix.now) (sides_from one.now other.now) two.now.row two.now.column }
{
    is_in(&other.rows, two.row)
        && is_in(&one.columns, two.column)
        && matrix.entry(two.row, two.column) != 0
}

fn are_two_blocks(matrix: &Matrix, one: &LineSet, other: &LineSet, two: &Two) -> bool
    requires one { AreLines matrix.now one.now }
    requires other { AreLines matrix.now other.now }
    requires row { two.now.row < height matrix.now }
    requires column { two.now.column < matrix.now.width }
    ensures { IsTrue result
        ↔ AreTwoBlocks (entry matrix.now) (sides_from one.now other.now) two.now.row
        two.now.column }
{
    is_zero_block(matrix, &one.rows, &other.columns)
        && is_made_block(matrix, &other.rows, &one.columns, two.row, two.column)
}

pub fn three_rule(
    alloc: Global,
    matrix: &Matrix,
    lines: &LineSet,
    three: &Three,
) -> Result<Option<Rule>, Memory>
    requires lines { AreLines matrix.now lines.now }
    requires first { HasConnector (first_is_flat three.now.form) lines.now.rows lines.now.columns
        three.now.first }
    requires second { HasConnector (second_is_flat three.now.form) lines.now.rows lines.now.columns
        three.now.second }
    ensures { IfOk result (Says matrix.now lines.now (says.ThreeSum three.now)) }
{
    let one = side_one(alloc, lines, &three.side)?;
    let other = side_two(alloc, lines, &three.side)?;
    Ok(three_rule_on(matrix, &one, &other, three))
}

fn three_rule_on(matrix: &Matrix, one: &LineSet, other: &LineSet, three: &Three) -> Option<Rule>
    requires one { AreLines matrix.now one.now }
    requires other { AreLines matrix.now other.now }
    requires first { IsConnectorIn matrix.now (first_is_flat three.now.form) three.now.first }
    requires second { IsConnectorIn matrix.now (second_is_flat three.now.form) three.now.second }
    ensures { (lines : LineSet) → sides_from one.now other.now ≡ sides lines three.now.side
        → Says matrix.now lines (says.ThreeSum three.now) result }
{
    if !have_lines(one, other, 4) {
        return Some(Rule::TooShort);
    }
    if !are_connectors(matrix, one, other, three) {
        return Some(Rule::BadConnector);
    }
    if !have_corner_sign(matrix, three.form, three.first, three.second) {
        return Some(Rule::CornerSign);
    }
    unless(are_three_blocks(matrix, one, other, three), Rule::BadBlock)
}

fn are_three_blocks(matrix: &Matrix, one: &LineSet, other: &LineSet, three: &Three) -> bool
    requires one { AreLines matrix.now one.now }
    requires other { AreLines matrix.now other.now }
    requires first { IsConnectorIn matrix.now (first_is_flat three.now.form) three.now.first }
    requires second { IsConnectorIn matrix.now (second_is_flat three.now.form) three.now.second }
    ensures { IsTrue result
        ↔ AreThreeBlocks (entry matrix.now) (sides_from one.now other.now) three.now }
{
    match three.form {
        Form::Delta | Form::YForm | Form::Mixed => {
            are_made_blocks(matrix, one, other, three.first, three.second)
        }
        Form::Concentrated => {
            are_concentrated_blocks(matrix, one, other, three.first, three.second)
        }
    }
}

fn are_made_blocks(
    matrix: &Matrix,
    one: &LineSet,
    other: &LineSet,
    first: Connector,
    second: Connector,
) -> bool
    requires one { AreLines matrix.now one.now }
    requires other { AreLines matrix.now other.now }
    requires first_row { first.row < height matrix.now }
    requires first_column { first.column < matrix.now.width }
    requires second_row { second.row < height matrix.now }
    requires second_column { second.column < matrix.now.width }
    ensures { IsTrue result
        ↔ (AreEntries (entry matrix.now) one.now.rows other.now.columns
        (product_at (entry matrix.now) first.row second.column)
        × AreEntries (entry matrix.now) other.now.rows one.now.columns
        (product_at (entry matrix.now) second.row first.column)) }
{
    is_made_block(matrix, &one.rows, &other.columns, first.row, second.column)
        && is_made_block(matrix, &other.rows, &one.columns, second.row, first.column)
}

fn are_concentrated_blocks(
    matrix: &Matrix,
    one: &LineSet,
    other: &LineSet,
    first: Connector,
    second: Connector,
) -> bool
    requires one { AreLines matrix.now one.now }
    requires other { AreLines matrix.now other.now }
    requires first { IsConnectorIn matrix.now true first }
    requires second { IsConnectorIn matrix.now false second }
    ensures { IsTrue result
        ↔ (AreEntries (entry matrix.now) one.now.rows other.now.columns zeros
        × AreEntries (entry matrix.now) other.now.rows one.now.columns
        (spread_at (entry matrix.now) first second)) }
{
    is_zero_block(matrix, &one.rows, &other.columns)
        && is_spread_block(matrix, &other.rows, &one.columns, first, second)
}
