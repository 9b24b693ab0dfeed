// The rule on one-sums.
ghost use Rattle.std.specs.Prelude.{◌≡◌, ◌≢◌, ◌<◌, ◌↔◌, ◌&&◌, ℕ, true, pos, count_by, IsTrue};
ghost use Rattle.std.specs.List.{AllByRecursion, list_any};
ghost use Rattle.cmr_base.specs.Matrix.{entry, height};
ghost use Rattle.cmr_base.specs.LineSets.{AllBelow};
ghost use Rattle.tree_type.specs.Sides.{is_among};
ghost use Rattle.tree_type.specs.DecompositionTrees as says;
ghost use Rattle.tree_type.specs.Invariant.{AreLines, size_of};
ghost use Rattle.tree_type.specs.Places.{lines_of_each};
ghost use Rattle.tree_type.specs.Soundness.{AreApart};
ghost use Rattle.cert_check.specs.Answers.{IsFirstBrokenRule};
ghost use Rattle.cert_check.specs.NodeLines.{line_sets};

use crate::leaf_rules::{is_empty, unless};
use cmr_base::{Indices, LineSet, Matrix};
use tree_type::{Node, NodeList, Rule, has_line};

pub fn apart_rule(matrix: &Matrix, lines: &LineSet, children: &NodeList) -> Option<Rule>
    requires { AreLines matrix.now lines.now }
    ensures { IsFirstBrokenRule matrix.now lines.now says.OneSum
        (lines_of_each (says.trees_of children.now)) result }
{
    unless(
        are_apart(matrix, lines, children.as_slice()),
        Rule::NotApart,
    )
}

fn are_apart(matrix: &Matrix, lines: &LineSet, children: &[Node]) -> bool
    requires { AreLines matrix.now lines.now }
    ensures { IsTrue result ↔ AreApart (entry matrix.now) lines.now (line_sets children.now) }
{
    let rows = lines.rows.as_slice();
    let columns = lines.columns.as_slice();
    if children.len() < 2 {
        return false;
    }
    if !are_filled(children) {
        return false;
    }
    if !have_rows(children, rows) {
        return false;
    }
    if !have_columns(children, columns) {
        return false;
    }
    have_nonzeros(matrix, children, rows, columns)
}

fn are_filled(children: &[Node]) -> bool
    ensures { IsTrue result ↔ AllByRecursion (λ child. 0 < size_of child) (line_sets children.now) }
{
    for child in children {
        if is_empty(&child.lines) {
            return false;
        }
    }
    true
}

// Whether each of these rows is in exactly one child.
fn have_rows(children: &[Node], rows: &[u32]) -> bool
    ensures { IsTrue result
        ↔ AllByRecursion
        (λ row. count_by (λ child. is_among child.rows row) (line_sets children.now) ≡ 1)
        rows.now }
{
    for row in rows {
        if count_row(children, *row) != 1 {
            return false;
        }
    }
    true
}

fn count_row(children: &[Node], row: u32) -> usize
    ensures { result ≡ count_by (λ child. is_among child.rows row) (line_sets children.now) }
{
    let mut count = 0;
    for child in children {
        if has_line(&child.lines.rows, row) {
            count += 1;
        }
    }
    count
}

fn have_columns(children: &[Node], columns: &[u32]) -> bool
    ensures { IsTrue result
        ↔ AllByRecursion
        (λ column. count_by (λ child. is_among child.columns column) (line_sets children.now) ≡ 1)
        columns.now }
{
    for column in columns {
        if count_column(children, *column) != 1 {
            return false;
        }
    }
    true
}

fn count_column(children: &[Node], column: u32) -> usize
    ensures { result ≡ count_by (λ child. is_among child.columns column) (line_sets children.now) }
{
    let mut count = 0;
    for child in children {
        if has_line(&child.lines.columns, column) {
            count += 1;
        }
    }
    count
}

// Whether each nonzero of these rows and columns is in a child. Each of the rows is in exactly one child.
fn have_nonzeros(matrix: &Matrix, children: &[Node], rows: &[u32], columns: &[u32]) -> bool
    requires rows { AllBelow (height matrix.now) rows.now }
    requires columns { AllBelow matrix.now.width columns.now }
    requires one { AllByRecursion
        (λ row. count_by (λ child. is_among child.rows row) (line_sets children.now) ≡ 1)
        rows.now }
    ensures { IsTrue result
        ↔ AllByRecursion
        (λ row. AllByRecursion
        (λ column. entry matrix.now row column ≢ pos 0
        → list_any
        (λ child. is_among child.rows row && is_among child.columns column)
        (line_sets children.now)
        ≡ true)
        columns.now)
        rows.now }
{
    for row in rows {
        if !has_nonzeros(matrix, children, *row, columns) {
            return false;
        }
    }
    true
}

fn has_nonzeros(matrix: &Matrix, children: &[Node], row: u32, columns: &[u32]) -> bool
    requires row { row < height matrix.now }
    requires columns { AllBelow matrix.now.width columns.now }
    requires one { count_by (λ child. is_among child.rows row) (line_sets children.now) ≡ 1 }
    ensures { IsTrue result
        ↔ AllByRecursion
        (λ column. entry matrix.now row column ≢ pos 0
        → list_any
        (λ child. is_among child.rows row && is_among child.columns column)
        (line_sets children.now)
        ≡ true)
        columns.now }
{
    are_inside(matrix, columns_beside(children, row), row, columns)
}

// The columns of the only child that has this row.
fn columns_beside(children: &[Node], row: u32) -> &Indices
    requires { count_by (λ child. is_among child.rows row) (line_sets children.now) ≡ 1 }
    ensures { (column : ℕ)
        → list_any
        (λ child. is_among child.rows row && is_among child.columns column)
        (line_sets children.now)
        ≡ is_among result.now column }
{
    for child in children {
        if has_line(&child.lines.rows, row) {
            return &child.lines.columns;
        }
    }
    unreachable!()
}

// Whether the row's nonzeros among these columns are in columns of the set.
fn are_inside(matrix: &Matrix, inside: &Indices, row: u32, columns: &[u32]) -> bool
    requires row { row < height matrix.now }
    requires columns { AllBelow matrix.now.width columns.now }
    ensures { IsTrue result
        ↔ AllByRecursion
        (λ column. entry matrix.now row column ≢ pos 0 → is_among inside.now column ≡ true)
        columns.now }
{
    for column in columns {
        if matrix.entry(row, *column) != 0 && !has_line(inside, *column) {
            return false;
        }
    }
    true
}
