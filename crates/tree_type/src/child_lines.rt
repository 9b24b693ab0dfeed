// The lines on the sides of a separation, and the lines that the children of a sum must have.
ghost use Rattle.std.specs.Prelude.{◌≡◌, IfOk};
ghost use Rattle.tree_type.specs.Sides.{is_among, inside, outside, inside_with, outside_with, two_one, two_two, three_one, three_two};

use cmr_base::{Connector, Indices, LineSet, Memory, Three, Two};
use std::alloc::Global;

/// Whether a set has a line, by binary search.
pub fn has_line(set: &Indices, line: u32) -> bool
    ensures { result ≡ is_among set.now line }
{
    set.as_slice().binary_search(&line).is_ok()
}

/// The lines of side one, that is the lines in the set.
pub fn side_one(alloc: Global, lines: &LineSet, set: &LineSet) -> Result<LineSet, Memory>
    ensures rows { IfOk result (λ one. one.rows ≡ inside set.now.rows lines.now.rows) }
    ensures columns { IfOk result (λ one. one.columns ≡ inside set.now.columns lines.now.columns) }
{
    one_with(alloc, lines, set, &[], &[])
}

/// The lines of side two, that is the lines outside the set.
pub fn side_two(alloc: Global, lines: &LineSet, set: &LineSet) -> Result<LineSet, Memory>
    ensures rows { IfOk result (λ two. two.rows ≡ outside set.now.rows lines.now.rows) }
    ensures columns { IfOk result (λ two. two.columns ≡ outside set.now.columns lines.now.columns) }
{
    other_with(alloc, lines, set, &[], &[])
}

/// A copy of the lines.
pub fn copy_of(alloc: Global, lines: &LineSet) -> Result<LineSet, Memory>
    ensures { IfOk result (λ copy. copy ≡ lines.now) }
{
    Ok(LineSet {
        rows: Indices::of(alloc, lines.rows.as_slice())?,
        columns: Indices::of(alloc, lines.columns.as_slice())?,
    })
}

/// The lines of the first child of a two-sum: side one with the row of the reference.
pub fn two_one(alloc: Global, lines: &LineSet, two: &Two) -> Result<LineSet, Memory>
    ensures { IfOk result (λ one. one ≡ two_one lines.now two.now) }
{
    one_with(alloc, lines, &two.side, &[two.row], &[])
}

/// The lines of the second child of a two-sum: side two with the column of the reference.
pub fn two_two(alloc: Global, lines: &LineSet, two: &Two) -> Result<LineSet, Memory>
    ensures { IfOk result (λ other. other ≡ two_two lines.now two.now) }
{
    other_with(alloc, lines, &two.side, &[], &[two.column])
}

/// The lines of the first child of a three-sum: side one with the second connector.
pub fn three_one(alloc: Global, lines: &LineSet, three: &Three) -> Result<LineSet, Memory>
    ensures { IfOk result (λ one. one ≡ three_one lines.now three.now) }
{
    let Connector { row, column, other } = three.second;
    if three.form.second_is_flat() {
        one_with(alloc, lines, &three.side, &[row], &[column, other])
    } else {
        one_with(alloc, lines, &three.side, &[row, other], &[column])
    }
}

/// The lines of the second child of a three-sum: side two with the first connector.
pub fn three_two(alloc: Global, lines: &LineSet, three: &Three) -> Result<LineSet, Memory>
    ensures { IfOk result (λ other. other ≡ three_two lines.now three.now) }
{
    let Connector { row, column, other } = three.first;
    if three.form.first_is_flat() {
        other_with(alloc, lines, &three.side, &[row], &[column, other])
    } else {
        other_with(alloc, lines, &three.side, &[row, other], &[column])
    }
}

// Side one with a few further rows and columns.
fn one_with(
    alloc: Global,
    lines: &LineSet,
    side: &LineSet,
    rows: &[u32],
    columns: &[u32],
) -> Result<LineSet, Memory>
    ensures rows { IfOk result (λ one. one.rows
        ≡ inside_with side.now.rows rows.now lines.now.rows) }
    ensures columns { IfOk result (λ one. one.columns
        ≡ inside_with side.now.columns columns.now lines.now.columns) }
{
    Ok(LineSet {
        rows: inside_with(alloc, &side.rows, rows, &lines.rows)?,
        columns: inside_with(alloc, &side.columns, columns, &lines.columns)?,
    })
}

// Side two with a few further rows and columns.
fn other_with(
    alloc: Global,
    lines: &LineSet,
    side: &LineSet,
    rows: &[u32],
    columns: &[u32],
) -> Result<LineSet, Memory>
    ensures rows { IfOk result (λ other. other.rows
        ≡ outside_with side.now.rows rows.now lines.now.rows) }
    ensures columns { IfOk result (λ other. other.columns
        ≡ outside_with side.now.columns columns.now lines.now.columns) }
{
    Ok(LineSet {
        rows: outside_with(alloc, &side.rows, rows, &lines.rows)?,
        columns: outside_with(alloc, &side.columns, columns, &lines.columns)?,
    })
}

// The lines that are in a set or among a few further lines.
fn inside_with(
    alloc: Global,
    set: &Indices,
    more: &[u32],
    lines: &Indices,
) -> Result<Indices, Memory>
    ensures { IfOk result (λ inside. inside ≡ inside_with set.now more.now lines.now) }
{
    let mut inside = Indices::new(alloc);
    for line in lines.as_slice() {
        if has_line(set, *line) || is_among(more, *line) {
            inside.push(*line)?;
        }
    }
    Ok(inside)
}

// The lines that are outside a set, or among a few further lines.
fn outside_with(
    alloc: Global,
    set: &Indices,
    more: &[u32],
    lines: &Indices,
) -> Result<Indices, Memory>
    ensures { IfOk result (λ outside. outside ≡ outside_with set.now more.now lines.now) }
{
    let mut outside = Indices::new(alloc);
    for line in lines.as_slice() {
        if !has_line(set, *line) || is_among(more, *line) {
            outside.push(*line)?;
        }
    }
    Ok(outside)
}

fn is_among(lines: &[u32], line: u32) -> bool
    ensures { result ≡ is_among lines.now line }
{
    lines.iter().any(|other| line == *other)
}
