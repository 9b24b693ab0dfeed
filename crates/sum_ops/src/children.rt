// The children of a separation: each side, with a few lines of the other side.
ghost use Rattle.std.specs.Prelude.{◌≡◌, ◌<◌, ℕ, [], ◌∷◌, length, IfOk, true, false};
ghost use Rattle.std.specs.List.{list_any};
ghost use Rattle.std.specs.List.Sorted.{IsStrictlyIncreasing};
ghost use Rattle.cmr_base.specs.declared.line.Line.TheVariants.{Row, Column};
ghost use Rattle.cmr_base.specs.Separations.{listed, is_same_line, with_lines, child_one, child_two, connector_lines, first_is_flat, second_is_flat, AreEnough};
ghost use Rattle.sum_ops.specs.Children.{on_side, on_list, chosen, AreOfChild, HasFewer};

use cmr_base::{Indices, Line, LineSet, LineSetPair, Memory, Three, Two};
use std::alloc::Global;

/// Gives the lines of the children of a two-separation of these lines: side one with the row of side two, and side
/// two with the column of side one. Each child has fewer lines.
pub fn two_parts(alloc: Global, lines: &LineSet, two: &Two) -> Result<LineSetPair, Memory>
    requires { AreEnough lines.now.rows lines.now.columns
        (listed two.now.side.rows two.now.side.columns) 2 }
    ensures one { IfOk result (λ pair. AreOfChild lines.now
        (child_one (listed two.now.side.rows two.now.side.columns) (Row two.now.row ∷ []))
        pair.one) }
    ensures two { IfOk result (λ pair. AreOfChild lines.now
        (child_two (listed two.now.side.rows two.now.side.columns) (Column two.now.column ∷ []))
        pair.two) }
    ensures fewer_in_one { IfOk result (λ pair. HasFewer lines.now pair.one) }
    ensures fewer_in_two { IfOk result (λ pair. HasFewer lines.now pair.two) }
{
    Ok(LineSetPair {
        one: child(alloc, lines, &two.side, true, &[Line::Row(two.row)])?,
        two: child(alloc, lines, &two.side, false, &[Line::Column(two.column)])?,
    })
}

/// Gives the lines of the children of a three-separation of these lines: side one with the second connector, and side
/// two with the first connector. Each child has fewer lines.
pub fn three_parts(alloc: Global, lines: &LineSet, three: &Three) -> Result<LineSetPair, Memory>
    requires { AreEnough lines.now.rows lines.now.columns
        (listed three.now.side.rows three.now.side.columns) 4 }
    ensures one { IfOk result (λ pair. AreOfChild lines.now
        (child_one
        (listed three.now.side.rows three.now.side.columns)
        (connector_lines (second_is_flat three.now.form) three.now.second))
        pair.one) }
    ensures two { IfOk result (λ pair. AreOfChild lines.now
        (child_two
        (listed three.now.side.rows three.now.side.columns)
        (connector_lines (first_is_flat three.now.form) three.now.first))
        pair.two) }
    ensures fewer_in_one { IfOk result (λ pair. HasFewer lines.now pair.one) }
    ensures fewer_in_two { IfOk result (λ pair. HasFewer lines.now pair.two) }
{
    let first = three.first.lines(three.form.first_is_flat());
    let second = three.second.lines(three.form.second_is_flat());
    Ok(LineSetPair {
        one: child(alloc, lines, &three.side, true, &second)?,
        two: child(alloc, lines, &three.side, false, &first)?,
    })
}

// Gives the lines of a side and the lines that `more` names. The side is side one if `inside` is true.
fn child(
    alloc: Global,
    lines: &LineSet,
    side: &LineSet,
    inside: bool,
    more: &[Line],
) -> Result<LineSet, Memory>
    ensures lines { IfOk result (AreOfChild lines.now (with_lines
        (on_side inside (listed side.now.rows side.now.columns)) more.now)) }
    ensures fewer { (least : ℕ)
        → AreEnough lines.now.rows lines.now.columns (listed side.now.rows side.now.columns) least
        → length more.now < least → IfOk result (HasFewer lines.now) }
{
    Ok(LineSet {
        rows: child_rows(alloc, &lines.rows, &side.rows, inside, more)?,
        columns: child_columns(alloc, &lines.columns, &side.columns, inside, more)?,
    })
}

fn child_rows(
    alloc: Global,
    rows: &Indices,
    side: &Indices,
    inside: bool,
    more: &[Line],
) -> Result<Indices, Memory>
    ensures child { IfOk result (λ child. child ≡ chosen Row inside side.now more.now rows.now) }
    ensures increasing { IfOk result (λ _. IsStrictlyIncreasing rows.now) }
{
    let mut child = Indices::new(alloc);
    for row in rows.as_slice() {
        if is_on(side, *row, inside) || is_named(more, Line::Row(*row)) {
            child.push(*row)?;
        }
    }
    Ok(child)
}

fn child_columns(
    alloc: Global,
    columns: &Indices,
    side: &Indices,
    inside: bool,
    more: &[Line],
) -> Result<Indices, Memory>
    ensures child { IfOk result (λ child. child ≡ chosen Column inside side.now more.now
        columns.now) }
    ensures increasing { IfOk result (λ _. IsStrictlyIncreasing columns.now) }
{
    let mut child = Indices::new(alloc);
    for column in columns.as_slice() {
        if is_on(side, *column, inside) || is_named(more, Line::Column(*column)) {
            child.push(*column)?;
        }
    }
    Ok(child)
}

fn is_on(side: &Indices, line: u32, inside: bool) -> bool
    ensures { result ≡ on_list inside side.now line }
{
    if inside {
        side.as_slice().contains(&line)
    } else {
        !side.as_slice().contains(&line)
    }
}

fn is_named(named: &[Line], line: Line) -> bool
    ensures { result ≡ list_any (is_same_line line) named.now }
{
    for other in named {
        if is_same_line(line, *other) {
            return true;
        }
    }
    false
}

fn is_same_line(line: Line, other: Line) -> bool
    ensures { result ≡ is_same_line line other }
{
    match (line, other) {
        (Line::Row(row), Line::Row(other)) => other == row,
        (Line::Column(column), Line::Column(other)) => other == column,
        _ => false,
    }
}
