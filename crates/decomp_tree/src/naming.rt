// Lines of a submatrix by their numbers in the whole matrix.
ghost use Rattle.std.specs.Prelude.{◌≡◌, ◌<◌, length, map, IfOk};
ghost use Rattle.std.specs.List.{AllByRecursion};
ghost use Rattle.cmr_base.specs.LineSets.{AllBelow};
ghost use Rattle.decomp_tree.specs.Shapes.{numbered, numbered_line, set_in, connector_in, two_in, three_in};
ghost use Rattle.decomp_tree.specs.Seen.{IsPlace, IsPlacedSet, IsPlacedConnector};
ghost use Rattle.cmr_base.specs.Separations.{first_is_flat, second_is_flat};

use cmr_base::{
    Connector, Indices, Line, LineList, LineSet, LineSetList, Memory, Step, Three, Two,
};
use std::alloc::Global;

// The numbers at some positions of a list.
fn named(alloc: Global, lines: &Indices, places: &Indices) -> Result<Indices, Memory>
    requires { AllBelow (length lines.now) places.now }
    ensures { IfOk result (λ named. named ≡ map (numbered lines.now) places.now) }
{
    let numbers = lines.as_slice();
    let mut named = Indices::new(alloc);
    for place in places.as_slice() {
        named.push(numbers[*place as usize])?;
    }
    Ok(named)
}

/// A set of lines.
pub fn named_set(alloc: Global, lines: &LineSet, set: &LineSet) -> Result<LineSet, Memory>
    requires { IsPlacedSet lines.now set.now }
    ensures { IfOk result (λ named. named ≡ set_in lines.now set.now) }
{
    Ok(LineSet {
        rows: named(alloc, &lines.rows, &set.rows)?,
        columns: named(alloc, &lines.columns, &set.columns)?,
    })
}

/// A list of sets of lines.
pub fn named_parts(alloc: Global, lines: &LineSet, parts: &[LineSet]) -> Result<LineSetList, Memory>
    requires { AllByRecursion (IsPlacedSet lines.now) parts.now }
    ensures { IfOk result (λ named. named ≡ map (set_in lines.now) parts.now) }
{
    let mut named = LineSetList::new(alloc);
    for part in parts {
        named.push(named_set(alloc, lines, part)?)?;
    }
    Ok(named)
}

fn named_line(lines: &LineSet, line: Line) -> Line
    requires { IsPlace lines.now line }
    ensures { result ≡ numbered_line lines.now line }
{
    match line {
        Line::Row(row) => Line::Row(*lines.rows.get(row as usize)),
        Line::Column(column) => Line::Column(*lines.columns.get(column as usize)),
    }
}

/// The lines of a list of removals.
pub fn named_steps(alloc: Global, lines: &LineSet, steps: &[Step]) -> Result<LineList, Memory>
    requires { AllByRecursion (λ step. IsPlace lines.now step.line) steps.now }
    ensures { IfOk result (λ named. named ≡ map (numbered_line lines.now)
        (map (λ step. step.line) steps.now)) }
{
    let mut named = LineList::new(alloc);
    for step in steps {
        named.push(named_line(lines, step.line))?;
    }
    Ok(named)
}

/// A two-separation.
pub fn named_two(alloc: Global, lines: &LineSet, two: &Two) -> Result<Two, Memory>
    requires side { IsPlacedSet lines.now two.now.side }
    requires row { two.now.row < length lines.now.rows }
    requires column { two.now.column < length lines.now.columns }
    ensures { IfOk result (λ named. named ≡ two_in lines.now two.now) }
{
    Ok(Two {
        side: named_set(alloc, lines, &two.side)?,
        row: *lines.rows.get(two.row as usize),
        column: *lines.columns.get(two.column as usize),
    })
}

// The other line of a flat connector is a column.
fn named_connector(lines: &LineSet, is_flat: bool, connector: Connector) -> Connector
    requires { IsPlacedConnector is_flat lines.now connector }
    ensures { result ≡ connector_in is_flat lines.now connector }
{
    Connector {
        row: *lines.rows.get(connector.row as usize),
        column: *lines.columns.get(connector.column as usize),
        other: if is_flat {
            *lines.columns.get(connector.other as usize)
        } else {
            *lines.rows.get(connector.other as usize)
        },
    }
}

/// A three-separation.
pub fn named_three(alloc: Global, lines: &LineSet, three: &Three) -> Result<Three, Memory>
    requires side { IsPlacedSet lines.now three.now.side }
    requires first { IsPlacedConnector (first_is_flat three.now.form) lines.now three.now.first }
    requires second { IsPlacedConnector (second_is_flat three.now.form) lines.now three.now.second }
    ensures { IfOk result (λ named. named ≡ three_in lines.now three.now) }
{
    Ok(Three {
        form: three.form,
        side: named_set(alloc, lines, &three.side)?,
        first: named_connector(lines, three.form.first_is_flat(), three.first),
        second: named_connector(lines, three.form.second_is_flat(), three.second),
    })
}
