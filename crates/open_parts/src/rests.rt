// The rests of an open part: its lines are removed in turn.
ghost use Rattle.std.specs.Prelude.{◌≡◌, ◌++◌, map, IfOk, OnOk};
ghost use Rattle.cmr_base.specs.declared.line.Line.TheVariants.{Row, Column};
ghost use Rattle.tree_type.specs.Invariant.{AreLines};
ghost use Rattle.open_parts.specs.Rests.{IsFoundInRests, rest_without, turns_of};
ghost use Rattle.open_parts.specs.LineTurns.{IsTurnOfLine};

use crate::rest_search::RestSearch;
use cmr_base::{Indices, Line, LineList, LineSet, Memory};
use decomp_tree::{decompose, named_set};
use std::alloc::Global;
use std::thread::Threads;
use tree_type::{VerdictOf, copy_of, verdict};

/// What a turn gives: the lines that are kept, or the fault that ends the search.
#[derive(Debug, Drop)]
pub enum Turn {
    Kept(LineSet),
    Found(LineSet),
}

/// The fault of the first rest whose decomposition is a no. Each line is removed in its turn. It stays if the rest is a yes, and is
/// removed for good if the rest is open.
pub fn fault_in_rests<R: Threads + Sync>(
    rt: &R,
    alloc: Global,
    search: &RestSearch<'_>,
    lines: &LineSet,
) -> Result<Option<LineSet>, Memory>
    requires { AreLines search.now.matrix.now lines.now }
    ensures { IfOk result (IsFoundInRests search.now.limit search.now.matrix.now lines.now) }
{
    let turns = turns_of(alloc, lines)?;
    let mut kept = copy_of(alloc, lines)?;
    for line in turns.as_slice() {
        match take_turn(rt, alloc, search, kept, *line)? {
            Turn::Kept(next) => kept = next,
            Turn::Found(fault) => return Ok(Some(fault)),
        }
    }
    Ok(None)
}

// The rows and then the columns.
fn turns_of(alloc: Global, lines: &LineSet) -> Result<LineList, Memory>
    ensures { IfOk result (λ turns. turns ≡ turns_of lines.now) }
{
    let mut turns = LineList::new(alloc);
    push_rows(&mut turns, &lines.rows)?;
    push_columns(&mut turns, &lines.columns)?;
    Ok(turns)
}

fn push_rows(turns: &mut LineList, rows: &Indices) -> Result<(), Memory>
    ensures { OnOk result (turns.new ≡ turns.old ++ map Row rows.now) }
{
    for row in rows.as_slice() {
        turns.push(Line::Row(*row))?;
    }
    Ok(())
}

fn push_columns(turns: &mut LineList, columns: &Indices) -> Result<(), Memory>
    ensures { OnOk result (turns.new ≡ turns.old ++ map Column columns.now) }
{
    for column in columns.as_slice() {
        turns.push(Line::Column(*column))?;
    }
    Ok(())
}

// The turn of a line: the rest without it is decomposed without pivots.
fn take_turn<R: Threads + Sync>(
    rt: &R,
    alloc: Global,
    search: &RestSearch<'_>,
    kept: LineSet,
    line: Line,
) -> Result<Turn, Memory>
    requires { AreLines search.now.matrix.now kept }
    ensures { IfOk result (IsTurnOfLine search.now.limit search.now.matrix.now kept line) }
{
    let rest = rest_without(alloc, &kept, line)?;
    let part = search.matrix.part(alloc, &rest)?;
    let tree = decompose(rt, alloc, &part, search.limit, 0, search.workers)?;
    match verdict(&tree) {
        VerdictOf::Yes => Ok(Turn::Kept(kept)),
        VerdictOf::No(fault) => {
            let found = named_set(alloc, &rest, fault)?;
            Ok(Turn::Found(found))
        }
        VerdictOf::Undecided(_) => Ok(Turn::Kept(rest)),
    }
}

// The lines without a line.
fn rest_without(alloc: Global, kept: &LineSet, line: Line) -> Result<LineSet, Memory>
    ensures { IfOk result (λ rest. rest ≡ rest_without kept.now line) }
{
    match line {
        Line::Row(row) => kept.without_row(alloc, row),
        Line::Column(column) => kept.without_column(alloc, column),
    }
}
