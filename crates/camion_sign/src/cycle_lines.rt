// The lines of cycles, and the cycle fault.
ghost use Rattle.std.specs.Prelude.{◌≡◌, ◌∷◌, ℕ, List, IfOk, MatchOption, IfSome};
ghost use Rattle.cmr_base.specs.Matrix.{height, entry};
ghost use Rattle.cmr_base.specs.Members.{IsIn};
ghost use Rattle.cmr_base.specs.CyclePlaces.{HasNoCycleFault, IsCycleFault, path_rows, path_columns, cycle_rows, cycle_columns};
ghost use Rattle.cmr_base.specs.Violator.{IsViolator};
ghost use Rattle.camion_sign.specs.FaultLines.{IsBuilt, IsLeastFrom, within};
ghost use Rattle.network_orient.specs.FirstRows.{HasNoFaultBefore};

use crate::fault::first_fault;
use crate::network_rows::passed_rows;
use cmr_base::{Indices, LineSet, Matrix, Memory, RowsAndColumns};
use std::alloc::Global;

/// The cycle of the first cycle place whose sum is 2 modulo 4, and `None` if and only if there is no such place. Places are
/// ordered by their row, first column and last column. The cycle is a violator in the sense of Camion: each of its lines has
/// two nonzeros in it. The time is at most one walk through the earlier rows for each nonzero, in rows with many nonzeros one
/// comparison with each earlier row, and some searches for a tree of first rows.
pub fn cycle_fault(alloc: Global, matrix: &Matrix) -> Result<Option<LineSet>, Memory>
    ensures fault { IfOk result (λ found. MatchOption found (HasNoCycleFault (entry matrix.now))
        (λ lines. IsCycleFault matrix.now lines.rows lines.columns)) }
    ensures violator { IfOk result (λ found.
        IfSome found (λ lines. IsViolator (entry matrix.now) lines.rows lines.columns)) }
{
    let columns = matrix.transposed(alloc)?;
    cycle_fault_of(alloc, &RowsAndColumns::of(matrix, &columns))
}

/// The same for a matrix by its rows and its columns.
pub fn cycle_fault_of(alloc: Global, matrix: &RowsAndColumns<'_>) -> Result<Option<LineSet>, Memory>
    ensures fault { IfOk result (λ found. MatchOption found (HasNoCycleFault (entry matrix.now))
        (λ lines. IsCycleFault matrix.now lines.rows lines.columns)) }
    ensures violator { IfOk result (λ found.
        IfSome found (λ lines. IsViolator (entry matrix.now) lines.rows lines.columns)) }
{
    let first = passed_rows(alloc, matrix)?;
    cycle_fault_from(alloc, matrix, first)
}

/// The same if the rows before a given row have no fault, for example because they agree with a network.
pub fn cycle_fault_from(
    alloc: Global,
    matrix: &RowsAndColumns<'_>,
    first: u32,
) -> Result<Option<LineSet>, Memory>
    requires passed { HasNoFaultBefore matrix.now first }
    ensures fault { IfOk result (λ found. MatchOption found (HasNoCycleFault (entry matrix.now))
        (λ lines. IsCycleFault matrix.now lines.rows lines.columns)) }
    ensures violator { IfOk result (λ found.
        IfSome found (λ lines. IsViolator (entry matrix.now) lines.rows lines.columns)) }
{
    match first_fault(alloc, matrix, first)? {
        Some(fault) => {
            let rows = rows_of_cycle(alloc, fault.row, &fault.lines, matrix.rows())?;
            let columns = columns_of_cycle(
                alloc,
                fault.first,
                fault.last,
                &fault.lines,
                matrix.columns(),
            )?;
            Ok(Some(LineSet { rows, columns }))
        }
        None => Ok(None),
    }
}

/// The rows below a bound of the cycle of a place with this row and this path.
pub fn rows_of_cycle(alloc: Global, row: u32, path: &[u32], height: u32) -> Result<Indices, Memory>
    ensures { IfOk result (λ rows.
        IsBuilt (λ line. IsIn line (cycle_rows row path.now)) height rows) }
{
    let mut rows = Indices::new(alloc);
    let mut next = least_row(row, path, 0);
    'lines: while let Some(line) = below(next, height) {
        rows.push(line)?;
        next = least_row(row, path, line + 1);
    }
    Ok(rows)
}

/// The columns below a bound of the cycle of a place with these columns and this path.
pub fn columns_of_cycle(
    alloc: Global,
    first: u32,
    last: u32,
    path: &[u32],
    width: u32,
) -> Result<Indices, Memory>
    ensures { IfOk result (λ columns.
        IsBuilt (λ line. IsIn line (cycle_columns first last path.now)) width columns) }
{
    let mut columns = Indices::new(alloc);
    let mut next = least_column(first, last, path, 0);
    'lines: while let Some(line) = below(next, width) {
        columns.push(line)?;
        next = least_column(first, last, path, line + 1);
    }
    Ok(columns)
}

// The line, if it is below a bound.
fn below(line: Option<u32>, bound: u32) -> Option<u32>
    ensures { result ≡ within line bound }
{
    match line {
        Some(line) => { if line < bound { Some(line) } else { None } }
        None => None,
    }
}

// The least row of a cycle that is at least `from`.
fn least_row(row: u32, path: &[u32], from: u32) -> Option<u32>
    ensures { IsLeastFrom (cycle_rows row path.now) from result }
{
    lesser(row, least_path_row(path, from), from)
}

// The least column of a cycle that is at least `from`.
fn least_column(first: u32, last: u32, path: &[u32], from: u32) -> Option<u32>
    ensures { IsLeastFrom (cycle_columns first last path.now) from result }
{
    lesser(
        first,
        lesser(last, least_path_column(path, from), from),
        from,
    )
}

fn least_path_row(path: &[u32], from: u32) -> Option<u32>
    ensures { IsLeastFrom (path_rows path.now) from result }
{
    if path.len() == 0 {
        return None;
    }
    if path.len() < 2 {
        return lesser(path[0], None, from);
    }
    lesser(path[0], least_path_row(&path[2..], from), from)
}

fn least_path_column(path: &[u32], from: u32) -> Option<u32>
    ensures { IsLeastFrom (path_columns path.now) from result }
{
    if path.len() < 2 {
        return None;
    }
    lesser(path[1], least_path_column(&path[2..], from), from)
}

// The least line that is at least `from`, among one line and the least of the others.
fn lesser(line: u32, others: Option<u32>, from: u32) -> Option<u32>
    ensures { (lines : List ℕ) → IsLeastFrom lines from others
        → IsLeastFrom (line ∷ lines) from result }
{
    if line < from {
        return others;
    }
    match others {
        Some(other) => Some(line.min(other)),
        None => Some(line),
    }
}
