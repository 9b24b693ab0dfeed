// Signs that cancel each column, or a cycle that does not cancel.
ghost use Rattle.std.specs.Prelude.{◌≡◌, ◌≢◌, ◌↔◌, map, IfOk, IsTrue};
ghost use Rattle.sparse_matrix.specs.SparseRows.{AreCrossed, matrix_of_runs, run_of};
ghost use Rattle.two_nonzeros.specs.Cancelling.{Cancels, sign_at};
ghost use Rattle.split_search.specs.RowForests.{HasEnds, Spans};
ghost use Rattle.split_search.specs.Paths.{AreSignsOf, minus_of_node};
ghost use Rattle.split_search.specs.Decisions.{AreViolating, IsDecidedBy, HaveAtMostTwo};

use crate::cycle::{crossing_rows, cycle_columns, marked_lines};
use crate::forest::{Node, span};
use cmr_base::{LineSet, Memory};
use sparse_matrix::{Nonzero, SparseMatrix};
use std::alloc::Global;
use two_nonzeros::first_uncancelled;

/// Whether a matrix is totally unimodular, with the reason.
#[derive(Debug, Drop)]
pub enum Split {
    /// The marked rows have the sign -1, and the others the sign 1: the two nonzeros of each column cancel.
    Minus(Vec<bool>),
    /// A violator.
    Violator(LineSet),
}

fn is_minus(node: Option<Node>) -> bool
    ensures { result ≡ minus_of_node node }
{
    match node {
        Some(node) => node.minus,
        None => false,
    }
}

// Marks the rows of sign -1.
fn minus_rows(alloc: Global, nodes: &[Option<Node>]) -> Result<Vec<bool>, Memory>
    ensures { IfOk result (λ minus. minus.items ≡ map minus_of_node nodes.now) }
{
    let mut minus = Vec::with_capacity(alloc, nodes.len())?;
    for node in nodes {
        minus.push(is_minus(*node))?;
    }
    Ok(minus)
}

// The lines of the cycle of a column that does not cancel.
fn cycle(
    alloc: Global,
    nodes: &[Option<Node>],
    rows: &SparseMatrix,
    columns: &SparseMatrix,
    column: u32,
    first: Nonzero,
    second: Nonzero,
    _minus: &[bool],
) -> Result<LineSet, Memory>
    requires crossed { AreCrossed rows.now columns.now }
    requires spans { Spans columns.now nodes.now }
    requires ends { HasEnds columns.now column first second }
    requires apart { first.line ≢ second.line }
    requires signs { AreSignsOf nodes.now (sign_at _minus.now) }
    requires uncancelled { Cancels (sign_at _minus.now) (run_of columns.now column) → ⊥ }
    ensures { IfOk result (λ lines. AreViolating (matrix_of_runs rows.now) lines.rows
        lines.columns) }
{
    let _rows = rows.rows();
    let _columns = columns.rows();
    let marks = cycle_columns(alloc, nodes, columns, column, first, second)?;
    let in_rows = crossing_rows(alloc, columns, &marks)?;
    Ok(LineSet {
        rows: marked_lines(alloc, &in_rows)?,
        columns: marked_lines(alloc, &marks)?,
    })
}

/// Whether each row has at most two nonzeros.
pub fn have_at_most_two(matrix: &SparseMatrix) -> bool
    ensures { IsTrue result ↔ HaveAtMostTwo matrix.now }
{
    for row in 0..matrix.rows() {
        if matrix.row(row).len() > 2 {
            return false;
        }
    }
    true
}

/// IsDecidedBy a matrix with at most two nonzeros in each column. `columns` is the transposed matrix.
pub fn decide(alloc: Global, rows: &SparseMatrix, columns: &SparseMatrix) -> Result<Split, Memory>
    requires crossed { AreCrossed rows.now columns.now }
    requires thin { HaveAtMostTwo columns.now }
    ensures { IfOk result (IsDecidedBy rows.now) }
{
    let _rows = rows.rows();
    let nodes = span(alloc, rows, columns)?;
    let minus = minus_rows(alloc, &nodes)?;
    match first_uncancelled(&minus, rows, columns) {
        None => Ok(Split::Minus(minus)),
        Some(column) => {
            let run = columns.row(column);
            let lines = cycle(alloc, &nodes, rows, columns, column, run[0], run[1], &minus)?;
            Ok(Split::Violator(lines))
        }
    }
}
