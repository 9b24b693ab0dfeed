// A spanning forest of the rows: a column with two nonzeros joins two rows.
ghost use Rattle.std.specs.Prelude.{◌≡◌, ◌≢◌, ◌<◌, ◌≤◌, ◌+◌, length, Some, None, IfNone, IfOk, IfSome, OnOk};
ghost use Rattle.std.specs.List.{AllByRecursion};
ghost use Rattle.sparse_matrix.specs.SparseRows.{AreCrossed, IsNonzeroWithin};
ghost use Rattle.cmr_base.specs.Signing.{IsSign};
ghost use Rattle.split_search.specs.RowForests.{AreClosedBelow, AreNumberedBelow, Grows, HasEnds, IsBetweenTrees, IsClosedAt, IsColumnClosed, IsForestClosed, HasAppended, IsRowForest, JoinsRoots, KeepsReached, ReachesRow, Spans, Walks, row_node, unreached};

use cmr_base::Memory;
use sparse_matrix::{Nonzero, SparseMatrix};
use std::alloc::Global;

/// A column with two nonzeros, and one of its rows.
#[derive(Clone, Copy, Debug)]
pub struct Edge {
    pub column: u32,
    pub row: u32,
}

/// A row that is reached: whether its sign is -1, its root, its number in the order in which rows are reached, and the column that leads to the root, with the
/// other row of this column.
#[derive(Clone, Copy, Debug)]
pub struct Node {
    pub minus: bool,
    pub root: u32,
    pub number: usize,
    pub above: Option<Edge>,
}

// Reaches a row from a row of the tree that grows, by the column `column` with the nonzeros `from` and `to`.
fn attach(
    nodes: &mut Vec<Option<Node>>,
    _columns: &SparseMatrix,
    parent: Node,
    column: u32,
    from: Nonzero,
    to: Nonzero,
    _root: u32,
    number: usize,
)
    requires ends { HasEnds _columns.now column from to }
    requires parent { row_node nodes.old.items from.line ≡ Some parent }
    requires free { row_node nodes.old.items to.line ≡ None }
    requires inside { to.line < length nodes.old.items }
    requires signs { (IsSign from.value) × (IsSign to.value) }
    requires grows { Grows _columns.now nodes.old.items _root number }
    ensures reaches { ReachesRow _columns.now nodes.old.items nodes.new.items _root number to.line }
    ensures fewer { unreached nodes.new.items + 1 ≡ unreached nodes.old.items }
{
    nodes[to.line as usize] = Some(Node {
        minus: parent.minus != (from.value == to.value),
        root: parent.root,
        number,
        above: Some(Edge {
            column,
            row: from.line,
        }),
    });
}

/// Reaches a root. The trees before are closed.
pub fn seat(nodes: &mut Vec<Option<Node>>, _columns: &SparseMatrix, root: u32, number: usize)
    requires free { row_node nodes.old.items root ≡ None }
    requires inside { root < length nodes.old.items }
    requires forest { IsRowForest _columns.now nodes.old.items }
    requires joins { JoinsRoots _columns.now nodes.old.items }
    requires numbered { AreNumberedBelow nodes.old.items number }
    requires closed { IsForestClosed _columns.now nodes.old.items }
    ensures { ReachesRow _columns.now nodes.old.items nodes.new.items root number root }
{
    nodes[root as usize] = Some(Node {
        minus: false,
        root,
        number,
        above: None,
    });
}

/// Reaches one more row by a column that joins a reached row with another row, if it does, and returns the row.
pub fn extend(
    nodes: &mut Vec<Option<Node>>,
    columns: &SparseMatrix,
    column: u32,
    _root: u32,
    number: usize,
) -> Option<u32>
    requires column { column < length columns.now.runs }
    requires count { length nodes.old.items ≡ columns.now.width }
    requires grows { Grows columns.now nodes.old.items _root number }
    ensures closed { IsClosedAt columns.now nodes.new.items column }
    ensures same { IfNone result (nodes.new.items ≡ nodes.old.items) }
    ensures reaches { IfSome result
        (ReachesRow columns.now nodes.old.items nodes.new.items _root number) }
    ensures fewer { IfSome result (λ _. unreached nodes.new.items + 1 ≡ unreached nodes.old.items) }
    ensures within { IfSome result (λ row. row < columns.now.width) }
{
    let [first, second] = columns.row(column) else {
        return None;
    };
    match (nodes[first.line as usize], nodes[second.line as usize]) {
        (Some(parent), None) => {
            attach(
                nodes, columns, parent, column, *first, *second, _root, number,
            );
            Some(second.line)
        }
        (None, Some(parent)) => {
            attach(
                nodes, columns, parent, column, *second, *first, _root, number,
            );
            Some(first.line)
        }
        _ => None,
    }
}

/// Reaches the rows that the columns of a reached row join with it, and puts them into the queue.
pub fn reach_all(
    nodes: &mut Vec<Option<Node>>,
    queue: &mut Vec<u32>,
    columns: &SparseMatrix,
    run: &[Nonzero],
    _row: u32,
    root: u32,
) -> Result<(), Memory>
    requires walks { Walks columns.now nodes.old.items root queue.old.items }
    requires run { AllByRecursion (IsNonzeroWithin (length columns.now.runs)) run.now }
    requires row { row_node nodes.old.items _row ≢ None }
    ensures walks { OnOk result (Walks columns.now nodes.new.items root queue.new.items) }
    ensures fewer { OnOk result (unreached nodes.new.items + length queue.new.items
        ≡ unreached nodes.old.items + length queue.old.items) }
    ensures kept { OnOk result (KeepsReached nodes.old.items nodes.new.items) }
    ensures closed { OnOk result (AllByRecursion
        (λ x. IsColumnClosed columns.now nodes.new.items _row x.line) run.now) }
    ensures before { OnOk result (HasAppended queue.old.items queue.new.items) }
{
    for nonzero in run {
        if let Some(row) = extend(nodes, columns, nonzero.line, root, queue.len()) {
            queue.push(row)?;
        }
    }
    Ok(())
}

/// Goes through the queue from a place on, and reaches the rows that its rows are joined with. The columns of the rows before this
/// place are closed.
pub fn walk(
    nodes: &mut Vec<Option<Node>>,
    queue: &mut Vec<u32>,
    rows: &SparseMatrix,
    columns: &SparseMatrix,
    root: u32,
    from: usize,
) -> Result<(), Memory>
    requires crossed { AreCrossed rows.now columns.now }
    requires walks { Walks columns.now nodes.old.items root queue.old.items }
    requires from { from ≤ length queue.old.items }
    requires closed { AreClosedBelow columns.now nodes.old.items queue.old.items from }
    ensures walks { OnOk result (Walks columns.now nodes.new.items root queue.new.items) }
    ensures kept { OnOk result (KeepsReached nodes.old.items nodes.new.items) }
    ensures closed { OnOk result (AreClosedBelow columns.now nodes.new.items queue.new.items
        (length queue.new.items)) }
{
    let _columns = columns.rows();
    let mut head = from;
    'rows: while head < queue.len() {
        let row = queue[head];
        head += 1;
        reach_all(nodes, queue, columns, rows.row(row), row, root)?;
    }
    Ok(())
}

/// Grows the tree of a root.
pub fn tree(
    nodes: &mut Vec<Option<Node>>,
    queue: &mut Vec<u32>,
    rows: &SparseMatrix,
    columns: &SparseMatrix,
    root: u32,
) -> Result<(), Memory>
    requires crossed { AreCrossed rows.now columns.now }
    requires free { row_node nodes.old.items root ≡ None }
    requires inside { root < length nodes.old.items }
    requires between { IsBetweenTrees columns.now nodes.old.items queue.old.items }
    ensures between { OnOk result (IsBetweenTrees columns.now nodes.new.items queue.new.items) }
    ensures kept { OnOk result (KeepsReached nodes.old.items nodes.new.items) }
    ensures reached { OnOk result (row_node nodes.new.items root ≢ None) }
{
    let from = queue.len();
    seat(nodes, columns, root, from);
    queue.push(root)?;
    walk(nodes, queue, rows, columns, root, from)
}

/// Reaches each row by the tree of a root. `columns` is the transposed matrix.
pub fn span(
    alloc: Global,
    rows: &SparseMatrix,
    columns: &SparseMatrix,
) -> Result<Vec<Option<Node>>, Memory>
    requires crossed { AreCrossed rows.now columns.now }
    ensures { IfOk result (λ nodes. Spans columns.now nodes.items) }
{
    let mut nodes = vec![in alloc; None; rows.rows() as usize]?;
    let mut queue = Vec::with_capacity(alloc, rows.rows() as usize)?;
    for root in 0..rows.rows() {
        if nodes[root as usize].is_none() {
            tree(&mut nodes, &mut queue, rows, columns, root)?;
        }
    }
    Ok(nodes)
}
