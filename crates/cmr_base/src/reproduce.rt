ghost use Rattle.std.specs.Prelude.{◌≡◌, ◌<◌, ◌↔◌, ℕ, pos, IsTrue, IfOk, length, slice_index_or};
ghost use Rattle.cmr_base.specs.Matrix.{entry, height};
ghost use Rattle.cmr_base.specs.Trees.{IsTree, Reproduces, ReproducesSupport};
ghost use Rattle.cmr_base.specs.Comparisons.{Agrees, IsColumnPath, IsReproduced};
ghost use Rattle.cmr_base.specs.RootedTrees.{AreEndsInRange, IsSpanning};

use crate::rooted_tree::{RootedTree, are_in_range, rooted};
use crate::{Matrix, Memory, Network, Pair};
use std::alloc::Global;

/// Whether the arcs are a tree whose arcs represent the rows, and the supports of the columns are the paths between the
/// ends of the walks, in their order. The directions of the arcs and the signs of the entries do not matter.
pub fn reproduces_support(alloc: Global, net: &Network, matrix: &Matrix) -> Result<bool, Memory>
    ensures { IfOk result (λ yes. IsTrue yes ↔ ReproducesSupport net.now matrix.now) }
{
    is_reproduced(alloc, net, matrix, Comparison::Support)
}

/// The same with directions: an entry is 1 if the path of its column uses the arc of its row forwards, and -1 if the
/// path uses the arc backwards.
pub fn reproduces(alloc: Global, net: &Network, matrix: &Matrix) -> Result<bool, Memory>
    ensures { IfOk result (λ yes. IsTrue yes ↔ Reproduces net.now matrix.now) }
{
    is_reproduced(alloc, net, matrix, Comparison::Signs)
}

/// The feature of an entry that is compared with the direction in which a path uses its row's arc.
#[derive(Clone, Copy, Debug)]
pub enum Comparison {
    Support,
    Signs,
}

impl Comparison {
    fn agrees(self, entry: i8, direction: i8) -> bool
        ensures { IsTrue result ↔ Agrees self entry direction }
    {
        match self {
            Comparison::Support => (entry != 0) == (direction != 0),
            Comparison::Signs => entry == direction,
        }
    }
}

fn is_reproduced(
    alloc: Global,
    net: &Network,
    matrix: &Matrix,
    comparison: Comparison,
) -> Result<bool, Memory>
    ensures { IfOk result (λ yes. IsTrue yes ↔ IsReproduced comparison net.now matrix.now) }
{
    let walks = net.walks.as_slice();
    if walks.len() != matrix.columns() as usize || !are_in_range(walks, matrix.rows()) {
        return Ok(false);
    }
    let arcs = net.arcs.as_slice();
    match rooted(alloc, arcs, matrix.rows())? {
        Some(tree) => have_paths(alloc, &tree, arcs, walks, matrix, comparison),
        None => Ok(false),
    }
}

// Whether each column is the path of its walk in a tree.
fn have_paths(
    alloc: Global,
    tree: &RootedTree,
    arcs: &[Pair],
    walks: &[Pair],
    matrix: &Matrix,
    comparison: Comparison,
) -> Result<bool, Memory>
    requires tree { IsTree arcs.now (height matrix.now) }
    requires spanning { IsSpanning arcs.now tree.now.links.items tree.now.places.items }
    requires count { length walks.now ≡ matrix.now.width }
    requires range { AreEndsInRange walks.now (height matrix.now) }
    ensures { IfOk result (λ yes. IsTrue yes ↔ ((column : ℕ) → column < matrix.now.width
        → IsColumnPath comparison arcs.now walks.now matrix.now column)) }
{
    let mut directions = vec![in alloc; 0i8; matrix.rows() as usize]?;
    for column in 0..matrix.columns() {
        tree.write_path(arcs, walks[column as usize], &mut directions);
        if !column_agrees(matrix, column, &directions, comparison) {
            return Ok(false);
        }
        directions.fill(0);
    }
    Ok(true)
}

fn column_agrees(matrix: &Matrix, column: u32, directions: &[i8], comparison: Comparison) -> bool
    requires column { column < matrix.now.width }
    requires rows { length directions.now ≡ height matrix.now }
    ensures { IsTrue result
        ↔ ((row : ℕ) → row < height matrix.now
        → Agrees comparison (entry matrix.now row column)
        (slice_index_or directions.now row (pos 0))) }
{
    for row in 0..matrix.rows() {
        if !comparison.agrees(matrix.entry(row, column), directions[row as usize]) {
            return false;
        }
    }
    true
}
