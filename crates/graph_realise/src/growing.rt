// Trees grown arc by arc from the sides of the arcs.
ghost use Rattle.std.specs.Prelude.{◌≡◌, ◌<◌, ◌≤◌, true, IfOk, length};
ghost use Rattle.cmr_base.specs.Cuts.{IsCuts};
ghost use Rattle.cmr_base.specs.GrownTrees.{arcs_by, grown, node_of, pair_of, reversed_unless, walks_by};
ghost use Rattle.cmr_base.specs.LineSets.{AllBelow};
ghost use Rattle.cmr_base.specs.Matrix.{height, IsMatrix};
ghost use Rattle.cmr_base.specs.Trees.{RealisesSupport, support};
ghost use Rattle.graph_realise.specs.Growing.{AreNear, IsPlaceInOrder, IsSpotIn, is_beyond, is_past};
ghost use Rattle.graph_realise.specs.Orders.{IsGrowingOrder};
ghost use Rattle.graph_realise.specs.SideTables.{AreTablesOf, side_in, end_in};

use crate::arc_sides::ArcSides;
use cmr_base::{MAX_ROWS, Matrix, Memory, Network, Pair, PairList};
use std::alloc::Global;

/// A spot in a tree: an arc, or the first or the last end of a column.
#[derive(Debug, Clone, Copy)]
pub enum Spot {
    Arc(u32),
    First(u32),
    Last(u32),
}

/// The tree with these sides, and the paths of the columns in it. The first end of column 0 is node 0, and the k-th arc that is
/// grown leads to node k.
pub fn grow_network(alloc: Global, matrix: &Matrix, sides: &ArcSides) -> Result<Network, Memory>
    requires tables { AreTablesOf matrix.now sides.now }
    requires cuts { IsCuts (support matrix.now) (λ r. r < height matrix.now) (side_in sides.now)
        (end_in sides.now) }
    ensures { IfOk result (λ net.
        RealisesSupport net (support matrix.now) (height matrix.now) matrix.now.width) }
{
    let near = near_sides(alloc, matrix, sides)?;
    let order = growing_order(alloc, matrix, sides, &near)?;
    Ok(Network {
        arcs: grown_arcs(alloc, matrix, sides, &near, &order)?,
        walks: grown_walks(alloc, matrix, sides, &near, &order)?,
    })
}

// For each arc the side that contains the first end of column 0.
fn near_sides(alloc: Global, matrix: &Matrix, sides: &ArcSides) -> Result<Vec<bool>, Memory>
    requires { AreTablesOf matrix.now sides.now }
    ensures shape { IsMatrix matrix.now }
    ensures near { IfOk result (λ near. AreNear sides.now (height matrix.now) near.items) }
{
    let mut near = Vec::new(alloc);
    for row in 0..matrix.rows() {
        near.push(near_side(matrix, sides, row))?;
    }
    Ok(near)
}

fn near_side(matrix: &Matrix, sides: &ArcSides, row: u32) -> bool
    requires tables { AreTablesOf matrix.now sides.now }
    requires row { row < height matrix.now }
    ensures { result ≡ end_in sides.now true row 0 }
{
    if matrix.columns() == 0 {
        false
    } else {
        sides.first.get(row, 0)
    }
}

// Whether a spot lies beyond an arc.
fn is_past(matrix: &Matrix, sides: &ArcSides, near: &[bool], spot: Spot, row: u32) -> bool
    requires tables { AreTablesOf matrix.now sides.now }
    requires near { AreNear sides.now (height matrix.now) near.now }
    requires spot { IsSpotIn (height matrix.now) matrix.now.width spot }
    requires row { row < height matrix.now }
    ensures { result ≡ is_past sides.now spot row }
{
    let side = match spot {
        Spot::Arc(arc) => sides.arcs.get(row, arc),
        Spot::First(column) => sides.first.get(row, column),
        Spot::Last(column) => sides.last.get(row, column),
    };
    side != near[row as usize]
}

// The arcs in an order in which no arc lies beyond an earlier one. The tree grows from the end of the order to its beginning.
fn growing_order(
    alloc: Global,
    matrix: &Matrix,
    sides: &ArcSides,
    near: &[bool],
) -> Result<Vec<u32>, Memory>
    requires tables { AreTablesOf matrix.now sides.now }
    requires near { AreNear sides.now (height matrix.now) near.now }
    requires cuts { IsCuts (support matrix.now) (λ r. r < height matrix.now) (side_in sides.now)
        (end_in sides.now) }
    ensures { IfOk result (λ order. IsGrowingOrder (is_beyond sides.now) (height matrix.now)
        order.items) }
{
    let mut order = Vec::new(alloc);
    for arc in 0..matrix.rows() {
        let place = place_in(matrix, sides, near, &order, arc);
        order.insert(place, arc)?;
    }
    Ok(order)
}

// The position after the last arc that lies beyond this arc.
fn place_in(matrix: &Matrix, sides: &ArcSides, near: &[bool], order: &[u32], arc: u32) -> usize
    requires tables { AreTablesOf matrix.now sides.now }
    requires near { AreNear sides.now (height matrix.now) near.now }
    requires order { AllBelow (height matrix.now) order.now }
    requires arc { arc < height matrix.now }
    ensures { IsPlaceInOrder sides.now order.now arc result }
{
    let mut place = order.len();
    'places: while place > 0 {
        if is_past(matrix, sides, near, Spot::Arc(order[place - 1]), arc) {
            return place;
        }
        place -= 1;
    }
    0
}

// The node of a spot in the tree of the arcs in `order`.
fn node_of(matrix: &Matrix, sides: &ArcSides, near: &[bool], order: &[u32], spot: Spot) -> u32
    requires tables { AreTablesOf matrix.now sides.now }
    requires near { AreNear sides.now (height matrix.now) near.now }
    requires order { AllBelow (height matrix.now) order.now }
    requires few { length order.now ≤ MAX_ROWS }
    requires spot { IsSpotIn (height matrix.now) matrix.now.width spot }
    ensures { result ≡ node_of (grown (is_beyond sides.now) order.now) (is_past sides.now spot) }
{
    for (place, row) in order.iter().enumerate() {
        if is_past(matrix, sides, near, spot, *row) {
            return (order.len() - place) as u32;
        }
    }
    0
}

fn grown_arcs(
    alloc: Global,
    matrix: &Matrix,
    sides: &ArcSides,
    near: &[bool],
    order: &[u32],
) -> Result<PairList, Memory>
    requires tables { AreTablesOf matrix.now sides.now }
    requires near { AreNear sides.now (height matrix.now) near.now }
    requires order { AllBelow (height matrix.now) order.now }
    requires few { length order.now ≤ MAX_ROWS }
    ensures { IfOk result (λ arcs. arcs ≡ arcs_by (side_in sides.now) (end_in sides.now) order.now
        (height matrix.now)) }
{
    let mut arcs = PairList::new(alloc);
    for row in 0..matrix.rows() {
        arcs.push(arc_of(matrix, sides, near, order, row))?;
    }
    Ok(arcs)
}

// The arc of a row, from its side `true` to its side `false`.
fn arc_of(matrix: &Matrix, sides: &ArcSides, near: &[bool], order: &[u32], row: u32) -> Pair
    requires tables { AreTablesOf matrix.now sides.now }
    requires near { AreNear sides.now (height matrix.now) near.now }
    requires order { AllBelow (height matrix.now) order.now }
    requires few { length order.now ≤ MAX_ROWS }
    requires row { row < height matrix.now }
    ensures { result ≡ reversed_unless (end_in sides.now true row 0)
        (pair_of (grown (is_beyond sides.now) order.now) row) }
{
    let pair = pair_of(matrix, sides, near, order, row);
    if near[row as usize] {
        pair
    } else {
        Pair {
            tail: pair.head,
            head: pair.tail,
        }
    }
}

// The node at which the arc of a row hangs, and the node to which it leads.
fn pair_of(matrix: &Matrix, sides: &ArcSides, near: &[bool], order: &[u32], row: u32) -> Pair
    requires tables { AreTablesOf matrix.now sides.now }
    requires near { AreNear sides.now (height matrix.now) near.now }
    requires order { AllBelow (height matrix.now) order.now }
    requires few { length order.now ≤ MAX_ROWS }
    requires row { row < height matrix.now }
    ensures { result ≡ pair_of (grown (is_beyond sides.now) order.now) row }
{
    for (place, arc) in order.iter().enumerate() {
        if *arc == row {
            return Pair {
                tail: node_of(matrix, sides, near, &order[place + 1..], Spot::Arc(row)),
                head: (order.len() - place) as u32,
            };
        }
    }
    Pair { tail: 0, head: 0 }
}

fn grown_walks(
    alloc: Global,
    matrix: &Matrix,
    sides: &ArcSides,
    near: &[bool],
    order: &[u32],
) -> Result<PairList, Memory>
    requires tables { AreTablesOf matrix.now sides.now }
    requires near { AreNear sides.now (height matrix.now) near.now }
    requires order { AllBelow (height matrix.now) order.now }
    requires few { length order.now ≤ MAX_ROWS }
    ensures { IfOk result (λ walks. walks ≡ walks_by (side_in sides.now) (end_in sides.now)
        order.now matrix.now.width) }
{
    let mut walks = PairList::new(alloc);
    for column in 0..matrix.columns() {
        walks.push(Pair {
            tail: node_of(matrix, sides, near, order, Spot::First(column)),
            head: node_of(matrix, sides, near, order, Spot::Last(column)),
        })?;
    }
    Ok(walks)
}
