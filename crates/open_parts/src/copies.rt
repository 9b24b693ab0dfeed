// Copies of what nodes of a tree say.
ghost use Rattle.std.specs.Prelude.{◌≡◌, IfOk, length, map};
ghost use Rattle.tree_type.specs.DecompositionTrees.{Branch, finding_of, tree_of, trees_from};
ghost use Rattle.tree_type.specs.Findings.{finding_shown};
ghost use Rattle.tree_type.specs.Invariant.{HasChildren};

use cmr_base::{ItemList, LineSet, Memory, Network, Three, Two};
use std::alloc::Global;
use tree_type::{Finding, Kind, Node, copy_of, join_node};

/// The node with the lines and the finding of a node and with other children.
pub fn with_children(alloc: Global, node: &Node, children: Vec<Node>) -> Result<Node, Memory>
    requires { HasChildren (finding_of (tree_of node.now)) (length children.items) }
    ensures { IfOk result (λ made. tree_of made
        ≡ Branch node.now.lines (finding_of (tree_of node.now))
        (trees_from (map tree_of children.items))) }
{
    let lines = copy_of(alloc, &node.lines)?;
    let finding = finding_at(alloc, node)?;
    join_node(alloc, lines, finding, children)
}

// A copy of the finding of a node.
fn finding_at(alloc: Global, node: &Node) -> Result<Finding, Memory>
    ensures { IfOk result (λ finding. finding_shown finding ≡ finding_of (tree_of node.now)) }
{
    Ok(match &node.kind {
        Kind::Empty => Finding::Empty,
        Kind::Cycle { fault } => Finding::Cycle(copy_of(alloc, fault)?),
        Kind::Reduced { steps, .. } => Finding::Reduced(items_of(alloc, steps)?),
        Kind::OneSum { .. } => Finding::OneSum,
        Kind::Network { net } => Finding::Network(network_of(alloc, net)?),
        Kind::Conetwork { net } => Finding::Conetwork(network_of(alloc, net)?),
        Kind::R10 => Finding::R10,
        Kind::TwoSum { two, .. } => Finding::TwoSum(two_of(alloc, two)?),
        Kind::ThreeSum { three, .. } => Finding::ThreeSum(three_of(alloc, three)?),
        Kind::Enumerated => Finding::Enumerated,
        Kind::Violator { fault } => Finding::Violator(copy_of(alloc, fault)?),
        Kind::Undecided => Finding::Undecided,
        Kind::Pivoted { place, .. } => Finding::Pivoted(*place),
    })
}

fn network_of(alloc: Global, net: &Network) -> Result<Network, Memory>
    ensures { IfOk result (λ copy. copy ≡ net.now) }
{
    Ok(Network {
        arcs: items_of(alloc, &net.arcs)?,
        walks: items_of(alloc, &net.walks)?,
    })
}

fn two_of(alloc: Global, two: &Two) -> Result<Two, Memory>
    ensures { IfOk result (λ copy. copy ≡ two.now) }
{
    Ok(Two {
        side: copy_of(alloc, &two.side)?,
        row: two.row,
        column: two.column,
    })
}

fn three_of(alloc: Global, three: &Three) -> Result<Three, Memory>
    ensures { IfOk result (λ copy. copy ≡ three.now) }
{
    Ok(Three {
        form: three.form,
        side: copy_of(alloc, &three.side)?,
        first: three.first,
        second: three.second,
    })
}

fn items_of<T: Copy + Drop>(alloc: Global, items: &ItemList<T>) -> Result<ItemList<T>, Memory>
    ensures { IfOk result (λ copy. copy ≡ items.now) }
{
    let mut copy = ItemList::new(alloc);
    for item in items.as_slice() {
        copy.push(*item)?;
    }
    Ok(copy)
}
