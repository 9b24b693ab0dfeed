//! Trees with their nodes in an order that begins with node 0, in which each other node has an arc to an earlier one.

ghost use Rattle.std.specs.Prelude.{◌≡◌, ◌<◌, ◌≤◌, ◌↔◌, ◌^◌, ◌++◌, [], ◌∷◌, cond, suc, pos, negsuc, length, replicate, slice_index, slice_index_or, slice_set, IsTrue, IfOk, OnOk, MatchOption};
ghost use Rattle.cmr_base.specs.Trees.{IsDirectedPathOf, IsTree};
ghost use Rattle.cmr_base.specs.Incidences.{AreIncidences, end_at, opposite_of};
ghost use Rattle.cmr_base.specs.RootedTrees.{AreEndsInRange, AreReached, HasNode, IsLonger, IsRooted, IsSpanning, node_at};

use crate::incidences::{End, Incidences};
use crate::{Memory, Network, Pair};
use std::alloc::Global;

/// A node of a rooted tree, and its arc to the node at the earlier place `above`.
#[derive(Clone, Copy, Debug)]
pub struct Link {
    pub node: u32,
    pub above: u32,
    pub arc: u32,
}

/// The nodes of a tree in the order of a breadth-first search from node 0, and the place of each node in this order.
#[derive(Debug, Drop)]
pub struct RootedTree {
    pub links: Vec<Link>,
    pub places: Vec<u32>,
}

/// Whether the arcs are a tree on the nodes 0 to `rows`: there are `rows` arcs, their ends are among these nodes, and
/// all nodes are linked. The walks are ignored.
pub fn is_tree(alloc: Global, net: &Network, rows: u32) -> Result<bool, Memory>
    ensures { IfOk result (λ yes. IsTrue yes ↔ IsTree net.now.arcs rows) }
{
    Ok(rooted(alloc, net.arcs.as_slice(), rows)?.is_some())
}

/// The tree of these arcs on the nodes 0 to `rows`, or `None` if the arcs are no tree.
pub fn rooted(alloc: Global, arcs: &[Pair], rows: u32) -> Result<Option<RootedTree>, Memory>
    ensures { IfOk result (λ found. MatchOption found
        (¬ (IsTree arcs.now rows))
        (λ tree. IsTree arcs.now rows × IsSpanning arcs.now tree.links.items tree.places.items)) }
{
    if arcs.len() != rows as usize || !are_in_range(arcs, rows) {
        return Ok(None);
    }
    let nodes = rows as usize + 1;
    let leaving = Incidences::new(alloc, arcs, End::Tail, nodes)?;
    let entering = Incidences::new(alloc, arcs, End::Head, nodes)?;
    let mut tree = RootedTree::new(alloc, nodes)?;
    for place in 0..nodes {
        if place == tree.links.len() {
            return Ok(None);
        }
        tree.reach_neighbours(arcs, &leaving, End::Tail, place)?;
        tree.reach_neighbours(arcs, &entering, End::Head, place)?;
    }
    Ok(Some(tree))
}

/// Whether all ends are among the nodes 0 to `rows`.
pub fn are_in_range(pairs: &[Pair], rows: u32) -> bool
    ensures { IsTrue result ↔ AreEndsInRange pairs.now rows }
{
    pairs
        .iter()
        .all(|pair| pair.tail <= rows && pair.head <= rows)
}

impl RootedTree {
    // The root only, of a tree with `nodes` nodes.
    fn new(alloc: Global, nodes: usize) -> Result<RootedTree, Memory>
        ensures links { IfOk result (λ tree. tree.links.items
            ≡ record { node = 0; above = 0; arc = 0 } ∷ []) }
        ensures places { IfOk result (λ tree. tree.places.items ≡ replicate nodes 0) }
    {
        let root = Link {
            node: 0,
            above: 0,
            arc: 0,
        };
        let mut links = Vec::with_capacity(alloc, nodes)?;
        links.push(root)?;
        Ok(RootedTree {
            links,
            places: vec![in alloc; 0; nodes]?,
        })
    }

    // Adds the nodes that share an arc with the node at a place, if this node is the end `end` of the arc.
    fn reach_neighbours(
        &mut self,
        arcs: &[Pair],
        incidences: &Incidences,
        end: End,
        place: usize,
    ) -> Result<(), Memory>
        requires few { length arcs.now < 2 ^ 32 }
        requires range { AreEndsInRange arcs.now (length arcs.now) }
        requires incidences { AreIncidences arcs.now end (suc (length arcs.now))
            incidences.now.last.items incidences.now.previous.items }
        requires rooted { IsRooted arcs.now self.old.links.items self.old.places.items }
        requires place { place < length self.old.links.items }
        ensures rooted { OnOk result (IsRooted arcs.now self.new.links.items
            self.new.places.items) }
        ensures longer { OnOk result (IsLonger self.old.links.items self.new.links.items) }
        ensures reached { OnOk result (AreReached arcs.now self.new.links.items end
            (node_at self.old.links.items place)) }
    {
        let mut next = incidences.last[self.links[place].node as usize];
        while let Some(arc) = next {
            self.reach(arcs, arc, end.opposite(), place as u32)?;
            next = incidences.previous[arc as usize];
        }
        Ok(())
    }

    // Adds the node at an end of an arc, if it has no place yet. The other end is the node at the place `above`.
    fn reach(&mut self, arcs: &[Pair], arc: u32, end: End, above: u32) -> Result<(), Memory>
        requires few { length arcs.now < 2 ^ 32 }
        requires range { AreEndsInRange arcs.now (length arcs.now) }
        requires rooted { IsRooted arcs.now self.old.links.items self.old.places.items }
        requires arc { arc < length arcs.now }
        requires place { above < length self.old.links.items }
        requires above { end_at arcs.now (opposite_of end) arc
            ≡ node_at self.old.links.items above }
        ensures rooted { OnOk result (IsRooted arcs.now self.new.links.items
            self.new.places.items) }
        ensures longer { OnOk result (IsLonger self.old.links.items self.new.links.items) }
        ensures there { OnOk result (HasNode self.new.links.items (end_at arcs.now end arc)) }
    {
        let node = end.of(arcs[arc as usize]);
        if self.has(node) {
            return Ok(());
        }
        self.hang(Link { node, above, arc })
    }

    fn has(&self, node: u32) -> bool
        requires node { node < length self.now.places.items }
        requires place { slice_index self.now.places.items node < length self.now.links.items }
        ensures { IsTrue result
            ↔ (node_at self.now.links.items (slice_index self.now.places.items node) ≡ node) }
    {
        self.links[self.places[node as usize] as usize].node == node
    }

    fn hang(&mut self, link: Link) -> Result<(), Memory>
        requires node { link.node < length self.old.places.items }
        requires few { length self.old.links.items < 2 ^ 32 }
        ensures links { OnOk result (self.new.links.items ≡ self.old.links.items ++ link ∷ []) }
        ensures places { OnOk result (self.new.places.items
            ≡ slice_set self.old.places.items link.node (length self.old.links.items)) }
    {
        let place = self.links.len() as u32;
        self.links.push(link)?;
        self.places[link.node as usize] = place;
        Ok(())
    }

    /// Writes for each arc of the path between the ends of a walk how the path uses it: 1 forwards, -1 backwards. The
    /// other directions stay 0.
    pub fn write_path(&self, arcs: &[Pair], walk: Pair, directions: &mut [i8])
        requires tree { IsSpanning arcs.now self.now.links.items self.now.places.items }
        requires tail { walk.tail ≤ length arcs.now }
        requires head { walk.head ≤ length arcs.now }
        requires zeros { directions.old ≡ replicate (length arcs.now) (pos 0) }
        ensures length { length directions.new ≡ length arcs.now }
        ensures path { IsDirectedPathOf arcs.now (length arcs.now)
            (λ row. slice_index_or directions.new row (pos 0)) walk.tail walk.head }
    {
        let mut first = self.places[walk.tail as usize];
        let mut last = self.places[walk.head as usize];
        while first != last {
            if first > last {
                let link = self.links[first as usize];
                let forwards = link.node == arcs[link.arc as usize].tail;
                directions[link.arc as usize] = direction_of(forwards);
                first = link.above;
            } else {
                let link = self.links[last as usize];
                let forwards = link.node != arcs[link.arc as usize].tail;
                directions[link.arc as usize] = direction_of(forwards);
                last = link.above;
            }
        }
    }
}

fn direction_of(forwards: bool) -> i8
    ensures { result ≡ cond forwards (pos 1) (negsuc 0) }
{
    if forwards { 1 } else { -1 }
}
