ghost use Rattle.std.specs.Prelude.{◌≡◌, ◌<◌, ◌≤◌, ◌^◌, ℕ, IfOk, length};
ghost use Rattle.cmr_base.specs.Incidences.{AreIncidences, end_at, end_of, opposite_of};

use crate::{Memory, Pair};
use std::alloc::Global;

/// An end of an arc.
#[derive(Clone, Copy, Debug)]
pub enum End {
    Tail,
    Head,
}

impl End {
    /// The node at which an arc has this end.
    pub fn of(self, arc: Pair) -> u32
        ensures { result ≡ end_of self arc }
    {
        match self {
            End::Tail => arc.tail,
            End::Head => arc.head,
        }
    }

    /// The other end.
    pub fn opposite(self) -> End
        ensures { result ≡ opposite_of self }
    {
        match self {
            End::Tail => End::Head,
            End::Head => End::Tail,
        }
    }
}

/// For each node the last arc that has one end there. For each arc the previous arc that has this end at the same node.
#[derive(Debug, Drop)]
pub struct Incidences {
    pub last: Vec<Option<u32>>,
    pub previous: Vec<Option<u32>>,
}

impl Incidences {
    /// The arcs at each of `nodes` nodes, by the end `end`.
    pub fn new(alloc: Global, arcs: &[Pair], end: End, nodes: usize) -> Result<Incidences, Memory>
        requires few { length arcs.now ≤ 2 ^ 32 }
        requires nodes { (arc : ℕ) → arc < length arcs.now → end_at arcs.now end arc < nodes }
        ensures { IfOk result (λ made.
            AreIncidences arcs.now end nodes made.last.items made.previous.items) }
    {
        let mut last = vec![in alloc; None; nodes]?;
        let mut previous = Vec::with_capacity(alloc, arcs.len())?;
        for number in 0..arcs.len() {
            let node = end.of(arcs[number]) as usize;
            previous.push(last[node])?;
            last[node] = Some(number as u32);
        }
        Ok(Incidences { last, previous })
    }
}
