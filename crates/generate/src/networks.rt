// Random trees with random walks.
ghost use Rattle.std.specs.Prelude.{◌≡◌, ◌≤◌, ◌<◌, ◌+◌, ◌^◌, length, IfOk};
ghost use Rattle.generate.specs.Generated.{arcs_to, pairs_of, generated_network};

use cmr_base::{MAX_COLUMNS, MAX_ROWS, Memory, Network, Pair, PairList, draw};
use std::alloc::Global;

/// Makes a random recursive tree of `size` arcs, and `size` random walks.
pub fn generated_network(alloc: Global, size: u32, number: u32) -> Result<Network, Memory>
    requires size { size ≤ MAX_ROWS }
    requires number { number < 2 ^ 31 }
    ensures { IfOk result (λ network. network ≡ generated_network size number) }
{
    let tails = draw(alloc, size, 1, 1, number)?;
    let ends = draw(alloc, size + size, size + 1, 0, tails.state)?;
    Ok(Network {
        arcs: arcs_from(alloc, &tails.numbers)?,
        walks: pairs_of(alloc, &ends.numbers, size)?,
    })
}

// Makes an arc from each of these nodes to the next new node.
fn arcs_from(alloc: Global, tails: &[u32]) -> Result<PairList, Memory>
    requires { length tails.now ≤ MAX_ROWS }
    ensures { IfOk result (λ arcs. arcs ≡ arcs_to 1 tails.now) }
{
    let mut arcs = PairList::new(alloc);
    for place in 0..tails.len() {
        arcs.push(Pair {
            tail: tails[place],
            head: place as u32 + 1,
        })?;
    }
    Ok(arcs)
}

// Pairs consecutive nodes.
fn pairs_of(alloc: Global, nodes: &[u32], count: u32) -> Result<PairList, Memory>
    requires count { count ≤ MAX_COLUMNS }
    requires nodes { length nodes.now ≡ count + count }
    ensures { IfOk result (λ walks. walks ≡ pairs_of nodes.now) }
{
    let mut walks = PairList::new(alloc);
    for walk in 0..count as usize {
        walks.push(Pair {
            tail: nodes[walk + walk],
            head: nodes[walk + walk + 1],
        })?;
    }
    Ok(walks)
}
