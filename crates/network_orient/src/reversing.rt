// Networks with arcs and walks reversed.
ghost use Rattle.std.specs.Prelude.{◌≡◌, length, IfOk};
ghost use Rattle.cmr_base.specs.ReversedNetworks.{reversed_network, reversed_pair, reversed_pairs};

use crate::line_signs::LineSigns;
use cmr_base::{Memory, Network, Pair, PairList};
use std::alloc::Global;

/// The network with the arcs of the rows of sign -1 reversed, and with its walks reversed by the signs of columns.
pub fn reversed_network(alloc: Global, net: &Network, signs: &LineSigns) -> Result<Network, Memory>
    requires arcs { length net.now.arcs ≡ length signs.now.rows.items }
    requires walks { length net.now.walks ≡ length signs.now.columns.items }
    ensures { IfOk result (λ reversed. reversed ≡ reversed_network net.now signs.now.rows.items
        signs.now.columns.items) }
{
    Ok(Network {
        arcs: reversed_pairs(alloc, net.arcs.as_slice(), &signs.rows)?,
        walks: reversed_pairs(alloc, net.walks.as_slice(), &signs.columns)?,
    })
}

fn reversed_pairs(alloc: Global, pairs: &[Pair], signs: &[i8]) -> Result<PairList, Memory>
    requires each { length pairs.now ≡ length signs.now }
    ensures { IfOk result (λ reversed. reversed ≡ reversed_pairs pairs.now signs.now) }
{
    let mut reversed = PairList::new(alloc);
    for index in 0..pairs.len() {
        reversed.push(reversed_pair(pairs[index], signs[index]))?;
    }
    Ok(reversed)
}

fn reversed_pair(pair: Pair, sign: i8) -> Pair
    ensures { result ≡ reversed_pair pair sign }
{
    if sign < 0 {
        Pair {
            tail: pair.head,
            head: pair.tail,
        }
    } else {
        pair
    }
}
