// What a search finds at a node.
ghost use Rattle.std.specs.Prelude.{◌≡◌, ◌∷◌, [], IfOk};

use cmr_base::{LineSet, LineSetList, Memory};
use std::alloc::Global;
use tree_type::Finding;

/// The finding of a node, and the lines of its children.
#[derive(Drop)]
pub struct Seen {
    pub finding: Finding,
    pub children: LineSetList,
}

/// A node without children.
pub fn leaf(alloc: Global, finding: Finding) -> Seen
    ensures { result ≡ record { finding = finding; children = [] } }
{
    Seen {
        finding,
        children: LineSetList::new(alloc),
    }
}

/// A node with one child.
pub fn above_one(alloc: Global, finding: Finding, child: LineSet) -> Result<Seen, Memory>
    ensures { IfOk result (λ seen. seen ≡ record { finding = finding; children = child ∷ [] }) }
{
    let mut children = LineSetList::new(alloc);
    children.push(child)?;
    Ok(Seen { finding, children })
}

/// A node with two children.
pub fn above_two(
    alloc: Global,
    finding: Finding,
    one: LineSet,
    other: LineSet,
) -> Result<Seen, Memory>
    ensures { IfOk result (λ seen. seen ≡ record {
      finding = finding;
      children = one ∷ other ∷ [];
    }) }
{
    let mut children = LineSetList::new(alloc);
    children.push(one)?;
    children.push(other)?;
    Ok(Seen { finding, children })
}
