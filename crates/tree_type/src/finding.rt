// The finding of a node, without its lines and its children.
ghost use Rattle.std.specs.Prelude.{◌≡◌, ◌<◌, ◌++◌, ◌∷◌, [], length, map, IfOk};
ghost use Rattle.tree_type.specs.DecompositionTrees.{Branch, tree_of, trees_from};
ghost use Rattle.tree_type.specs.Invariant.{HasChildren};
ghost use Rattle.tree_type.specs.Findings.{finding_shown};

use crate::{Kind, Node, NodeList};
use cmr_base::{LineList, LineSet, Memory, Network, Position, Three, Two};
use std::alloc::Global;

/// The finding of a node about the submatrix on its lines.
#[derive(Debug, Drop)]
pub enum Finding {
    Empty,
    Cycle(LineSet),
    Reduced(LineList),
    OneSum,
    Network(Network),
    Conetwork(Network),
    R10,
    TwoSum(Two),
    ThreeSum(Three),
    Enumerated,
    Violator(LineSet),
    Undecided,
    Pivoted(Position),
}

/// The node with these lines, this finding and these children. The number of children is the number that the finding requires.
pub fn join_node(
    alloc: Global,
    lines: LineSet,
    finding: Finding,
    mut children: Vec<Node>,
) -> Result<Node, Memory>
    requires { HasChildren (finding_shown finding) (length children.items) }
    ensures { IfOk result (λ node. tree_of node
        ≡ Branch lines (finding_shown finding) (trees_from (map tree_of children.items))) }
{
    let kind = match finding {
        Finding::Empty => Kind::Empty,
        Finding::Cycle(fault) => Kind::Cycle { fault },
        Finding::Reduced(steps) => Kind::Reduced {
            steps,
            child: last_child(alloc, &mut children)?,
        },
        Finding::OneSum => Kind::OneSum {
            children: NodeList::from_vec(children),
        },
        Finding::Network(net) => Kind::Network { net },
        Finding::Conetwork(net) => Kind::Conetwork { net },
        Finding::R10 => Kind::R10,
        Finding::TwoSum(two) => {
            let two_child = last_child(alloc, &mut children)?;
            let one_child = last_child(alloc, &mut children)?;
            Kind::TwoSum {
                two,
                one_child,
                two_child,
            }
        }
        Finding::ThreeSum(three) => {
            let two_child = last_child(alloc, &mut children)?;
            let one_child = last_child(alloc, &mut children)?;
            Kind::ThreeSum {
                three,
                one_child,
                two_child,
            }
        }
        Finding::Enumerated => Kind::Enumerated,
        Finding::Violator(fault) => Kind::Violator { fault },
        Finding::Undecided => Kind::Undecided,
        Finding::Pivoted(place) => Kind::Pivoted {
            place,
            child: last_child(alloc, &mut children)?,
        },
    };
    Ok(Node { lines, kind })
}

// Removes the last node and returns it.
fn last_child(alloc: Global, children: &mut Vec<Node>) -> Result<Box<Node>, Memory>
    requires { 0 < length children.old.items }
    ensures { IfOk result (λ child. children.old.items ≡ children.new.items ++ child.value ∷ []) }
{
    let Some(child) = children.pop() else {
        unreachable!()
    };
    Ok(Box::new(alloc, child)?)
}
