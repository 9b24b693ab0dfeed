// The number of nodes of a tree.
ghost use Rattle.std.specs.Prelude.{◌≡◌, ◌<◌, ◌^◌};
ghost use Rattle.tree_type.specs.DecompositionTrees.{tree_of};
ghost use Rattle.tree_type.specs.NodeCounts.{node_count};

use crate::{DecTree, Node};

/// The number of nodes of a tree.
pub fn count_nodes(tree: &DecTree) -> u64
    requires { node_count (tree_of tree.now.root) < 2 ^ 64 }
    ensures { result ≡ node_count (tree_of tree.now.root) }
{
    count_from(tree.root())
}

// The number of nodes of a subtree.
fn count_from(node: &Node) -> u64
    requires { node_count (tree_of node.now) < 2 ^ 64 }
    ensures { result ≡ node_count (tree_of node.now) }
{
    let mut count = 1;
    for index in 0..node.child_count() {
        count += count_from(node.child(index));
    }
    count
}
