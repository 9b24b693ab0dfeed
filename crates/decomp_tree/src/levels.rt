// The levels of a tree.
ghost use Rattle.std.specs.Prelude.{◌≡◌};
ghost use Rattle.tree_type.specs.DecompositionTrees.{tree_of};
ghost use Rattle.decomp_tree.specs.Levels.{is_on_levels};

use tree_type::Node;

/// Decides whether a tree has at most this number of levels.
pub fn is_on_levels(node: &Node, levels: u32) -> bool
    ensures { result ≡ is_on_levels levels (tree_of node.now) }
{
    if levels == 0 {
        return false;
    }
    for index in 0..node.child_count() {
        if !is_on_levels(node.child(index), levels - 1) {
            return false;
        }
    }
    true
}
