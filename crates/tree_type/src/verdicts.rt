// The verdict of a tree on the matrix.
ghost use Rattle.std.specs.Prelude.{◌≡◌, option_copied};
ghost use Rattle.tree_type.specs.DecompositionTrees.{tree_of};
ghost use Rattle.tree_type.specs.Verdicts.{first_in, fault_at, open_at, verdict_of, verdict_shown};

use crate::{DecTree, Kind, Node};
use cmr_base::LineSet;

/// The verdict of a tree on the matrix: totally unimodular; not totally unimodular, with this violator; or undecided, since
/// nothing is known of the submatrix on these lines.
#[derive(Drop)]
pub enum VerdictOf<'a> {
    Yes,
    No(&'a LineSet),
    Undecided(&'a LineSet),
}

/// The verdict of a tree: no, with the fault of the first node in preorder that names one; if there is none, undecided, with
/// the lines of the first undecided node; otherwise yes.
pub fn verdict(tree: &DecTree) -> VerdictOf<'_>
    ensures { verdict_shown result ≡ verdict_of (tree_of tree.now.root) }
{
    verdict_at(tree.root())
}

/// The same for a tree that is given by its root.
pub fn verdict_at(root: &Node) -> VerdictOf<'_>
    ensures { verdict_shown result ≡ verdict_of (tree_of root.now) }
{
    match first_fault(root) {
        Some(fault) => VerdictOf::No(fault),
        None => match first_undecided(root) {
            Some(lines) => VerdictOf::Undecided(lines),
            None => VerdictOf::Yes,
        },
    }
}

pub(crate) fn first_fault(node: &Node) -> Option<&LineSet>
    ensures { option_copied result ≡ first_in fault_at (tree_of node.now) }
{
    if let Kind::Cycle { fault } | Kind::Violator { fault } = &node.kind {
        return Some(fault);
    }
    for index in 0..node.child_count() {
        if let Some(fault) = first_fault(node.child(index)) {
            return Some(fault);
        }
    }
    None
}

pub(crate) fn first_undecided(node: &Node) -> Option<&LineSet>
    ensures { option_copied result ≡ first_in open_at (tree_of node.now) }
{
    if let Kind::Undecided = &node.kind {
        return Some(&node.lines);
    }
    for index in 0..node.child_count() {
        if let Some(lines) = first_undecided(node.child(index)) {
            return Some(lines);
        }
    }
    None
}
