//! Laws of tree texts. Each function does nothing: its contract is the law.
ghost use Rattle.tree_text.specs.Laws.{RewritingKeepsTrees, SoundTreesReadBack, VersionTwoReadsAll};

/// If a text of any version represents a tree, the canonical text of the tree represents the same tree.
pub fn rewriting_keeps_trees()
    ensures { RewritingKeepsTrees }
{}

/// A text of version 1 that represents a tree represents the same tree as a text of version 2.
pub fn version_two_reads_all()
    ensures { VersionTwoReadsAll }
{}

/// The canonical text of a sound tree represents it. A tree that is read from this text keeps all rules, breaks none, and has
/// the same verdict.
pub fn sound_trees_read_back()
    ensures { SoundTreesReadBack }
{}
