// The header of a tree text: its title, its version and the sizes of its matrix.
ghost use Rattle.std.specs.Prelude.{◌≡◌};
ghost use Rattle.tree_type.specs.DecompositionTrees.{tree_of};
ghost use Rattle.tree_text.specs.Versions.{title_word, title_in, title_of, version_word, version_in};
ghost use Rattle.tree_text.specs.CanonicalTrees.{has_pivot, version_of};

use crate::TreeKind;
use crate::value::Sizes;
use tree_type::{Kind, Node};

/// The first word of a tree text.
#[derive(Clone, Copy, Debug, PartialEq, Eq)]
pub enum Title {
    /// A decomposition tree of one matrix.
    Tree,
    /// A decomposition tree with pivots.
    Pivots,
}

/// A version of tree texts.
#[derive(Clone, Copy, Debug, PartialEq, Eq)]
pub enum Version {
    /// Has no word for concentrated three-sums.
    One,
    /// Has a word for each kind of node except pivoted nodes. Trees without pivoted nodes are written in this version.
    Two,
    /// Has a word for each kind of node. Trees with pivoted nodes are written in this version.
    Pivoted,
}

/// The version of a text, and the sizes of the matrix of its tree.
#[derive(Clone, Copy, Debug, PartialEq, Eq)]
pub struct Header {
    pub version: Version,
    pub sizes: Sizes,
}

/// The word of a title.
pub fn title_word(title: Title) -> &'static [u8]
    ensures { result.now ≡ title_word title }
{
    match title {
        Title::Tree => b"cmr-tree",
        Title::Pivots => b"cmr-pivots",
    }
}

/// The title with this word.
pub fn title_in(word: &[u8]) -> Result<Title, TreeKind>
    ensures { result ≡ title_in word.now }
{
    if word == title_word(Title::Tree) {
        Ok(Title::Tree)
    } else if word == title_word(Title::Pivots) {
        Ok(Title::Pivots)
    } else {
        Err(TreeKind::WrongVersion)
    }
}

/// The title of the texts of a version.
pub fn title_of(version: Version) -> Title
    ensures { result ≡ title_of version }
{
    match version {
        Version::One | Version::Two => Title::Tree,
        Version::Pivoted => Title::Pivots,
    }
}

/// The word of a version.
pub fn version_word(version: Version) -> &'static [u8]
    ensures { result.now ≡ version_word version }
{
    match version {
        Version::One | Version::Pivoted => b"1",
        Version::Two => b"2",
    }
}

/// The version with this word after a title.
pub fn version_in(title: Title, word: &[u8]) -> Result<Version, TreeKind>
    ensures { result ≡ version_in title word.now }
{
    match title {
        Title::Tree if word == version_word(Version::One) => Ok(Version::One),
        Title::Tree if word == version_word(Version::Two) => Ok(Version::Two),
        Title::Pivots if word == version_word(Version::Pivoted) => Ok(Version::Pivoted),
        _ => Err(TreeKind::WrongVersion),
    }
}

/// The version in which a tree is written.
pub fn version_of(root: &Node) -> Version
    ensures { result ≡ version_of (tree_of root.now) }
{
    if has_pivot(root) {
        Version::Pivoted
    } else {
        Version::Two
    }
}

// Whether some node of the tree is pivoted.
fn has_pivot(node: &Node) -> bool
    ensures { result ≡ has_pivot (tree_of node.now) }
{
    if let Kind::Pivoted { .. } = &node.kind {
        return true;
    }
    for index in 0..node.child_count() {
        if has_pivot(node.child(index)) {
            return true;
        }
    }
    false
}
