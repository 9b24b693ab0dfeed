// The kinds of nodes and their words.
ghost use Rattle.std.specs.Prelude.{◌≡◌};
ghost use Rattle.tree_type.specs.DecompositionTrees.{tree_of, finding_of};
ghost use Rattle.tree_text.specs.KindWords.{word_of_kind, kind_among, has_word, kind_in, kind_of};

use crate::TreeKind;
use crate::header::Version;
use cmr_base::Form;
use tree_type::{Kind, Node};

/// The meaning of the first word of a node.
#[derive(Clone, Copy, Debug, PartialEq, Eq)]
pub enum KindWord {
    Empty,
    Cycle,
    Reduced,
    OneSum,
    Network,
    Conetwork,
    R10,
    TwoSum,
    ThreeSum(Form),
    Enumerated,
    Violator,
    Undecided,
    Pivoted,
}

/// All kinds.
const KIND_WORDS: [KindWord; 16] = [
    KindWord::Empty,
    KindWord::Cycle,
    KindWord::Reduced,
    KindWord::OneSum,
    KindWord::Network,
    KindWord::Conetwork,
    KindWord::R10,
    KindWord::TwoSum,
    KindWord::ThreeSum(Form::Delta),
    KindWord::ThreeSum(Form::YForm),
    KindWord::ThreeSum(Form::Mixed),
    KindWord::ThreeSum(Form::Concentrated),
    KindWord::Enumerated,
    KindWord::Violator,
    KindWord::Undecided,
    KindWord::Pivoted,
];

/// The word of a kind.
pub fn word_of(kind: KindWord) -> &'static [u8]
    ensures { result.now ≡ word_of_kind kind }
{
    match kind {
        KindWord::Empty => b"empty",
        KindWord::Cycle => b"cycle",
        KindWord::Reduced => b"reduced",
        KindWord::OneSum => b"onesum",
        KindWord::Network => b"network",
        KindWord::Conetwork => b"conetwork",
        KindWord::R10 => b"r10",
        KindWord::TwoSum => b"twosum",
        KindWord::ThreeSum(Form::Delta) => b"delta",
        KindWord::ThreeSum(Form::YForm) => b"y",
        KindWord::ThreeSum(Form::Mixed) => b"mixed",
        KindWord::ThreeSum(Form::Concentrated) => b"concentrated",
        KindWord::Enumerated => b"enumerated",
        KindWord::Violator => b"violator",
        KindWord::Undecided => b"undecided",
        KindWord::Pivoted => b"pivoted",
    }
}

/// The kind with this word in texts of this version.
pub fn kind_in(version: Version, word: &[u8]) -> Result<KindWord, TreeKind>
    ensures { result ≡ kind_in version word.now }
{
    let kind = kind_among(&KIND_WORDS, word)?;
    if has_word(version, kind) {
        Ok(kind)
    } else {
        Err(TreeKind::UnknownKind)
    }
}

// Version 1 has no word for concentrated three-sums. Only texts of pivots have a word for pivoted nodes.
fn has_word(version: Version, kind: KindWord) -> bool
    ensures { result ≡ has_word version kind }
{
    match (version, kind) {
        (Version::One, KindWord::ThreeSum(Form::Concentrated)) => false,
        (Version::One | Version::Two, KindWord::Pivoted) => false,
        _ => true,
    }
}

fn kind_among(kinds: &[KindWord], word: &[u8]) -> Result<KindWord, TreeKind>
    ensures { result ≡ kind_among kinds.now word.now }
{
    for kind in kinds {
        if word == word_of(*kind) {
            return Ok(*kind);
        }
    }
    Err(TreeKind::UnknownKind)
}

/// The kind of a node.
pub fn kind_of(node: &Node) -> KindWord
    ensures { result ≡ kind_of (finding_of (tree_of node.now)) }
{
    match &node.kind {
        Kind::Empty => KindWord::Empty,
        Kind::Cycle { .. } => KindWord::Cycle,
        Kind::Reduced { .. } => KindWord::Reduced,
        Kind::OneSum { .. } => KindWord::OneSum,
        Kind::Network { .. } => KindWord::Network,
        Kind::Conetwork { .. } => KindWord::Conetwork,
        Kind::R10 => KindWord::R10,
        Kind::TwoSum { .. } => KindWord::TwoSum,
        Kind::ThreeSum { three, .. } => KindWord::ThreeSum(three.form),
        Kind::Enumerated => KindWord::Enumerated,
        Kind::Violator { .. } => KindWord::Violator,
        Kind::Undecided => KindWord::Undecided,
        Kind::Pivoted { .. } => KindWord::Pivoted,
    }
}
