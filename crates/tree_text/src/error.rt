ghost use Rattle.std.specs.Prelude.{◌≡◌};
ghost use Rattle.tree_text.specs.Faults.{tree_kind};

use text_fields::{FieldError, LimitFault, NumberFault};

/// The faults of a word of a tree text.
#[derive(Clone, Copy, Debug, PartialEq, Eq)]
pub enum TreeKind {
    /// The word is not a number.
    NotNumber,
    /// The absolute value is above 2^31 - 1.
    TooBig,
    /// The word names no kind of node.
    UnknownKind,
    /// The text ends before this word.
    Short,
    /// The word is after the end of the tree.
    Extra,
    /// The number is not greater than the number before it.
    NotRising,
    /// The number is not a line of the matrix, or it is above its limit.
    OutOfRange,
    /// The number is a line of the matrix, but not a line of the parent or of the node.
    NotPart,
    /// The word begins a node that is too deep.
    TooDeep,
    /// The word does not begin a tree text, or begins a tree text of another version.
    WrongVersion,
}

/// The error of reading a tree text: its first fault with its position, or out of memory.
pub type TreeError = FieldError<TreeKind>;

impl From<LimitFault> for TreeKind {
    ghost from_gives = { λ fault kind. kind ≡ tree_kind fault };

    fn from(fault: LimitFault) -> Self {
        match fault {
            LimitFault::Number(NumberFault::NotNumber) => TreeKind::NotNumber,
            LimitFault::Number(NumberFault::TooBig) => TreeKind::TooBig,
            LimitFault::OutOfRange => TreeKind::OutOfRange,
            LimitFault::NotRising => TreeKind::NotRising,
        }
    }
}
