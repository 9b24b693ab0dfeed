ghost use Rattle.std.specs.Prelude.{◌≡◌};
ghost use Rattle.chains.specs.ChainKinds.{chain_kind};

use text_fields::{FieldError, LimitFault, NumberFault};

/// The faults of a word of a chain text.
#[derive(Clone, Copy, Debug, PartialEq, Eq)]
pub enum ChainKind {
    /// The word is not a number.
    NotNumber,
    /// The absolute value is above 2^31 - 1.
    TooBig,
    /// The word is not the name of a step, or it is the name of a step in the position of the violator.
    UnknownStep,
    /// The text ends before this word.
    Short,
    /// The word is after the end of the chain.
    Extra,
    /// The number is not greater than the number before it.
    NotRising,
    /// The number is not a size, a count or a line that the text can have.
    OutOfRange,
    /// The word is not the text's first word or its version.
    WrongVersion,
}

/// The error of reading a chain text: its first fault with its position, or out of memory.
pub type ChainError = FieldError<ChainKind>;

impl From<LimitFault> for ChainKind {
    ghost from_gives = { λ fault kind. kind ≡ chain_kind fault };

    fn from(fault: LimitFault) -> Self {
        match fault {
            LimitFault::Number(NumberFault::NotNumber) => ChainKind::NotNumber,
            LimitFault::Number(NumberFault::TooBig) => ChainKind::TooBig,
            LimitFault::OutOfRange => ChainKind::OutOfRange,
            LimitFault::NotRising => ChainKind::NotRising,
        }
    }
}
