ghost use Rattle.std.specs.Prelude.{◌≡◌};
ghost use Rattle.text_fields.specs.declared.error.FieldError.TheVariants.{Memory};

use std::alloc::{AllocError, AllocFailed};
use thiserror::Error;

/// Why a word is no number.
#[derive(Clone, Copy, Debug, PartialEq, Eq)]
pub enum NumberFault {
    /// The word does not have the form of a number.
    NotNumber,
    /// The absolute value is above 2^31 - 1.
    TooBig,
}

/// Why a word is no number within its limits.
#[derive(Clone, Copy, Debug, PartialEq, Eq)]
pub enum LimitFault {
    /// The word is no number.
    Number(NumberFault),
    /// The number is above the largest allowed number, or it is 0 as the number of a line.
    OutOfRange,
    /// The number is not above the previous number.
    NotRising,
}

/// Why a text was not read. `K` is the type of the kinds of fault of a form of text.
#[derive(Clone, Copy, Debug, PartialEq, Eq, Error)]
pub enum FieldError<K> {
    /// The text's first fault. The place is the byte offset of the faulty word, or the length of the text if a word is
    /// missing.
    #[error("fault at byte {place}")]
    Fault { kind: K, place: usize },
    /// An allocation failed.
    #[error("out of memory")]
    Memory,
}

impl<K> From<AllocError> for FieldError<K> {
    ghost from_gives = { λ _ e. e ≡ Memory };

    fn from(_: AllocError) -> Self {
        FieldError::Memory
    }
}

impl<K, T: Drop> From<AllocFailed<T>> for FieldError<K> {
    ghost from_gives = { λ _ e. e ≡ Memory };

    fn from(_: AllocFailed<T>) -> Self {
        FieldError::Memory
    }
}

impl<K> From<cmr_base::Memory> for FieldError<K> {
    ghost from_gives = { λ _ e. e ≡ Memory };

    fn from(_: cmr_base::Memory) -> Self {
        FieldError::Memory
    }
}
