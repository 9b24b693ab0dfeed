//! Arguments of the command line, as `clap` and the tools read them.
ghost use Rattle.std.specs.Prelude.{◌≡◌, ◌≢◌};
ghost use Rattle.clap.specs.Words.{kind_of};
ghost use Rattle.clap.specs.declared.error.kind.ErrorKind.TheVariants.{OutOfMemory};
ghost use Rattle.cmr_front.specs.declared.words.WordsError.TheVariants.{Memory, Refused};

pub mod arguments;
pub mod parsing;

use clap::error::ErrorKind;
use std::alloc::AllocError;

/// The cause why there is no command.
#[derive(Clone, Copy, Debug, PartialEq, Eq)]
pub enum WordsError {
    /// The first argument names no tool, or the tool refuses the other arguments.
    Refused,
    /// An allocation failed.
    Memory,
}

impl From<AllocError> for WordsError {
    ghost from_gives = { λ _ e. e ≡ Memory };

    fn from(_: AllocError) -> Self {
        WordsError::Memory
    }
}

impl From<clap::Error> for WordsError {
    ghost from_gives = { λ error e. e ≡ Refused → kind_of error ≢ OutOfMemory };

    fn from(error: clap::Error) -> Self {
        match error.kind() {
            ErrorKind::OutOfMemory => WordsError::Memory,
            _ => WordsError::Refused,
        }
    }
}
