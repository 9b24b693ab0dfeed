ghost use Rattle.std.specs.Prelude.{◌≡◌};
ghost use Rattle.sum_ops.specs.declared.error.SumError.TheVariants.{Memory};

use thiserror::Error;

/// The reason why two matrices have no sum.
#[derive(Clone, Copy, Debug, PartialEq, Eq, Error)]
pub enum SumError {
    /// A matrix is too small, its connecting lines do not have the form of the sum, or the corners differ.
    #[error("no connecting lines of this sum")]
    BadConnector,
    /// The connecting lines are right, but an entry of the concentrated sum is not -1, 0 or 1.
    #[error("an entry of the sum is not -1, 0 or 1")]
    BadEntry,
    /// An allocation failed.
    #[error("out of memory")]
    Memory,
}

impl From<cmr_base::Memory> for SumError {
    ghost from_gives = { λ _ e. e ≡ Memory };

    fn from(_: cmr_base::Memory) -> Self {
        SumError::Memory
    }
}
