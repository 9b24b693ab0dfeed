// Steps that sign the ones of a matrix, and chains.
ghost use Rattle.std.specs.Prelude.{◌≡◌};
ghost use Rattle.chains.specs.SignSteps.{step_row, step_column};

use cmr_base::{ItemList, LineSet};

/// One sign. It is free, or the cycle of a place forces it.
#[derive(Debug, Drop)]
pub enum SignStep {
    Free {
        row: u32,
        column: u32,
    },
    Forced {
        row: u32,
        column: u32,
        cycle: LineSet,
    },
}

impl SignStep {
    /// The row and the column of the one that the step signs.
    pub fn place(&self) -> (u32, u32)
        ensures row { result.0 ≡ step_row self.now }
        ensures column { result.1 ≡ step_column self.now }
    {
        match self {
            SignStep::Free { row, column } => (*row, *column),
            SignStep::Forced { row, column, .. } => (*row, *column),
        }
    }
}

/// Steps, in their order.
pub type SignStepList = ItemList<SignStep>;

/// Steps that leave no choice except the signs of whole lines, and a violator of the signs that they give.
#[derive(Debug, Drop)]
pub struct Chain {
    pub steps: SignStepList,
    pub violator: LineSet,
}

/// A chain with the sizes of its matrix.
#[derive(Debug, Drop)]
pub struct SizedChain {
    pub chain: Chain,
    pub rows: u32,
    pub columns: u32,
}
