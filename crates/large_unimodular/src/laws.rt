//! Laws about the definitions. Each law is a function that does nothing: its contract is the law.
ghost use Rattle.large_unimodular.specs.LargeLaws.{OneKind, VerdictsMean};

/// A yes says that the matrix is totally unimodular, and the lines of a no are a violator.
pub fn verdict_means()
    ensures { VerdictsMean }
{}

/// A matrix has verdicts of one kind for a budget and a number of pivots: two of them name violators in the same part, or the same open
/// part.
pub fn one_kind()
    ensures { OneKind }
{}
