//! Laws about the definitions. Each law is a function that does nothing: its contract is the law.
ghost use Rattle.interval_matrices.specs.IntervalLaws.{IntervalMatricesAreUnimodular};

/// A matrix is totally unimodular if the nonzeros of each column, or of each row, are consecutive and equal (Schrijver, chapter 19). The
/// signs of the rows of a set alternate.
pub fn interval_is_unimodular()
    ensures { IntervalMatricesAreUnimodular }
{}
