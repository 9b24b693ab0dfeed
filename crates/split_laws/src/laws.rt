//! Laws about the definitions. Each law is a function that does nothing: its contract is the law.
ghost use Rattle.split_laws.specs.SplitLaws.{SplitsAreUnimodular, ColumnSplitsAreUnimodular, UncancelledCyclesAreViolators};

/// If signs of the rows cancel the nonzeros of each column, then these signs are a signing of every set of rows, and the matrix is
/// totally unimodular (Heller and Tompkins 1956). The same holds for signs of the columns.
pub fn split_free()
    ensures rows { SplitsAreUnimodular }
    ensures columns { ColumnSplitsAreUnimodular }
{}

/// Lines are a violator if each row has an even sum and, for some signs of the rows, the signed sums of the columns are even and
/// their sum is 2 modulo 4: a cycle whose columns cancel except for one.
pub fn cycles_violate()
    ensures { UncancelledCyclesAreViolators }
{}
