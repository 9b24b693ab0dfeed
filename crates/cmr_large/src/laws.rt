//! Laws about the definitions only. Each is a function that does nothing: its contract is the law.
ghost use Rattle.cmr_large.specs.LargeReportLaws.{LargeReportsAreOne, UndecidedPartsAreBeyond};

/// Two reports on the same text are equal, except for the violators of two noes.
pub fn one_report()
    ensures { LargeReportsAreOne }
{}

/// A part that stays open has a row and a column of three nonzeros. It has more than 1,000 rows or columns, or its decomposition stays
/// undecided with the budget and the pivots.
pub fn undecided_part()
    ensures { UndecidedPartsAreBeyond }
{}
