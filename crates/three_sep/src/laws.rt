//! A law over the definitions alone. The function does nothing: its contract is the law.
ghost use Rattle.three_sep.specs.FirstCuts.{FirstCutsAgree};

/// Proves that a matrix has one first cut.
pub fn one_first_cut()
    ensures { FirstCutsAgree }
{}
