//! Laws about the definitions. Each law is a function that does nothing: its contract is the law.
ghost use Rattle.cycle_faults.specs.CycleFaultLaws.{CycleFaultsAreMinimalViolators, CycleFaultsHaveDeterminantTwo};

/// A cycle fault is a violator that contains no other violator. It is square, and its determinant is 2 or -2.
pub fn cycle_faults()
    ensures minimal { CycleFaultsAreMinimalViolators }
    ensures two { CycleFaultsHaveDeterminantTwo }
{}
