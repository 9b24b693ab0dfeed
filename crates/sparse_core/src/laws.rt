//! Laws about the definitions. Each law is a function that does nothing: its contract is the law.
ghost use Rattle.sparse_core.specs.CoreLaws.{CoresAreUnique, ThinRemovalsKeepViolators};

/// A matrix has a violator if and only if it has one after zero and unit lines are removed, one after another.
pub fn removal_free()
    ensures { ThinRemovalsKeepViolators }
{}

/// A matrix has one core: the order of the removals does not matter.
pub fn one_core()
    ensures { CoresAreUnique }
{}
