//! Laws about the definitions, for all matrices with entries -1, 0 and 1. Each law is a function that does nothing:
//! its contract is the law.
ghost use Rattle.r10_leaf.specs.Laws.{FaultFreeR10HasNoViolator};

/// An R10 matrix without cycle fault has no violator, so it is totally unimodular. One signing of each of the two
/// supports has no violator, and the signs of a matrix without violators are unique.
pub fn r10_free()
    ensures { FaultFreeR10HasNoViolator }
{}
