//! Laws about the definitions. Each law is a function that does nothing: its contract is the law.
ghost use Rattle.core_parts.specs.CorePartLaws.{CorePartsDecide, OneListOfParts};

/// A matrix has one list of connected parts of its core. It has a violator if and only if one of them has one.
pub fn core_parts()
    ensures one { OneListOfParts }
    ensures decide { CorePartsDecide }
{}
