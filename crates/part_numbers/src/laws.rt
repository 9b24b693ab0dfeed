//! Laws about the definitions. Each law is a function that does nothing: its contract is the law.
ghost use Rattle.part_numbers.specs.NumberLaws.{ConnectedPartsAreComponents, ConnectedPartsAreOne, NumberedLinesAreParts, NumberedPartsDecide};

/// Lines of equal numbers are parts: they cover the lines that remain, and the lines of two of them cross in zeros. A matrix has a
/// violator if and only if one of these parts has one.
pub fn numbered_parts()
    ensures parts { NumberedLinesAreParts }
    ensures decide { NumberedPartsDecide }
{}

/// A row of a core is in at most one connected part. A connected part of all lines of a matrix is a component.
pub fn connected_parts()
    ensures one { ConnectedPartsAreOne }
    ensures components { ConnectedPartsAreComponents }
{}
