//! Laws of decompositions whose open parts are tried. Each is a function that does nothing: its contract is the law.
ghost use Rattle.open_parts.specs.Laws.{FoundFaultsAreViolators, MorePivotsKeepTriedAnswers, NoPivotsTryNothing, OneTriedShape, OpenLinesAreTried, TriedShapesAreSound, TriedShapesAreTrees};

/// A decomposition with pivots whose open parts are tried is a tree that keeps all rules, and a matrix has one, except for its networks.
/// If no pivots are allowed, these are the decompositions without pivots. The lines that its verdict leaves open are neither recognised nor
/// separated, and no rest of them that was tried is a no. More pivots lose no answer.
pub fn tried_shapes()
    ensures trees { TriedShapesAreTrees }
    ensures sound { TriedShapesAreSound }
    ensures one { OneTriedShape }
    ensures none { NoPivotsTryNothing }
    ensures open_lines { OpenLinesAreTried }
    ensures more { MorePivotsKeepTriedAnswers }
{}

/// A fault that is found in the rests of some lines is a violator of the matrix on some of these lines.
pub fn found_faults()
    ensures { FoundFaultsAreViolators }
{}
