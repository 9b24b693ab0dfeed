//! Laws of decompositions. Each is a function that does nothing: its contract is the law.
ghost use Rattle.decomp_tree.specs.SeymourEnds.{OpenEndsRefute};
ghost use Rattle.decomp_tree.specs.Laws.{ShapesAreTrees, ShapesAreSound};
ghost use Rattle.decomp_tree.specs.PlainTrees.{OneShape};
ghost use Rattle.decomp_tree.specs.PivotedLaws.{PivotedShapesAreTrees, PivotedShapesAreSound, OnePivotedShape, MorePivotsKeepAnswers, NoPivotsChangeNothing, OpenLinesAreLeft, OpenLinesEnd};

/// A decomposition is a tree of depth at most 2,000 that keeps all rules of decomposition trees.
pub fn shapes_sound()
    ensures trees { ShapesAreTrees }
    ensures sound { ShapesAreSound }
{}

/// Two decompositions of a matrix with one budget differ at most in their networks.
pub fn one_shape()
    ensures { OneShape }
{}

/// A decomposition with pivots is a tree that keeps all rules, and a matrix has one, except for its networks. If no pivot may
/// be made, these are the decompositions without pivots. The lines that it leaves open are neither recognised nor separated,
/// and too many for the budget, as without pivots. More pivots lose no answer.
pub fn pivoted_shapes()
    ensures trees { PivotedShapesAreTrees }
    ensures sound { PivotedShapesAreSound }
    ensures one { OnePivotedShape }
    ensures none { NoPivotsChangeNothing }
    ensures open_lines { OpenLinesAreLeft }
    ensures ends { OpenLinesEnd }
    ensures more { MorePivotsKeepAnswers }
{}

/// If Seymour's theorem holds, lines that a decomposition leaves open contain a violator, or all pivots are made.
pub fn open_ends()
    ensures { OpenEndsRefute }
{}
