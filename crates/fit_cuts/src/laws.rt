//! Laws over definitions only. Each is a function that does nothing: its contract is the law.
ghost use Rattle.fit_cuts.specs.FitForms.{CutsHaveForms, FitCutsSeparate};
ghost use Rattle.fit_cuts.specs.PivotedSides.{PivotsKeepFitSides};
ghost use Rattle.fit_cuts.specs.ShorterPaths.{PathsBoundPivots, PivotsShortenPaths};
ghost use Rattle.fit_cuts.specs.UnfitPaths.{CutsHavePlaces, UnfitSidesHavePaths};

/// A cut has one of the forms delta, Y and mixed, perhaps with its sides exchanged, if and only if both sides are fit. So a matrix that has
/// no three-separation has no cut with two fit sides.
pub fn fit_cuts_have_forms()
    ensures forms { CutsHaveForms }
    ensures separate { FitCutsSeparate }
{}

/// A pivot inside one side of a cut keeps the cut, and keeps the other side fit or not fit.
pub fn pivots_keep_fit_sides()
    ensures { PivotsKeepFitSides }
{}

/// If a matrix has no two-separation, then a side of a cut that is not fit has a path.
pub fn unfit_sides_have_paths()
    ensures { UnfitSidesHavePaths }
{}

/// If a matrix has no two-separation, then each of its cuts has a position unless both sides are fit.
pub fn cuts_have_places()
    ensures { CutsHavePlaces }
{}

/// A pivot at the first edge of a shortest path of a side makes the shortest paths shorter by two edges. After a path of three edges the
/// side is fit. So the side becomes fit by at most as many pivots as a path has inner rows.
pub fn pivots_shorten_paths()
    ensures shorter { PivotsShortenPaths }
    ensures within { PathsBoundPivots }
{}
