//! Laws of the positions of pivots. Each is a function that does nothing: its contract is the law.
ghost use Rattle.path_places.specs.Laws.{CutPlacesAreOne, PathPlacesAreOne};

/// The position is a function of the matrix and of the side.
pub fn places_are_one()
    ensures path { PathPlacesAreOne }
    ensures cut { CutPlacesAreOne }
{}
