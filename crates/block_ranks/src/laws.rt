//! A law over definitions only. The function does nothing: its contract is the law.
ghost use Rattle.block_ranks.specs.Laws.{NoPlaceMeansNoSeparation};

/// A connected matrix without a nonzero whose pivot has a 2, a -2 or a cut has no three-separation: for no two sides with at least four
/// lines each the ranks of the blocks sum to two.
pub fn no_place_no_separation()
    ensures { NoPlaceMeansNoSeparation }
{}
