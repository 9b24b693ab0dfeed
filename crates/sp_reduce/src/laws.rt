//! Laws of series-parallel matrices, for all integer matrices. Each is a function that does nothing: its contract is the
//! law.
ghost use Rattle.sp_reduce.specs.Laws.{SubmatricesAreSeriesParallel, RestDecides, GreedySetIsMinimal};

/// Each submatrix of a series-parallel matrix is series-parallel.
pub fn submatrices()
    ensures { SubmatricesAreSeriesParallel }
{}

/// The order of removals does not matter: a matrix is series-parallel if and only if the stated order leaves
/// no line.
pub fn any_order()
    ensures { RestDecides }
{}

/// The greedy set of a matrix that is not series-parallel is not series-parallel, and becomes series-parallel when any one
/// of its lines is removed.
pub fn greedy_set()
    ensures { GreedySetIsMinimal }
{}
