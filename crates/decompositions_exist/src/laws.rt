//! Laws over the definitions. Each function does nothing: its contract is the law.
ghost use Rattle.decompositions_exist.specs.Laws.{SubmatricesHaveShapes, MatricesHaveShapes, MatricesHaveTriedShapes};

/// No submatrix is without a decomposition, for every budget of lines.
pub fn submatrices_have_shapes()
    ensures { SubmatricesHaveShapes }
{}

/// No matrix is without a decomposition, for every budget of lines and every number of pivots on the path to a node.
pub fn matrices_have_shapes()
    ensures { MatricesHaveShapes }
{}

/// The same for decompositions whose open parts are tried.
pub fn matrices_have_tried_shapes()
    ensures { MatricesHaveTriedShapes }
{}
