//! Laws about the definitions. Each law is a function that does nothing: its contract is the law.
ghost use Rattle.determinant_two.specs.Laws.{ViolatorsHaveDeterminantTwo, GomoryEquivalence};
ghost use Rattle.determinant_two.specs.Laws.{ViolatorsContainMinimalViolators, LeastViolatorsAreMinimal};
ghost use Rattle.determinant_two.specs.Laws.{MinimalViolatorsAreSquare, MinimalViolatorsHaveDeterminantTwo};

/// Gomory's theorem (Camion 1965): a violator contains a square submatrix with determinant 2 or -2. So a matrix with entries
/// -1, 0 and 1 is totally unimodular if and only if no square submatrix has such a determinant.
pub fn gomory()
    ensures violators { ViolatorsHaveDeterminantTwo }
    ensures equivalence { GomoryEquivalence }
{}

/// Each violator contains a violator that contains no smaller one. Such a violator is square, and its determinant is 2 or -2.
/// The least violator of a matrix contains no smaller violator.
pub fn minimal_violators()
    ensures exist { ViolatorsContainMinimalViolators }
    ensures least { LeastViolatorsAreMinimal }
    ensures square { MinimalViolatorsAreSquare }
    ensures two { MinimalViolatorsHaveDeterminantTwo }
{}
