//! Laws of pivots of submatrices. Each is a function that does nothing: its contract is the law.
ghost use Rattle.pivots.specs.PartLaws.{PartPivotsTakeViolatorsBack, PartPivotsKeepViolators, PartPivotsStayMatrices, PartPivotsArePivots, PartPivotsDecide};

/// A submatrix has a violator if and only if its pivot has one. A violator of the pivot is mapped back as for a whole matrix: to
/// the same lines, except the row and the column of the pivot. If the entries of the pivot are -1, 0 and 1, the matrix after it
/// is a matrix within the limits.
pub fn part_free()
    ensures lines { PartPivotsTakeViolatorsBack }
    ensures violators { PartPivotsKeepViolators }
    ensures shape { PartPivotsStayMatrices }
{}

/// On the lines of the submatrix the pivot in its place is the pivot of the submatrix as a matrix of its own. So the submatrix
/// is totally unimodular if and only if the entries of its pivot are -1, 0 and 1 and the pivot is totally unimodular.
pub fn part_pivot()
    ensures pivot { PartPivotsArePivots }
    ensures unimodular { PartPivotsDecide }
{}
