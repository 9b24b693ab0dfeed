//! Laws about the definitions. Each law is a function that does nothing: its contract is the law.
ghost use Rattle.ghouila.specs.Laws.{CamionEquivalence, TransposesAreUnimodular, ViolatorsHaveNoSigning};
ghost use Rattle.ghouila.specs.DeterminantLaws.{GhouilaHouriEquivalence};
ghost use Rattle.ghouila.specs.IntegralLaws.{BasicSolutionsAreIntegral, HoffmanKruskalEquivalence};
ghost use Rattle.ghouila.specs.NetworkLaws.{NetworkMatricesAreUnimodular, ConetworkMatricesAreUnimodular};
ghost use Rattle.ghouila.specs.PivotLaws.{PivotsUndoThemselves, PivotsTakeViolatorsBack, PivotsKeepViolators, PivotsDecide};
ghost use Rattle.ghouila.specs.SignLaws.{SignsAreUnique, FaultFreeHasNoViolator};
ghost use Rattle.ghouila.specs.SumLaws.{ReductionsKeepViolators, ComponentsDecide, PartsDecide, OneSumsHaveNone, TwoSeparationsDecide, TwoSumsHaveNone, ThreeSeparationsDecide, CornersDecide, ThreeSumsHaveNone};

/// Camion's theorem in the form of Ghouila-Houri (Schrijver, Theory of Linear and Integer Programming, chapter 19): a
/// matrix is totally unimodular if and only if it has no violator.
pub fn camion()
    ensures equivalence { CamionEquivalence }
    ensures unsigned { ViolatorsHaveNoSigning }
{}

/// A matrix is totally unimodular if and only if its transpose is.
pub fn transposed_unimodular()
    ensures { TransposesAreUnimodular }
{}

/// The signs of a matrix without violators are unique: two such matrices with one support agree after some rows and
/// columns are multiplied by -1 (Camion). So a matrix without cycle fault has no violator if some matrix with its
/// support has none.
pub fn signs_unique()
    ensures agree { SignsAreUnique }
    ensures free { FaultFreeHasNoViolator }
{}

/// Network matrices and their transposes are totally unimodular, so they have no violator (Tutte; Schrijver, chapter
/// 19). The signs of the rows of a set alternate along each path of the tree.
pub fn network_free()
    ensures network { NetworkMatricesAreUnimodular }
    ensures conetwork { ConetworkMatricesAreUnimodular }
{}

/// A matrix has a violator if and only if it has one after a reducible line is removed. A line is reducible if it is
/// zero, has one nonzero, or equals another line of its kind or the negative of one.
pub fn reduction_free()
    ensures { ReductionsKeepViolators }
{}

/// A matrix has no violator if and only if none of its connected parts has one. The same law holds for all sets of
/// lines if no nonzero is in lines of two of them. A one-sum of matrices without violators has none.
pub fn one_sum_free()
    ensures components { ComponentsDecide }
    ensures parts { PartsDecide }
    ensures sum { OneSumsHaveNone }
{}

/// A matrix with a two-separation has no violator if and only if neither child has one. The children are side one
/// with the row of side two that makes the block between them, and side two with the column of side one. A two-sum of
/// matrices without violators has none (Truemper, Matroid Decomposition).
pub fn two_sum_free()
    ensures separation { TwoSeparationsDecide }
    ensures sum { TwoSumsHaveNone }
{}

/// A matrix with a three-separation has no violator if and only if neither child has one. The forms are delta, Y and
/// mixed, if the corner product is 1, and the concentrated form. If the corner product is -1, the four lines of the
/// corners are a violator. A sum of any of these forms of two matrices without violators has none.
pub fn three_sum_free()
    ensures separation { ThreeSeparationsDecide }
    ensures corners { CornersDecide }
    ensures sum { ThreeSumsHaveNone }
{}

/// A matrix is totally unimodular if and only if its pivot at a nonzero has only entries -1, 0 and 1 and is totally
/// unimodular (Schrijver, chapter 19; Truemper, Matroid Decomposition). A violator of the pivot gives one of the
/// matrix on the same lines, except perhaps the pivot's row and column. The same pivot twice gives the matrix again.
pub fn pivot_free()
    ensures undo { PivotsUndoThemselves }
    ensures lines { PivotsTakeViolatorsBack }
    ensures violators { PivotsKeepViolators }
    ensures unimodular { PivotsDecide }
{}

/// Ghouila-Houri's theorem (Schrijver, chapter 19): each set of rows has a signing if and only if each square
/// submatrix has the determinant -1, 0 or 1. So total unimodularity by signings is total unimodularity as textbooks
/// define it.
pub fn determinants()
    ensures { GhouilaHouriEquivalence }
{}

/// Basic solutions are integral (Schrijver, chapter 19): if A is totally unimodular and the right-hand side b is
/// integral, each basic solution of A x = b is integral.
pub fn integral_solutions()
    ensures { BasicSolutionsAreIntegral }
{}

/// The theorem of Hoffman and Kruskal (1956; Schrijver, chapter 19): a matrix A is totally unimodular if and only if
/// for every integral right-hand side b all vertices of the polyhedron A x <= b, x >= 0 are integral.
pub fn hoffman_kruskal()
    ensures { HoffmanKruskalEquivalence }
{}
