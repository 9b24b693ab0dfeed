//! Laws over the definitions, for all matrices with entries -1, 0 and 1. Each function does nothing: its contract is the law.
ghost use Rattle.camion_sign.specs.Laws.{FullSquaresHaveProductOne, CycleFaultsDecide, SigningsDecideRegularity};

/// In a matrix without cycle fault each 2 by 2 submatrix of nonzeros has the product +1, and therefore the determinant 0.
pub fn full_two()
    ensures { FullSquaresHaveProductOne }
{}

/// If some matrix with its support is totally unimodular, a matrix is totally unimodular if and only if it has no cycle fault.
pub fn faults_decide()
    ensures { CycleFaultsDecide }
{}

/// Camion's signing of a 0/1 matrix is totally unimodular if and only if some signing is.
pub fn signing_decides()
    ensures { SigningsDecideRegularity }
{}
