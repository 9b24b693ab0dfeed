//! Laws over the definitions, for matrices with entries -1, 0 and 1 of any size. Each function does nothing: its contract is
//! the law.
ghost use Rattle.network_orient.specs.Laws.{ConetworkMatricesAreSignedCographic, NetworkMatricesAreSignedGraphic};

/// A matrix is a network matrix if and only if it has no cycle fault and its support is graphic. The arcs of a tree for the
/// support can be reversed so that they give its signs (Camion; Schrijver, Theory of Linear and Integer Programming, chapter
/// 19).
pub fn graphic_with_signs()
    ensures { NetworkMatricesAreSignedGraphic }
{}

/// A matrix is a transposed network matrix if and only if it has no cycle fault and its support is cographic.
pub fn cographic_with_signs()
    ensures { ConetworkMatricesAreSignedCographic }
{}
