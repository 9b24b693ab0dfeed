//! Laws over the definitions, for matrices with entries -1, 0 and 1 of any size. Each function does nothing: its contract is
//! the law.
ghost use Rattle.graph_realise.specs.Laws.{GraphicSupportsSplit, GraphicSupportsHaveSides, NetworkMatricesHaveSides};

/// The supports of the columns are the paths of some tree if and only if the matrix is graphic by splitting (Tutte; Schrijver,
/// Theory of Linear and Integer Programming, chapter 20). A matrix is graphic by splitting in two cases:
/// * no column has three nonzeros;
/// * the parts at the first row that splits the others have two sides on which they agree, and the row with each part is
///   graphic by splitting.
pub fn splitting()
    ensures { GraphicSupportsSplit }
{}

/// The sides of the arcs describe a tree: the supports of the columns are the paths of some tree if and only if each row has
/// two sides, on which the other rows and the ends of the columns lie as they do at an arc. A matrix is a network matrix if and
/// only if such sides also give its signs.
pub fn sides_of_arcs()
    ensures graphic { GraphicSupportsHaveSides }
    ensures network { NetworkMatricesHaveSides }
{}
