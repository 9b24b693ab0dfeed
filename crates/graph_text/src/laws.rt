//! Laws about the definitions. Each law is a function that does nothing: its contract is the law.
ghost use Rattle.graph_text.specs.Laws.{BinaryMatricesAreOne, MatricesAreOne, ReadingsAreOne};

/// A text has one reading: one network, or one fault at one position.
pub fn readings_are_one()
    ensures { ReadingsAreOne }
{}

/// A network has one matrix with directions, and one 0/1 matrix.
pub fn matrices_are_one()
    ensures directed { MatricesAreOne }
    ensures undirected { BinaryMatricesAreOne }
{}
