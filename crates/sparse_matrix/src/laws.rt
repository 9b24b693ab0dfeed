//! Laws about the definitions. Each law is a function that does nothing: its contract is the law.
ghost use Rattle.sparse_matrix.specs.SparseLaws.{RunsMakeEntries, RunsMakeTernaryMatrices};

/// Runs of nonzeros make a matrix with entries -1, 0 and 1: their values.
pub fn matrices()
    ensures ternary { RunsMakeTernaryMatrices }
    ensures entries { RunsMakeEntries }
{}
