//! Laws about the definitions. Each law is a function that does nothing: its contract is the law.
ghost use Rattle.std.specs.Prelude.{false};
ghost use Rattle.matrix_text.specs.Dense.{dense};
ghost use Rattle.matrix_text.specs.Sparse.{sparse};
ghost use Rattle.sparse_text.specs.LargeTexts.{large_dense, large_sparse};
ghost use Rattle.sparse_text.specs.LargeTextLaws.{HaveOneReading};

/// A text whose sizes are within the limits of `Matrix` has the same matrix, or the same first fault, as a text of a
/// large matrix.
pub fn within_limits()
    ensures dense { HaveOneReading (dense false) large_dense }
    ensures sparse { HaveOneReading (sparse false) large_sparse }
{}
