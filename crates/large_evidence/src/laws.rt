//! Laws about the definitions. Each law is a function that does nothing: its contract is the law.
ghost use Rattle.large_evidence.specs.EvidenceLaws.{AcceptedMatricesAreUnimodular};

/// A matrix with evidence that is accepted is totally unimodular.
pub fn accepted_is_unimodular()
    ensures { AcceptedMatricesAreUnimodular }
{}
