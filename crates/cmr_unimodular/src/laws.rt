//! Laws about the definitions only. Each is a function that does nothing: its contract is the law.
ghost use Rattle.cmr_front.specs.AlikeReports.{HasAlikeReports};
ghost use Rattle.cmr_front.specs.Tool.{HasOneReport};
ghost use Rattle.cmr_unimodular.specs.AcceptedEvidence.{SigningsAreAccepted, TestsAreAccepted};
ghost use Rattle.cmr_unimodular.specs.AlikeTrees.{HoldAlikeTrees};
ghost use Rattle.cmr_unimodular.specs.Generate.{GenerateOrder, generate_tool};
ghost use Rattle.cmr_unimodular.specs.Regular.{RegularOrder, regular_tool};
ghost use Rattle.cmr_unimodular.specs.Tu.{TuOrder, tu_tool};

/// `check` accepts the evidence that `tu` and `regular` write, with the same matrix. It accepts the decomposition tree and the violator
/// of a no with the matrix that was decomposed, which `regular` also writes, and the chain of a no with the 0/1 matrix that was read.
pub fn evidence_is_accepted()
    ensures tests { TestsAreAccepted }
    ensures signings { SigningsAreAccepted }
{}

/// Two reports of `tu` or `regular` on the same texts can differ only in the networks of their trees.
pub fn reports_are_alike()
    ensures tu { (o : TuOrder) → HasAlikeReports HoldAlikeTrees (tu_tool o) }
    ensures regular { (o : RegularOrder) → HasAlikeReports HoldAlikeTrees (regular_tool o) }
{}

/// `generate` has one report, which its options determine.
pub fn reports_are_one()
    ensures generate { (o : GenerateOrder) → HasOneReport (generate_tool o) }
{}
