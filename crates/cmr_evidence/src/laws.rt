//! Laws about the definitions only. Each is a function that does nothing: its contract is the law.
ghost use Rattle.cmr_front.specs.Tool.{HasOneReport};
ghost use Rattle.cmr_evidence.specs.Check.{CheckOrder, check_tool};
ghost use Rattle.cmr_evidence.specs.Upgrade.{UpgradeOrder, upgrade_tool};

/// Each tool has one report, which the texts determine.
pub fn reports_are_one()
    ensures check { (o : CheckOrder) → HasOneReport (check_tool o) }
    ensures upgrade { (o : UpgradeOrder) → HasOneReport (upgrade_tool o) }
{}
