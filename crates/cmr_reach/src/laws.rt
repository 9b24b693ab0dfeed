//! Laws about the definitions only. Each is a function that does nothing: its contract is the law.
ghost use Rattle.cmr_front.specs.Tool.{HasOneReport};
ghost use Rattle.cmr_reach.specs.Balanced.{BalancedOrder, balanced_tool};
ghost use Rattle.cmr_reach.specs.Camion.{CamionOrder, camion_tool};
ghost use Rattle.cmr_reach.specs.Compose.{ComposeOrder, compose_tool};
ghost use Rattle.cmr_reach.specs.Parts.{PartsOrder, parts_tool};
ghost use Rattle.cmr_reach.specs.Sign.{SignOrder, sign_tool};
ghost use Rattle.cmr_reach.specs.WayBack.{PartsComposeBack};

/// If `parts` writes two files of different names, `compose` of these files with the sum of the printed kind writes the
/// matrix with its lines in the printed order.
pub fn parts_compose_back()
    ensures { PartsComposeBack }
{}

/// Each tool has one report, which the texts determine.
pub fn reports_are_one()
    ensures camion { (o : CamionOrder) → HasOneReport (camion_tool o) }
    ensures sign { (o : SignOrder) → HasOneReport (sign_tool o) }
    ensures balanced { (o : BalancedOrder) → HasOneReport (balanced_tool o) }
    ensures parts { (o : PartsOrder) → HasOneReport (parts_tool o) }
    ensures compose { (o : ComposeOrder) → HasOneReport (compose_tool o) }
{}
