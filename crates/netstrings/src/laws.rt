//! Laws of netstrings. Each function does nothing, and its clause is the law.
ghost use Rattle.netstrings.specs.Laws.{OneNetstringLaw, OneRowLaw};

/// A text begins with at most one netstring.
pub fn one_netstring()
    ensures { OneNetstringLaw }
{}

/// Netstrings one after another are those of one list of texts only.
pub fn one_row()
    ensures { OneRowLaw }
{}
