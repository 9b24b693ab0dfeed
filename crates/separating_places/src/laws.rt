//! Laws over the definitions only. The function does nothing: its contract is the law.
ghost use Rattle.separating_places.specs.Laws.{LateStateFollowsTen, LateStateFollowsTenAlone};

/// `LATE_STATE` is the state after ten positions are drawn from the state 1, and after no other number of them up to 100.
pub fn late_state_follows_ten()
    ensures after { LateStateFollowsTen }
    ensures alone { LateStateFollowsTenAlone }
{}
