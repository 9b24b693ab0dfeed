//! Laws about the definitions, for all matrices with entries -1, 0 and 1. Each law is a function that does nothing:
//! its contract is the law.
ghost use Rattle.balance.specs.Laws.{CycleFaultsAreBalanceFaults, FreeIsBalanced};

/// Balance faults are violators, so a matrix without violators is balanced. The cycle fault is a balance fault,
/// because the cycle of the least of the shortest paths has no chord.
pub fn free_balanced()
    ensures free { FreeIsBalanced }
    ensures cycles { CycleFaultsAreBalanceFaults }
{}
