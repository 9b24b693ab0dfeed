//! Laws about the definitions. Each law is a function that does nothing: its contract is the law.
ghost use Rattle.compose.specs.SumKinds.{SumsLoseLines};
ghost use Rattle.compose.specs.RoundTrips.{TwoRoundTrip, ThreeRoundTrip};

/// The two matrices of a separation have the connecting lines of its sum, and their sum is the matrix with its lines
/// in the order of the separation.
pub fn round_trips()
    ensures two { TwoRoundTrip }
    ensures three { ThreeRoundTrip }
{}

/// The number of lines of a defined sum: the lines of both matrices, minus the lines that the kind of sum loses.
pub fn sums_lose_lines()
    ensures { SumsLoseLines }
{}
