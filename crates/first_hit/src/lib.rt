//! Parallel search for the least number that satisfies a predicate.
#![tactic(auto)]

mod probe;
mod round;
mod search;
mod workers;

pub use probe::Probe;
pub use search::first_hit;
pub use workers::Workers;
