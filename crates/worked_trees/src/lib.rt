//! Worked examples of the public calls of other crates, in tables: what goes in, and what has to come out. They are about
//! reductions, separations, sums, pivots and trees. The expected values are worked out by hand, or come from the
//! literature or from a slow program that follows the definitions.
#![tactic(auto)]

#[cfg(test)]
mod compared;
#[cfg(test)]
mod cut_places;
#[cfg(test)]
mod pivoted;
#[cfg(test)]
mod r10;
#[cfg(test)]
mod reductions;
#[cfg(test)]
mod separations;
#[cfg(test)]
mod sums;
#[cfg(test)]
mod trees;
