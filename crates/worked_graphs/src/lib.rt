//! Worked examples of the public calls of other crates, in tables: what goes in, and what has to come out. They are about
//! graphs, networks and signings. The expected values are worked out by hand, or come from the
//! literature or from a slow program that follows the definitions.
#![tactic(auto)]

#[cfg(test)]
mod compared;
#[cfg(test)]
mod graph_texts;
#[cfg(test)]
mod graphs;
#[cfg(test)]
mod networks;
#[cfg(test)]
mod signed_chains;
#[cfg(test)]
mod signings;
#[cfg(test)]
mod splits;
