//! A search for signs that cancel the columns of a matrix with at most two nonzeros in each column, or for a cycle that does not cancel.
#![tactic(auto)]

mod cycle;
mod forest;
mod paths;
mod split;

pub use split::{Split, decide, have_at_most_two};
