//! Whether a large matrix is totally unimodular: the connected parts of its core are decided in their order.
#![tactic(auto)]

pub mod laws;
mod part_verdicts;
mod verdict;

pub use verdict::{LargeVerdict, decide_large};
