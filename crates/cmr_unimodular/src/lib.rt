//! The tools that decompose a matrix: the tests of total unimodularity and regularity, and the tool that generates a matrix and tests it.
#![tactic(auto)]

pub mod laws;
mod outline;
pub mod tools;
mod verdict;
