//! The tools on evidence for total unimodularity: the checker, and the tool that rewrites trees.
#![tactic(auto)]

pub mod laws;
pub mod tools;
pub mod verdict_words;
