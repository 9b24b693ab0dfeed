//! Tests of sparse matrices.
#![tactic(auto)]

#[cfg(test)]
mod matrices;
#[cfg(test)]
mod texts;
