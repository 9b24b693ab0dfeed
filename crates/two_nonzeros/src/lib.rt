//! Matrices with at most two nonzeros in each column (Heller and Tompkins 1956).
#![tactic(auto)]

mod split;

pub use split::first_uncancelled;
