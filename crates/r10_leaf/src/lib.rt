//! The R10 matrices: the totally unimodular matrices that neither networks nor sums produce (Seymour; Schrijver,
//! Theory of Linear and Integer Programming, chapter 19).
#![tactic(auto)]

pub mod laws;
mod test;

pub use test::is_r10;
