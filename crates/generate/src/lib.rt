//! Generated matrices: network matrices of random trees, and two-sums of R10 matrices.
#![tactic(auto)]

mod making;
mod networks;
mod sums;

pub use making::{MakeKind, make};
