//! Digests: numbers that distinguish many lists of words at once.
#![tactic(auto)]

mod digest;

pub use digest::{are_different, mixed};
