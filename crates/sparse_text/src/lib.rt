//! Texts of large matrices: reading up to the first fault.
#![tactic(auto)]

mod dense;
pub mod laws;
mod named;
mod sparse;
mod written;

pub use dense::read_large_dense;
pub use sparse::read_large_sparse;
