//! The arguments of `cmr-large`, and `run`, the one call that the program makes under this name: whether a matrix beyond the limits of `cmr` is
//! totally unimodular.
#![tactic(auto)]

mod large_file;
pub mod laws;
mod program;
mod report;
mod sums;
mod tu;

pub use program::run;
pub use tu::LargeOptions;
