//! Chains: steps that sign the ones of a 0/1 matrix, with a violator of the signs that they give.
#![tactic(auto)]

mod chain_error;
mod chain_text;
mod chain_writer;
mod check;
pub mod laws;
mod step;

pub use chain_error::{ChainError, ChainKind};
pub use chain_text::read_chain;
pub use chain_writer::write_chain;
pub use check::{chain_signs, check_chain};
pub use step::{Chain, SignStep, SignStepList, SizedChain};
