//! Many runs of `cmr` in one process: requests that are read from standard input, and the replies to them.
#![tactic(auto)]

mod conversation;
mod replier;

pub use conversation::converse;
pub use replier::CmrReplier;
