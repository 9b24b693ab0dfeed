//! Requests that are read one after another, and a reply to each before more is read.
#![tactic(auto)]

mod line;
mod queue;
mod talk_log;
mod turns;

pub use line::Line;
pub use turns::{Ending, Replier, serve};
