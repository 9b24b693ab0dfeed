//! Requests and replies as netstrings: their texts, and the devices in memory on which the run of a request works.
#![tactic(auto)]

mod growing_sink;
pub mod laws;
mod reply;
mod request;
mod request_shelf;
mod written_file;

pub use growing_sink::GrowingSink;
pub use reply::{Reply, write_reply};
pub use request::{GivenFile, Request, RequestError, read_request};
pub use request_shelf::RequestShelf;
pub use written_file::WrittenFile;
