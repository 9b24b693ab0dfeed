//! Tests of netstrings, of requests and replies, and of the devices of a request.
#![tactic(auto)]

#[cfg(test)]
mod devices;
#[cfg(test)]
mod texts;
