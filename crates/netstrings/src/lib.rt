//! Netstrings: a length in decimal digits, a colon, this number of bytes, and a comma. They are read from the beginning of a text, and
//! written one after another.
#![tactic(auto)]

pub mod laws;
mod length;
mod netstring;
mod row;

pub use netstring::{Beginning, Netstring, beginning_of, first_netstring};
pub use row::Row;
