//! The tools, each with its options and its arguments.
pub mod check;
pub mod upgrade;
