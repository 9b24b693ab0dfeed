//! The tools, each with its options and its arguments.
pub mod generate_tool;
pub mod regular;
pub mod tu;
