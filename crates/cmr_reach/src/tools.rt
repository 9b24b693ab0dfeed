//! The tools, each with its options and its arguments.
pub mod balanced;
pub mod camion;
pub mod compose_tool;
pub mod parts;
pub mod sign;
