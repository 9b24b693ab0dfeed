//! The text of a graph: the edges of a tree represent the rows of a matrix, and further edges represent its columns.
//! The crate reads a text up to its first fault, writes a text, and makes the matrix of a text.
#![tactic(auto)]

mod edges;
mod error;
pub mod laws;
mod matrix;
mod read;
mod write;

pub use error::{GraphError, GraphKind};
pub use matrix::matrix_of;
pub use read::{SizedNetwork, read_graph};
pub use write::{write_graph, write_transposed_graph};
