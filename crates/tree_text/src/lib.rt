//! The text of decomposition trees, read up to the first fault and written in canonical form.
#![tactic(auto)]

mod error;
mod field;
mod header;
mod kind_word;
pub mod laws;
mod own_part;
mod read;
mod value;
mod write;

pub use error::{TreeError, TreeKind};
pub use kind_word::{KindWord, kind_of, word_of};
pub use read::read_tree;
pub use write::write_tree;
