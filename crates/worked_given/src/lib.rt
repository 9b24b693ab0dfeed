//! What the tables of the worked examples are made of, and the texts in which their answers are compared.
#![tactic(auto)]

mod given;

pub use given::{
    Lines, binary, bytes, dense, found_text, indices, line_set, lines_text, mark, matrix,
    named_lines_text, row_text, sparse, zeros,
};
