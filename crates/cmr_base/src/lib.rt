//! Matrices with entries -1, 0 and 1, sets of their lines, and the small types that all crates above share. Line
//! numbers are counted from 0.
#![tactic(auto)]

mod bit_set;
pub mod columns;
mod cores;
mod differences;
mod draws;
mod incidences;
mod indices;
mod item_list;
mod labels;
mod limits;
mod line;
mod line_mask;
mod line_set;
mod matrix;
mod matrix_sum;
mod memory;
mod network;
mod network_matrix;
mod nonzeros;
mod path_list;
mod planes;
mod position;
mod products;
mod reproduce;
mod rooted_tree;
mod rows_and_columns;
mod runs;
mod separation;
mod set_numbers;
mod transposed_plane;
mod word;

pub use bit_set::{BitSet, columns_of};
pub use cores::{Core, Factors};
pub use draws::{Drawn, DrawnNumber, draw, draw_below};
pub use indices::Indices;
pub use item_list::{ItemList, PartList, SideList, SignList, WordList};
pub use labels::{join_labels, own_labels};
pub use limits::{MAX_COLUMNS, MAX_DEPTH, MAX_EVIDENCE, MAX_LINES, MAX_ROWS, MAX_TEXT};
pub use line::{Line, LineList, Reason, Step, StepList};
pub use line_mask::LineMask;
pub use line_set::LineSet;
pub use matrix::Matrix;
pub use memory::Memory;
pub use network::{Network, Pair, PairList};
pub use path_list::PathList;
pub use planes::{has_bit, with_bit, words_for, xor_words};
pub use position::Position;
pub use products::product;
pub use reproduce::{reproduces, reproduces_support};
pub use rooted_tree::is_tree;
pub use rows_and_columns::RowsAndColumns;
pub use separation::{Connector, Form, LineSetList, LineSetPair, Three, Two};
pub use set_numbers::{set_count, write_set};
pub use word::Word;
