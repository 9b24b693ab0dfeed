//! The common parts of the tools of the program: what a tool is and how it runs, the arguments of the command line, the
//! files that are read and written, the printed lines, and the statuses.
#![tactic(auto)]

pub mod asked;
pub mod carry_out;
mod error_lines;
pub mod evidence_file;
pub mod graph_file;
pub mod input;
pub mod matrix_file;
pub mod outcome;
pub mod printed;
pub mod refusal_line;
pub mod status;
pub mod tool;
pub mod words;
