//! The common parts of all forms of text: words with their offsets, numbers, reading up to the first fault, and
//! writing.
#![tactic(auto)]

mod error;
mod line_name;
mod number;
mod words;
mod writer;

pub use error::{FieldError, LimitFault, NumberFault};
pub use line_name::push_line_name;
pub use number::{count_in, increasing_line_in, limited, line_in, signed_in};
pub use words::{Words, at_place};
pub use writer::Writer;
