//! Sums of two matrices along connecting lines, and the lines of the two children of a separation.
#![tactic(auto)]

mod children;
mod concentrated;
mod cores;
mod corners;
mod error;
mod plan;
mod spread;
mod sums;

pub use children::{three_parts, two_parts};
pub use cmr_base::LineSetPair;
pub use concentrated::concentrated_sum;
pub use error::SumError;
pub use sums::{delta_sum, mixed_sum, one_sum, two_sum, y_sum};
