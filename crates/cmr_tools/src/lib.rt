//! The arguments of the command line with all tools, and the one call that the program makes.
#![tactic(auto)]

mod command;
pub mod laws;
mod program;

pub use cmr_classes::tools::graphic_network::{PropertyTest, TestOptions, TestedProperty};
pub use cmr_classes::tools::series_parallel::SpOptions;
pub use cmr_evidence::tools::check::CheckOptions;
pub use cmr_evidence::tools::upgrade::UpgradeOptions;
pub use cmr_front::matrix_file::MatrixForm;
pub use cmr_front::status::{Answer, Failure};
pub use cmr_front::tool::Tool;
pub use cmr_unimodular::tools::generate_tool::{GenerateOptions, MakeKind};
pub use cmr_unimodular::tools::regular::RegularOptions;
pub use cmr_unimodular::tools::tu::TuOptions;
pub use program::run;
