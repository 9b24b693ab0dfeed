// The decision of a tool, or why there is none.
ghost use Rattle.std.specs.Prelude.{◌≡◌};

use crate::status::{Answer, Failure};
use chains::ChainKind;
use graph_text::GraphKind;
use matrix_text::TextKind;
use tree_text::TreeKind;

/// A file to write.
#[derive(Debug, Drop)]
pub struct OutputFile<'a> {
    pub name: &'a str,
    pub bytes: Vec<u8>,
}

/// The decision of a tool: its answer, the bytes of standard output, and the files in the order in which they are
/// written.
#[derive(Debug, Drop)]
pub struct Outcome<'a> {
    pub answer: Answer,
    pub output: Vec<u8>,
    pub files: Vec<OutputFile<'a>>,
}

/// The kind of a text with a fault, and the fault.
#[derive(Clone, Copy, Debug, PartialEq, Eq)]
pub enum FaultKind {
    /// With the text of a matrix or of a submatrix.
    Matrix(TextKind),
    /// With a tree text.
    Tree(TreeKind),
    /// With a chain text.
    Chain(ChainKind),
    /// With a graph text.
    Graph(GraphKind),
}

/// Why a run has no outcome.
#[derive(Clone, Copy, Debug)]
pub enum Stop<'a> {
    BadWords,
    CannotRead {
        name: &'a str,
    },
    TooLong {
        name: &'a str,
    },
    BadText {
        name: &'a str,
        kind: FaultKind,
        place: usize,
    },
    Memory,
}

impl From<cmr_base::Memory> for Stop<'_> {
    ghost use Rattle.cmr_front.specs.declared.outcome.Stop.TheVariants.{Memory};

    ghost from_gives = { λ _ stop. stop ≡ Memory };

    fn from(_: cmr_base::Memory) -> Self {
        Stop::Memory
    }
}

impl Stop<'_> {
    ghost use Rattle.cmr_front.specs.Outcome.{stop_report};
    ghost use Rattle.cmr_front.specs.Status.{failure_status};

    /// The failure of this stop.
    pub fn failure(&self) -> Failure
        ensures { (stop_report self.now).status ≡ failure_status result }
    {
        match self {
            Stop::BadWords => Failure::Words,
            Stop::TooLong { .. } | Stop::BadText { .. } => Failure::Text,
            Stop::CannotRead { .. } => Failure::Device,
            Stop::Memory => Failure::Memory,
        }
    }
}
