// The status with which the program ends.
ghost use Rattle.std.specs.Prelude.{◌≡◌};
ghost use Rattle.cmr_front.specs.Status.{answer_status, failure_status};

/// The answer of a tool on the texts that it read.
#[derive(Clone, Copy, Debug, PartialEq, Eq)]
pub enum Answer {
    /// The matrix has the property, the evidence for it is accepted, or the requested file is made.
    Yes,
    /// The matrix does not have the property, or the evidence against it is accepted.
    No,
    /// The budget does not suffice for a yes or a no.
    Undecided,
    /// The evidence breaks a rule.
    Refused,
}

impl Answer {
    /// Its status.
    pub fn status(self) -> u8
        ensures { result ≡ answer_status self }
    {
        match self {
            Answer::Yes => 0,
            Answer::No => 1,
            Answer::Undecided => 6,
            Answer::Refused => 7,
        }
    }
}

/// The cause of a run without an answer.
#[derive(Clone, Copy, Debug, PartialEq, Eq)]
pub enum Failure {
    /// The arguments of the command line are refused.
    Words,
    /// A file is too long, or its text has a fault.
    Text,
    /// A call of a device failed.
    Device,
    /// An allocation failed.
    Memory,
}

impl Failure {
    /// Its status.
    pub fn status(self) -> u8
        ensures { result ≡ failure_status self }
    {
        match self {
            Failure::Words => 2,
            Failure::Text => 3,
            Failure::Device => 4,
            Failure::Memory => 5,
        }
    }
}
