// The rules that evidence must keep.
use cmr_base::PathList;

/// The rules of decomposition trees, in the order in which the checker tests them at a node.
#[derive(Clone, Copy, Debug, PartialEq, Eq)]
pub enum Rule {
    Size,
    Lines,
    NotEmpty,
    NotViolator,
    NotReducible,
    NotApart,
    NotNetwork,
    NotR10,
    CycleFault,
    TooShort,
    BadConnector,
    CornerSign,
    BadBlock,
    TooMany,
    NotClean,
    NotPivot,
    BelowPivot,
}

/// A node and a rule that it breaks. The path contains the child numbers from the root to the node.
#[derive(Debug, Drop)]
pub struct Refusal {
    pub path: PathList,
    pub rule: Rule,
}
