// The rows of a cycle fault, near which the search at a node above begins.
use crate::drafts::Draft;
use cmr_base::LineSet;
use tree_type::Finding;

/// The last row of a cycle fault and the row before it, by their numbers in the whole matrix.
#[derive(Clone, Copy)]
pub struct FaultRows {
    pub last: u32,
    pub before: u32,
}

/// The rows of the cycle fault that a finding names. For another finding, the rows that some child knows, with the least last
/// row.
pub fn fault_rows(finding: &Finding, children: &[Draft]) -> Option<FaultRows> {
    match finding {
        Finding::Cycle(fault) => last_rows(fault),
        _ => least_rows(children),
    }
}

fn last_rows(fault: &LineSet) -> Option<FaultRows> {
    let rows = fault.rows.as_slice();
    let count = rows.len();
    if count < 2 {
        return None;
    }
    Some(FaultRows {
        last: rows[count - 1],
        before: rows[count - 2],
    })
}

fn least_rows(children: &[Draft]) -> Option<FaultRows> {
    let mut least = None;
    for child in children {
        least = earlier(least, child.fault_rows);
    }
    least
}

// Those rows whose last row is less.
fn earlier(one: Option<FaultRows>, other: Option<FaultRows>) -> Option<FaultRows> {
    match (one, other) {
        (Some(first), Some(second)) => {
            Some(if second.last < first.last {
                second
            } else {
                first
            })
        }
        (None, _) => other,
        (_, None) => one,
    }
}
