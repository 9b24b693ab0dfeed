// Evidence that a directed cycle with one more row, a unit row, is totally unimodular.
use crate::verdicts::{write, write_cycle, zero};
use cmr_base::{Line, LineSet, Reason, Step};
use large_evidence::{PartEvidence, PartReason, UnimodularityEvidence, accepts};
use std::alloc::Global;
use std::test::Fail;

const UNIT_ROW: Step = Step {
    line: Line::Row(5),
    reason: Reason::Unit(Line::Column(2)),
};

// The answer to these steps, and a part with the first five rows and all columns.
fn is_accepted(alloc: Global, steps: &[Step], reason: PartReason) -> Result<bool, Fail> {
    let mut matrix = zero(alloc, 6, 5)?;
    write_cycle(&mut matrix, 0, 0, 5)?;
    write(&mut matrix, (5, 2, 1))?;
    let mut parts = Vec::new(alloc);
    parts.push(PartEvidence {
        lines: LineSet::all(alloc, 5, 5)?,
        reason,
    })?;
    let evidence = UnimodularityEvidence {
        steps: Vec::from_slice(alloc, steps)?,
        parts,
    };
    Ok(accepts(alloc, &matrix, &evidence)?)
}

// The sign -1 for the first lines, and the sign 1 for the others.
fn signs(alloc: Global, minus: u32, count: u32) -> Result<Vec<bool>, Fail> {
    let mut signs = Vec::new(alloc);
    for line in 0..count {
        signs.push(line < minus)?;
    }
    Ok(signs)
}

#[test]
fn signs_of_rows_or_of_columns_are_a_reason(rt: HostRuntime) -> Result<(), Fail> {
    let alloc = rt.alloc();
    for minus in [0, 5] {
        let rows = PartReason::Columns(signs(alloc, minus, 5)?);
        assert!(rt; is_accepted(alloc, &[UNIT_ROW], rows)?);
        let columns = PartReason::Rows(signs(alloc, minus, 5)?);
        assert!(rt; is_accepted(alloc, &[UNIT_ROW], columns)?);
    }
    Ok(())
}

#[test]
fn faults_of_evidence_are_found(rt: HostRuntime) -> Result<(), Fail> {
    let alloc = rt.alloc();
    let wrong_sign = PartReason::Columns(signs(alloc, 1, 5)?);
    assert!(rt; !is_accepted(alloc, &[UNIT_ROW], wrong_sign)?);
    let few_signs = PartReason::Columns(signs(alloc, 0, 4)?);
    assert!(rt; !is_accepted(alloc, &[UNIT_ROW], few_signs)?);
    let no_step = PartReason::Columns(signs(alloc, 0, 5)?);
    assert!(rt; !is_accepted(alloc, &[], no_step)?);
    let step_twice = PartReason::Columns(signs(alloc, 0, 5)?);
    assert!(rt; !is_accepted(alloc, &[UNIT_ROW, UNIT_ROW], step_twice)?);
    Ok(())
}
