// Cycle faults, which are searched for only if there may be one.
ghost use Rattle.std.specs.Prelude.{◌≡◌, true, MatchOption, IfOk, IfSome, IsTrue};
ghost use Rattle.cmr_base.specs.Matrix.{entry, transposed, IsMatrix};
ghost use Rattle.cmr_base.specs.CyclePlaces.{HasNoCycleFault};
ghost use Rattle.tree_type.specs.Invariant.{AreLines};
ghost use Rattle.tree_type.specs.Soundness.{part};
ghost use Rattle.tree_type.specs.Findings.{finding_shown};
ghost use Rattle.decomp_tree.specs.Seen.{HasNoneAmong, IsNamedFault, is_unsearched, keeps_free};
ghost use Rattle.decomp_tree.specs.Sketches.{HasNoLateFault};
ghost use Rattle.network_orient.specs.FirstRows.{HasNoFaultBefore};
ghost use Rattle.network_orient.specs.Orientations.{IsOrientation};

use crate::fault_rows::FaultRows;
use crate::naming::named_set;
use crate::obstructions::place_from;
use camion_sign::{cycle_fault_from, cycle_fault_of, passed_before};
use cmr_base::{LineSet, Matrix, Memory, RowsAndColumns};
use network_orient::{Orientation, rows_of_transposed};
use std::alloc::Global;
use tree_type::Finding;

/// The cycle fault of the submatrix on these lines, by its numbers in the whole matrix, if the rows of the submatrix before a
/// given row have none.
pub fn fault_from(
    alloc: Global,
    _matrix: &Matrix,
    lines: &LineSet,
    submatrix: &RowsAndColumns<'_>,
    first: u32,
) -> Result<Option<LineSet>, Memory>
    requires shape { IsMatrix _matrix.now }
    requires lines { AreLines _matrix.now lines.now }
    requires submatrix { submatrix.now ≡ part _matrix.now lines.now }
    requires passed { HasNoFaultBefore submatrix.now first }
    ensures { IfOk result (λ found. MatchOption found
        (HasNoCycleFault (entry (part _matrix.now lines.now)))
        (IsNamedFault _matrix.now lines.now)) }
{
    match cycle_fault_from(alloc, submatrix, first)? {
        Some(found) => Ok(Some(named_set(alloc, lines, &found)?)),
        None => Ok(None),
    }
}

/// The cycle fault of the submatrix on these lines, searched for only if there must be one: if a tree has the supports of the
/// columns as paths, but no directed tree has the signs. The signs of a matrix without cycle fault are the signs of a network
/// with some lines negated. The search skips the first rows, whose signs are of this kind.
pub fn certain_fault(
    alloc: Global,
    matrix: &Matrix,
    lines: &LineSet,
    submatrix: &RowsAndColumns<'_>,
    of_rows: &Orientation,
) -> Result<Option<LineSet>, Memory>
    requires shape { IsMatrix matrix.now }
    requires lines { AreLines matrix.now lines.now }
    requires submatrix { submatrix.now ≡ part matrix.now lines.now }
    requires of_rows { IsOrientation submatrix.now of_rows.now }
    ensures { IfOk result (λ found. IfSome found (IsNamedFault matrix.now lines.now)) }
{
    match of_rows {
        Orientation::WrongSigns { row, .. } => fault_from(alloc, matrix, lines, submatrix, *row),
        Orientation::Directed(_) | Orientation::NoTree => Ok(None),
    }
}

/// The same if a tree has the supports of the rows as paths.
pub fn certain_fault_transposed(
    alloc: Global,
    matrix: &Matrix,
    lines: &LineSet,
    submatrix: &RowsAndColumns<'_>,
    of_columns: &Orientation,
) -> Result<Option<LineSet>, Memory>
    requires shape { IsMatrix matrix.now }
    requires lines { AreLines matrix.now lines.now }
    requires submatrix { submatrix.now ≡ part matrix.now lines.now }
    requires of_columns { IsOrientation (transposed submatrix.now) of_columns.now }
    ensures { IfOk result (λ found. IfSome found (IsNamedFault matrix.now lines.now)) }
{
    match of_columns {
        Orientation::WrongSigns { net, .. } => {
            let row = rows_of_transposed(alloc, net, submatrix.by_rows())?;
            fault_from(alloc, matrix, lines, submatrix, row)
        }
        Orientation::Directed(_) | Orientation::NoTree => Ok(None),
    }
}

/// The cycle fault of a node's submatrix, if the first pass did not search for one and there may be one. `below` has the
/// last rows of a fault of a node below, if there is one: the search begins near them.
#[inline(never)]
pub fn late_fault(
    alloc: Global,
    matrix: &RowsAndColumns<'_>,
    lines: &LineSet,
    finding: &Finding,
    is_free: bool,
    below: Option<FaultRows>,
) -> Result<Option<LineSet>, Memory>
    requires shape { IsMatrix matrix.now }
    requires lines { AreLines matrix.now lines.now }
    requires free { IsTrue is_free → HasNoneAmong matrix.now lines.now }
    ensures { IfOk result (λ found. MatchOption found
        (HasNoLateFault matrix.now lines.now (finding_shown finding.now))
        (λ fault. IsNamedFault matrix.now lines.now fault
        × (is_unsearched (finding_shown finding.now) ≡ true))) }
{
    if is_free || !is_unsearched(finding) {
        return Ok(None);
    }
    let part = matrix.by_rows().part(alloc, lines)?;
    let columns = matrix.transposed_part(alloc, lines)?;
    let submatrix = RowsAndColumns::of(&part, &columns);
    match below {
        Some(rows) => fault_near(alloc, matrix, lines, &submatrix, rows),
        None => fault_of(alloc, matrix, lines, &submatrix),
    }
}

// The cycle fault of the submatrix on these lines, which is expected near these rows of the whole matrix.
fn fault_near(
    alloc: Global,
    matrix: &RowsAndColumns<'_>,
    lines: &LineSet,
    submatrix: &RowsAndColumns<'_>,
    rows: FaultRows,
) -> Result<Option<LineSet>, Memory>
    requires shape { IsMatrix matrix.now }
    requires lines { AreLines matrix.now lines.now }
    requires submatrix { submatrix.now ≡ part matrix.now lines.now }
    ensures { IfOk result (λ found. MatchOption found
        (HasNoCycleFault (entry (part matrix.now lines.now)))
        (IsNamedFault matrix.now lines.now)) }
{
    let first = passed_near(alloc, lines, submatrix, rows)?;
    fault_from(alloc, matrix.by_rows(), lines, submatrix, first)
}

// First rows of the submatrix without fault, if a tree has the rows before one of these rows of the whole matrix.
fn passed_near(
    alloc: Global,
    lines: &LineSet,
    submatrix: &RowsAndColumns<'_>,
    rows: FaultRows,
) -> Result<u32, Memory>
    ensures { IfOk result (HasNoFaultBefore submatrix.now) }
{
    let numbers = lines.rows.as_slice();
    let passed = passed_before(alloc, submatrix, place_from(numbers, 0, rows.last))?;
    if passed > 0 {
        return Ok(passed);
    }
    passed_before(alloc, submatrix, place_from(numbers, 0, rows.before))
}

// The cycle fault of the submatrix on these lines, by its numbers in the whole matrix.
fn fault_of(
    alloc: Global,
    _matrix: &RowsAndColumns<'_>,
    lines: &LineSet,
    submatrix: &RowsAndColumns<'_>,
) -> Result<Option<LineSet>, Memory>
    requires shape { IsMatrix _matrix.now }
    requires lines { AreLines _matrix.now lines.now }
    requires submatrix { submatrix.now ≡ part _matrix.now lines.now }
    ensures { IfOk result (λ found. MatchOption found
        (HasNoCycleFault (entry (part _matrix.now lines.now)))
        (IsNamedFault _matrix.now lines.now)) }
{
    match cycle_fault_of(alloc, submatrix)? {
        Some(found) => Ok(Some(named_set(alloc, lines, &found)?)),
        None => Ok(None),
    }
}

// Whether the first pass drafts a node with this finding without a search for a cycle fault.
fn is_unsearched(finding: &Finding) -> bool
    ensures { result ≡ is_unsearched (finding_shown finding.now) }
{
    match finding {
        Finding::Reduced(_)
        | Finding::OneSum
        | Finding::Network(_)
        | Finding::Conetwork(_)
        | Finding::TwoSum(_) => true,
        Finding::Empty
        | Finding::Cycle(_)
        | Finding::R10
        | Finding::ThreeSum(_)
        | Finding::Enumerated
        | Finding::Violator(_)
        | Finding::Undecided
        | Finding::Pivoted(_) => false,
    }
}

/// Whether a node with this finding has no violator among its lines if none of its children has one.
pub fn keeps_free(finding: &Finding) -> bool
    ensures { result ≡ keeps_free (finding_shown finding.now) }
{
    match finding {
        Finding::Cycle(_) | Finding::Violator(_) | Finding::Undecided => false,
        Finding::Empty
        | Finding::Reduced(_)
        | Finding::OneSum
        | Finding::Network(_)
        | Finding::Conetwork(_)
        | Finding::R10
        | Finding::TwoSum(_)
        | Finding::ThreeSum(_)
        | Finding::Enumerated
        | Finding::Pivoted(_) => true,
    }
}
