// The first case that applies to some lines.
ghost use Rattle.std.specs.Prelude.{◌≡◌, ◌<◌, false, length, IfOk};
ghost use Rattle.cmr_base.specs.Matrix.{entry, IsMatrix};
ghost use Rattle.cmr_base.specs.CyclePlaces.{HasNoCycleFault};
ghost use Rattle.cmr_base.specs.R10.{IsR10};
ghost use Rattle.tree_type.specs.Invariant.{AreLines};
ghost use Rattle.cmr_base.specs.Reductions.{removal};
ghost use Rattle.tree_type.specs.Soundness.{part};
ghost use Rattle.two_sep.specs.FirstSeeds.{IsFirstTwoSeparation};
ghost use Rattle.three_sep.specs.ThreeSeparations.{IsFirstThreeSeparation};
ghost use Rattle.decomp_tree.specs.Obstructions.{IsKnown};
ghost use Rattle.decomp_tree.specs.Nodes.{HasNoCaseBefore, IsSeenAt, submatrix_of};
ghost use Rattle.decomp_tree.specs.Seen.{IsSeen};
ghost use Rattle.decomp_tree.specs.Shapes.{IsApart, IsConetwork, IsNetwork, IsR10Matrix, IsReducible, IsShort, IsThreeSum, IsTwoSum};

use crate::faults::{certain_fault, certain_fault_transposed, fault_from};
use crate::naming::{named_parts, named_set, named_steps, named_three, named_two};
use crate::obstructions::Obstruction;
use crate::search_limits::SearchLimits;
use crate::searched_node::SearchedNode;
use crate::seen::{Seen, above_one, above_two, leaf};
use cmr_base::{LineSet, Matrix, Memory, RowsAndColumns, Three, Two};
use leaf_enumerate::{LeastSubmatrix, least_violator_of};
use network_orient::orientation_of;
use r10_leaf::is_r10;
use sp_reduce::{FirstLook, Reduction, first_look, reduce};
use std::alloc::Global;
use std::thread::Threads;
use three_sep::three_separation_of;
use tree_type::{Finding, three_one, three_two, two_one, two_two};
use two_sep::{components_of, two_separation_of};

/// The finding of a node on these lines. A cycle fault is searched for only if no cheaper case applies.
#[inline(never)]
pub fn look<R: Threads + Sync>(
    rt: &R,
    alloc: Global,
    matrix: &RowsAndColumns<'_>,
    lines: &LineSet,
    obstruction: &Obstruction,
    limits: SearchLimits,
) -> Result<Seen, Memory>
    requires shape { IsMatrix matrix.now }
    requires lines { AreLines matrix.now lines.now }
    requires known { IsKnown matrix.now obstruction.now }
    ensures { IfOk result (IsSeen limits.lines matrix.now lines.now) }
{
    let whole = matrix.by_rows();
    let part = whole.part(alloc, lines)?;
    if part.rows() == 0 && part.columns() == 0 {
        return Ok(leaf(alloc, Finding::Empty));
    }
    let columns = matrix.transposed_part(alloc, lines)?;
    let submatrix = RowsAndColumns::of(&part, &columns);
    let node = SearchedNode {
        matrix: whole,
        lines,
        submatrix: &submatrix,
        limits,
    };
    look_filled(rt, alloc, &node, obstruction)
}

// The cases of a matrix with lines. Lines are removed only if a first look does not show that none is reducible.
fn look_filled<R: Threads + Sync>(
    rt: &R,
    alloc: Global,
    node: &SearchedNode<'_>,
    obstruction: &Obstruction,
) -> Result<Seen, Memory>
    requires none { HasNoCaseBefore IsReducible node.now }
    requires known { IsKnown node.now.matrix.now obstruction.now }
    ensures { IfOk result (IsSeenAt node.now) }
{
    match first_look(alloc, node.submatrix)? {
        FirstLook::Irreducible => { look_irreducible(rt, alloc, node, obstruction) }
        FirstLook::Unclear => { look_unclear(rt, alloc, node, obstruction) }
    }
}

// The same if some line may be reducible.
fn look_unclear<R: Threads + Sync>(
    rt: &R,
    alloc: Global,
    node: &SearchedNode<'_>,
    obstruction: &Obstruction,
) -> Result<Seen, Memory>
    requires none { HasNoCaseBefore IsReducible node.now }
    requires known { IsKnown node.now.matrix.now obstruction.now }
    ensures { IfOk result (IsSeenAt node.now) }
{
    let reduction = reduce(alloc, node.submatrix.by_rows(), false)?;
    if reduction.steps.len() > 0 {
        return seen_reduced(alloc, node, &reduction);
    }
    look_irreducible(rt, alloc, node, obstruction)
}

// The removed lines and the other lines.
fn seen_reduced(
    alloc: Global,
    node: &SearchedNode<'_>,
    reduction: &Reduction,
) -> Result<Seen, Memory>
    requires none { HasNoCaseBefore IsReducible node.now }
    requires some { 0 < length reduction.now.steps }
    requires steps { reduction.now.steps ≡ (removal false (submatrix_of node.now)).steps }
    requires rest_rows { reduction.now.rest.rows
        ≡ (removal false (submatrix_of node.now)).rows }
    requires rest_columns { reduction.now.rest.columns
        ≡ (removal false (submatrix_of node.now)).columns }
    ensures { IfOk result (IsSeenAt node.now) }
{
    let steps = named_steps(alloc, node.lines, reduction.steps.as_slice())?;
    let rest = named_set(alloc, node.lines, &reduction.rest)?;
    above_one(alloc, Finding::Reduced(steps), rest)
}

// The cases of a matrix without reducible line.
fn look_irreducible<R: Threads + Sync>(
    rt: &R,
    alloc: Global,
    node: &SearchedNode<'_>,
    obstruction: &Obstruction,
) -> Result<Seen, Memory>
    requires none { HasNoCaseBefore IsApart node.now }
    requires known { IsKnown node.now.matrix.now obstruction.now }
    ensures { IfOk result (IsSeenAt node.now) }
{
    let parts = components_of(alloc, node.submatrix)?;
    if parts.len() >= 2 {
        return Ok(Seen {
            finding: Finding::OneSum,
            children: named_parts(alloc, node.lines, parts.as_slice())?,
        });
    }
    look_connected(rt, alloc, node, obstruction)
}

// The cases of a connected matrix without reducible line. If it has the lines of the obstruction, neither it nor its
// transpose is a network matrix.
fn look_connected<R: Threads + Sync>(
    rt: &R,
    alloc: Global,
    node: &SearchedNode<'_>,
    obstruction: &Obstruction,
) -> Result<Seen, Memory>
    requires none { HasNoCaseBefore IsNetwork node.now }
    requires known { IsKnown node.now.matrix.now obstruction.now }
    ensures { IfOk result (IsSeenAt node.now) }
{
    if obstruction.is_within(node.matrix, node.lines) {
        return look_no_network(rt, alloc, node);
    }
    look_tested(rt, alloc, node)
}

// The same by tests. If there must be a cycle fault, it is searched for.
fn look_tested<R: Threads + Sync>(
    rt: &R,
    alloc: Global,
    node: &SearchedNode<'_>,
) -> Result<Seen, Memory>
    requires none { HasNoCaseBefore IsNetwork node.now }
    ensures { IfOk result (IsSeenAt node.now) }
{
    let of_rows = orientation_of(alloc, node.submatrix.by_rows())?;
    if let Some(fault) = certain_fault(alloc, node.matrix, node.lines, node.submatrix, &of_rows)? {
        return Ok(leaf(alloc, Finding::Cycle(fault)));
    }
    if let Some(net) = of_rows.directed() {
        return Ok(leaf(alloc, Finding::Network(net)));
    }
    look_transposed(rt, alloc, node)
}

// The cases of a matrix that is not a network matrix.
fn look_transposed<R: Threads + Sync>(
    rt: &R,
    alloc: Global,
    node: &SearchedNode<'_>,
) -> Result<Seen, Memory>
    requires none { HasNoCaseBefore IsConetwork node.now }
    ensures { IfOk result (IsSeenAt node.now) }
{
    let of_columns = orientation_of(alloc, node.submatrix.by_columns())?;
    let fault = certain_fault_transposed(
        alloc,
        node.matrix,
        node.lines,
        node.submatrix,
        &of_columns,
    )?;
    if let Some(fault) = fault {
        return Ok(leaf(alloc, Finding::Cycle(fault)));
    }
    if let Some(net) = of_columns.directed() {
        return Ok(leaf(alloc, Finding::Conetwork(net)));
    }
    look_no_network(rt, alloc, node)
}

// The cases of a matrix if neither it nor its transpose is a network matrix.
fn look_no_network<R: Threads + Sync>(
    rt: &R,
    alloc: Global,
    node: &SearchedNode<'_>,
) -> Result<Seen, Memory>
    requires none { HasNoCaseBefore IsR10Matrix node.now }
    ensures { IfOk result (IsSeenAt node.now) }
{
    if is_r10(node.submatrix.by_rows()) {
        return look_r10(alloc, node);
    }
    look_separated(rt, alloc, node)
}

// An R10 matrix, which has a violator only if it has a cycle fault.
fn look_r10(alloc: Global, node: &SearchedNode<'_>) -> Result<Seen, Memory>
    requires none { HasNoCaseBefore IsR10Matrix node.now }
    requires r10 { IsR10 (submatrix_of node.now) }
    ensures { IfOk result (IsSeenAt node.now) }
{
    if let Some(fault) = fault_from(alloc, node.matrix, node.lines, node.submatrix, 0)? {
        return Ok(leaf(alloc, Finding::Cycle(fault)));
    }
    Ok(leaf(alloc, Finding::R10))
}

// The cases of a matrix that is not R10, if neither it nor its transpose is a network matrix.
fn look_separated<R: Threads + Sync>(
    rt: &R,
    alloc: Global,
    node: &SearchedNode<'_>,
) -> Result<Seen, Memory>
    requires none { HasNoCaseBefore IsTwoSum node.now }
    ensures { IfOk result (IsSeenAt node.now) }
{
    if let Some(two) = two_separation_of(alloc, node.submatrix)? {
        return seen_two(alloc, node, &two);
    }
    if let Some(fault) = fault_from(alloc, node.matrix, node.lines, node.submatrix, 0)? {
        return Ok(leaf(alloc, Finding::Cycle(fault)));
    }
    look_faultless(rt, alloc, node)
}

// The cases of a matrix without two-separation and without cycle fault.
fn look_faultless<R: Threads + Sync>(
    rt: &R,
    alloc: Global,
    node: &SearchedNode<'_>,
) -> Result<Seen, Memory>
    requires none { HasNoCaseBefore IsThreeSum node.now }
    requires faultless { HasNoCycleFault (entry (submatrix_of node.now)) }
    ensures { IfOk result (IsSeenAt node.now) }
{
    if let Some(three) = three_separation_of(alloc, node.submatrix)? {
        return seen_three(alloc, node, &three);
    }
    look_last(rt, alloc, node)
}

// A two-separation, and the lines of the children.
fn seen_two(alloc: Global, node: &SearchedNode<'_>, found: &Two) -> Result<Seen, Memory>
    requires none { HasNoCaseBefore IsTwoSum node.now }
    requires found { IsFirstTwoSeparation (submatrix_of node.now) found.now }
    ensures { IfOk result (IsSeenAt node.now) }
{
    let two = named_two(alloc, node.lines, found)?;
    let one = two_one(alloc, node.lines, &two)?;
    let other = two_two(alloc, node.lines, &two)?;
    above_two(alloc, Finding::TwoSum(two), one, other)
}

// A three-separation, and the lines of the children.
fn seen_three(alloc: Global, node: &SearchedNode<'_>, found: &Three) -> Result<Seen, Memory>
    requires none { HasNoCaseBefore IsThreeSum node.now }
    requires faultless { HasNoCycleFault (entry (submatrix_of node.now)) }
    requires found { IsFirstThreeSeparation (submatrix_of node.now) found.now }
    ensures { IfOk result (IsSeenAt node.now) }
{
    let three = named_three(alloc, node.lines, found)?;
    let one = three_one(alloc, node.lines, &three)?;
    let other = three_two(alloc, node.lines, &three)?;
    above_two(alloc, Finding::ThreeSum(three), one, other)
}

// The cases of a matrix without separation.
fn look_last<R: Threads + Sync>(
    rt: &R,
    alloc: Global,
    node: &SearchedNode<'_>,
) -> Result<Seen, Memory>
    requires none { HasNoCaseBefore IsShort node.now }
    requires faultless { HasNoCycleFault (entry (submatrix_of node.now)) }
    ensures { IfOk result (IsSeenAt node.now) }
{
    let finding = match least_violator_of(
        rt,
        alloc,
        node.submatrix,
        node.limits.lines(),
        node.limits.workers(),
    )? {
        LeastSubmatrix::Found(found) => Finding::Violator(named_set(alloc, node.lines, &found)?),
        LeastSubmatrix::Clean => Finding::Enumerated,
        LeastSubmatrix::TooMany { .. } => Finding::Undecided,
    };
    Ok(leaf(alloc, finding))
}
