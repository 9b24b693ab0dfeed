// The first pass: drafts of trees, without the late search for cycle faults.
ghost use Rattle.std.specs.Prelude.{◌≡◌, ◌≤◌, ◌++◌, ◌∷◌, ◌&&◌, [], map, IfOk, OnOk};
ghost use Rattle.std.specs.List.{list_all};
ghost use Rattle.cmr_base.specs.Matrix.{IsMatrix};
ghost use Rattle.tree_type.specs.Invariant.{AreLines};
ghost use Rattle.tree_type.specs.Findings.{finding_shown};
ghost use Rattle.decomp_tree.specs.Seen.{keeps_free};
ghost use Rattle.decomp_tree.specs.Openings.{IsOpeningOf};
ghost use Rattle.decomp_tree.specs.Obstructions.{IsKnown};
ghost use Rattle.decomp_tree.specs.Sketches.{Sketched, sketch_of, sketches_from, is_free_in, lines_of_sketch, IsDrafted, HasOneMoreDraft};

use crate::fault_rows::{FaultRows, fault_rows};
use crate::faults::keeps_free;
use crate::looking::look;
use crate::obstructions::{MORE_LINES, Obstruction};
use crate::search_limits::SearchLimits;
use crate::seen::Seen;
use cmr_base::{LineSet, LineSetList, Memory, RowsAndColumns};
use std::alloc::Global;
use std::thread::Threads;
use tree_type::{Finding, copy_of};

/// The finding of a node, before its children are drafted.
#[derive(Drop)]
pub struct Opening {
    pub lines: LineSet,
    pub finding: Finding,
    pub children: LineSetList,
}

/// A node with its children, before the late search for cycle faults.
#[derive(Drop)]
#[cycle(tree)]
pub struct Draft {
    pub opening: Box<Opening>,
    pub children: Vec<Draft>,
    /// Whether its lines are known to contain no violator.
    pub is_free: bool,
    /// The last rows of a cycle fault that it or a draft below it names, if there is one.
    pub fault_rows: Option<FaultRows>,
}

/// The draft of the submatrix on these lines.
pub fn draft_root<R: Threads + Sync>(
    rt: &R,
    alloc: Global,
    matrix: &RowsAndColumns<'_>,
    lines: &LineSet,
    limits: SearchLimits,
) -> Result<Draft, Memory>
    requires shape { IsMatrix matrix.now }
    requires lines { AreLines matrix.now lines.now }
    ensures lines { IfOk result (λ drawn. lines_of_sketch (sketch_of drawn) ≡ lines.now) }
    ensures drafted { IfOk result (λ drawn. IsDrafted limits.lines matrix.now (sketch_of drawn)) }
{
    let mut drafts = Vec::new(alloc);
    let unknown = Obstruction::unknown(matrix.by_rows());
    draw(rt, alloc, matrix, lines, &unknown, limits, &mut drafts)?;
    let Some(drawn) = drafts.pop() else {
        unreachable!()
    };
    Ok(drawn)
}

/// Drafts the submatrix on these lines, with a known obstruction, and appends the draft. Each child has fewer lines, so no
/// node is deeper than the number of lines. The recursion uses the ordinary stack; large values are on the heap.
pub fn draw<R: Threads + Sync>(
    rt: &R,
    alloc: Global,
    matrix: &RowsAndColumns<'_>,
    lines: &LineSet,
    obstruction: &Obstruction,
    limits: SearchLimits,
    drafts: &mut Vec<Draft>,
) -> Result<(), Memory>
    requires shape { IsMatrix matrix.now }
    requires lines { AreLines matrix.now lines.now }
    requires known { IsKnown matrix.now obstruction.now }
    requires sought { obstruction.now.sought ≤ MORE_LINES }
    ensures { OnOk result (HasOneMoreDraft limits.lines matrix.now lines.now
        (map sketch_of drafts.old.items) (map sketch_of drafts.new.items)) }
{
    let opening = opening_of(rt, alloc, matrix, lines, obstruction, limits)?;
    let mut children = Vec::new(alloc);
    for child in opening.children.as_slice() {
        let known = obstruction.in_child(alloc, matrix.by_rows(), &opening.finding, child)?;
        draw(rt, alloc, matrix, child, &known, limits, &mut children)?;
    }
    push_draft(alloc, opening, children, drafts)?;
    Ok(())
}

#[inline(never)]
fn opening_of<R: Threads + Sync>(
    rt: &R,
    alloc: Global,
    matrix: &RowsAndColumns<'_>,
    lines: &LineSet,
    obstruction: &Obstruction,
    limits: SearchLimits,
) -> Result<Box<Opening>, Memory>
    requires shape { IsMatrix matrix.now }
    requires lines { AreLines matrix.now lines.now }
    requires known { IsKnown matrix.now obstruction.now }
    ensures { IfOk result (λ opening. IsOpeningOf limits.lines matrix.now lines.now opening.value) }
{
    let Seen { finding, children } = look(rt, alloc, matrix, lines, obstruction, limits)?;
    let opening = Opening {
        lines: copy_of(alloc, lines)?,
        finding,
        children,
    };
    Ok(Box::new(alloc, opening)?)
}

// A node whose finding keeps free is free if all its children are.
#[inline(never)]
fn push_draft(
    alloc: Global,
    opening: Box<Opening>,
    children: Vec<Draft>,
    drafts: &mut Vec<Draft>,
) -> Result<(), Memory>
    ensures { OnOk result (map sketch_of drafts.new.items
        ≡ map sketch_of drafts.old.items
        ++ Sketched opening.value
        (keeps_free (finding_shown opening.value.finding) && list_all is_free_in children.items)
        (sketches_from (map sketch_of children.items))
        ∷ []) }
{
    let is_free = keeps_free(&opening.finding) && are_free(children.as_slice());
    let fault_rows = fault_rows(&opening.finding, children.as_slice());
    drafts.push(Draft {
        opening,
        children,
        is_free,
        fault_rows,
    })?;
    Ok(())
}

fn are_free(drafts: &[Draft]) -> bool
    ensures { result ≡ list_all is_free_in drafts.now }
{
    drafts.iter().all(|draft| draft.is_free)
}
