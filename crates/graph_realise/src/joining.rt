// The tree of all rows from the trees of a row with each part.
ghost use Rattle.std.specs.Prelude.{◌≡◌, ◌≢◌, ◌<◌, ◌==◌, ◌&&◌, ◌||◌, not, ltb, ℕ, false, Some, None, length};
ghost use Rattle.cmr_base.specs.Cuts.{differ};
ghost use Rattle.cmr_base.specs.LineSets.{AllBelow};
ghost use Rattle.cmr_base.specs.Matrix.{height};
ghost use Rattle.cmr_base.specs.Members.{IsIn};
ghost use Rattle.cmr_base.specs.Trees.{support};
ghost use Rattle.graph_realise.specs.Joints.{AreChosen, AreHung, FitsJoint, FitsMatrix, IsArcJoined, IsClearBeside, IsLineFor, hanging_of, is_at_first, is_used, number_at};
ghost use Rattle.graph_realise.specs.Merging.{spot};
ghost use Rattle.graph_realise.specs.SideTables.{AreTablesOf, IsArcChanged, KeepsOtherArcs, KeepsOutside, side_in, end_in};
ghost use Rattle.graph_realise.specs.BitTables.{cell, AreChunksOf};

use crate::arc_sides::ArcSides;
use crate::branches::Branch;
use crate::joint::Joint;
use cmr_base::{Indices, Matrix};

/// Joins the trees of the row with each part. The arcs of a part are reversed so that the row's arc is on their side `false`.
pub fn join(matrix: &Matrix, rows: &Indices, joint: &Joint, sides: &mut ArcSides)
    requires rows { AllBelow (height matrix.now) rows.now }
    requires joint { FitsMatrix matrix.now joint.now }
    requires numbered { (r : ℕ) → IsIn r rows.now → r ≢ joint.now.row
        → number_at joint.now.part_of.items r ≢ None }
    requires tables { AreTablesOf matrix.now sides.old }
    requires clear { (r : ℕ) → IsIn r rows.now → r ≢ joint.now.row
        → IsClearBeside (support matrix.now) joint.now sides.old r }
    ensures tables { AreTablesOf matrix.now sides.new }
    ensures joined { (r : ℕ) → IsIn r rows.now
        → IsArcJoined (support matrix.now) joint.now sides.old sides.new r }
    ensures others { KeepsOutside sides.old sides.new rows.now }
{
    for arc in rows.as_slice() {
        if *arc == joint.row {
            join_row(matrix, joint, sides);
        } else {
            join_arc(matrix, joint, *arc, sides);
        }
    }
}

// The arc of the row itself. Its side `true` has the parts at its first end and the first ends of its columns.
fn join_row(matrix: &Matrix, joint: &Joint, sides: &mut ArcSides)
    requires joint { FitsMatrix matrix.now joint.now }
    requires tables { AreTablesOf matrix.now sides.old }
    ensures tables { AreTablesOf matrix.now sides.new }
    ensures joined { IsArcJoined (support matrix.now) joint.now sides.old sides.new joint.now.row }
    ensures others { KeepsOtherArcs sides.old sides.new joint.now.row }
{
    clear_arc(joint.row, sides);
    add_parts_at_first(matrix, joint, sides);
    add_first_ends(matrix, joint, sides);
}

fn clear_arc(arc: u32, sides: &mut ArcSides)
    requires arcs { arc < sides.old.arcs.height }
    requires first { arc < sides.old.first.height }
    requires last { arc < sides.old.last.height }
    requires wide { sides.old.last.width ≡ sides.old.first.width }
    ensures { IsArcChanged (λ other. false) (λ end column. false) sides.old sides.new arc }
{
    sides.arcs.clear(arc);
    sides.first.clear(arc);
    sides.last.clear(arc);
}

// Puts the parts at the first end of the row's arc on its side `true`.
fn add_parts_at_first(matrix: &Matrix, joint: &Joint, sides: &mut ArcSides)
    requires joint { FitsJoint (height matrix.now) matrix.now.width joint.now }
    requires tables { AreTablesOf matrix.now sides.old }
    ensures { AreChosen joint.now (is_at_first joint.now) joint.now.row
        (length joint.now.branches.items) sides.old sides.new }
{
    let _rows = matrix.rows();
    for part in 0..joint.branches.len() {
        if joint.branches[part].end {
            add_part(joint, joint.row, part, sides);
        }
    }
}

// Puts the first ends of the row's columns on the side `true` of its arc.
fn add_first_ends(matrix: &Matrix, joint: &Joint, sides: &mut ArcSides)
    requires row { joint.now.row < height matrix.now }
    requires chunks { AreChunksOf (support matrix.now joint.now.row) matrix.now.width
        joint.now.row_chunks }
    requires tables { AreTablesOf matrix.now sides.old }
    ensures { IsArcChanged
        (λ other. side_in sides.old joint.now.row other)
        (λ end column. end_in sides.old end joint.now.row column
        || (end && support matrix.now joint.now.row column))
        sides.old sides.new joint.now.row }
{
    let row = joint.row;
    let chunks = joint.row_chunks.as_slice();
    sides.first.add_common(row, matrix, row, row, chunks);
}

// The arc of another row. It keeps its sides within its part. Each other part lies on the side on which it hangs.
fn join_arc(matrix: &Matrix, joint: &Joint, arc: u32, sides: &mut ArcSides)
    requires arc { arc < height matrix.now }
    requires other { arc ≢ joint.now.row }
    requires part { number_at joint.now.part_of.items arc ≢ None }
    requires joint { FitsMatrix matrix.now joint.now }
    requires tables { AreTablesOf matrix.now sides.old }
    requires clear { IsClearBeside (support matrix.now) joint.now sides.old arc }
    ensures tables { AreTablesOf matrix.now sides.new }
    ensures joined { IsArcJoined (support matrix.now) joint.now sides.old sides.new arc }
    ensures others { KeepsOtherArcs sides.old sides.new arc }
{
    if let Some(own) = joint.part_of[arc as usize] {
        let is_reversed = sides.arcs.get(arc, joint.row);
        keep_part(matrix, joint, arc, own, is_reversed, sides);
        add_hung(matrix, joint, arc, own, sides);
        add_used(matrix, joint, arc, own, sides);
    }
}

// Keeps the sides of an arc for its own part, reversed or not, and clears the rest.
fn keep_part(
    matrix: &Matrix,
    joint: &Joint,
    arc: u32,
    own: usize,
    is_reversed: bool,
    sides: &mut ArcSides,
)
    requires row { joint.now.row < height matrix.now }
    requires own { number_at joint.now.part_of.items arc ≡ Some own }
    requires joint { FitsMatrix matrix.now joint.now }
    requires tables { AreTablesOf matrix.now sides.old }
    requires line { IsLineFor joint.now sides.old arc own }
    requires reversed { is_reversed ≡ side_in sides.old arc joint.now.row }
    requires clear { IsClearBeside (support matrix.now) joint.now sides.old arc }
    ensures { IsArcChanged
        (λ other. cell joint.now.row_marks own other
        && differ is_reversed (side_in sides.old arc other))
        (λ end column. cell joint.now.column_marks own column
        && differ is_reversed (end_in sides.old end arc column))
        sides.old sides.new arc }
{
    if is_reversed {
        reverse_part(joint, arc, own, sides);
    } else {
        let chunks = joint.row_chunks.as_slice();
        sides.first.take_out(arc, matrix, joint.row, chunks);
        sides.last.take_out(arc, matrix, joint.row, chunks);
    }
}

// Reverses the sides of an arc for its own part, and clears the rest.
fn reverse_part(joint: &Joint, arc: u32, own: usize, sides: &mut ArcSides)
    requires { IsLineFor joint.now sides.old arc own }
    ensures { IsArcChanged
        (λ other. cell joint.now.row_marks own other && not (side_in sides.old arc other))
        (λ end column. cell joint.now.column_marks own column
        && not (end_in sides.old end arc column))
        sides.old sides.new arc }
{
    let line = own as u32;
    sides.arcs.reverse(arc, &joint.row_marks, line);
    sides.first.reverse(arc, &joint.column_marks, line);
    sides.last.reverse(arc, &joint.column_marks, line);
}

// Puts each other part that hangs on the side `true` of an arc on this side.
fn add_hung(matrix: &Matrix, joint: &Joint, arc: u32, own: usize, sides: &mut ArcSides)
    requires arc { arc < height matrix.now }
    requires own { number_at joint.now.part_of.items arc ≡ Some own }
    requires joint { FitsJoint (height matrix.now) matrix.now.width joint.now }
    requires tables { AreTablesOf matrix.now sides.old }
    ensures { AreHung (support matrix.now) joint.now arc own (length joint.now.branches.items)
        sides.old sides.new }
{
    for part in 0..joint.branches.len() {
        if hangs(matrix, joint, arc, own, part) {
            add_part(joint, arc, part, sides);
        }
    }
}

// Whether another part hangs on the side `true` of an arc of part `own`.
fn hangs(matrix: &Matrix, joint: &Joint, arc: u32, own: usize, part: usize) -> bool
    requires arc { arc < height matrix.now }
    requires own { number_at joint.now.part_of.items arc ≡ Some own }
    requires part { part < length joint.now.branches.items }
    requires joint { FitsJoint (height matrix.now) matrix.now.width joint.now }
    ensures { result ≡ (not (part == own)
        && spot (support matrix.now) joint.now.row (hanging_of joint.now) arc part) }
{
    part != own && side_of_other(matrix, joint, arc, own, part)
}

// Puts a part on the side `true` of an arc.
fn add_part(joint: &Joint, arc: u32, part: usize, sides: &mut ArcSides)
    requires { IsLineFor joint.now sides.old arc part }
    ensures { IsArcChanged
        (λ other. side_in sides.old arc other || cell joint.now.row_marks part other)
        (λ end column. end_in sides.old end arc column || cell joint.now.column_marks part column)
        sides.old sides.new arc }
{
    let line = part as u32;
    sides.arcs.add(arc, &joint.row_marks, line);
    sides.first.add(arc, &joint.column_marks, line);
    sides.last.add(arc, &joint.column_marks, line);
}

// Puts one end of each column that the row and the arc have in common on the side `true` of the arc: the end that lies on the
// part's side of the row's arc.
fn add_used(matrix: &Matrix, joint: &Joint, arc: u32, own: usize, sides: &mut ArcSides)
    requires arc { arc < height matrix.now }
    requires own { own < length joint.now.branches.items }
    requires row { joint.now.row < height matrix.now }
    requires chunks { AreChunksOf (support matrix.now joint.now.row) matrix.now.width
        joint.now.row_chunks }
    requires tables { AreTablesOf matrix.now sides.old }
    ensures { IsArcChanged (λ other. side_in sides.old arc other)
        (is_used (support matrix.now) joint.now arc own sides.old) sides.old sides.new arc }
{
    let chunks = joint.row_chunks.as_slice();
    if joint.branches[own].end {
        sides.first.add_common(arc, matrix, arc, joint.row, chunks);
    } else {
        sides.last.add_common(arc, matrix, arc, joint.row, chunks);
    }
}

// The side of an arc of part `own` on which another part hangs.
fn side_of_other(matrix: &Matrix, joint: &Joint, arc: u32, own: usize, other: usize) -> bool
    requires arc { arc < height matrix.now }
    requires own { number_at joint.now.part_of.items arc ≡ Some own }
    requires other { other < length joint.now.branches.items }
    requires joint { FitsJoint (height matrix.now) matrix.now.width joint.now }
    ensures { result ≡ spot (support matrix.now) joint.now.row (hanging_of joint.now) arc other }
{
    let own_branch = joint.branches[own];
    let other_branch = joint.branches[other];
    if own_branch.end != other_branch.end {
        return false;
    }
    if !is_above(own_branch, own, other_branch, other) {
        return false;
    }
    match other_branch.common {
        Some(column) => matrix.is_nonzero(arc, column),
        None => false,
    }
}

// Whether part `own` is heavier than the other part, or as heavy with a greater number.
fn is_above(own_branch: Branch, own: usize, other_branch: Branch, other: usize) -> bool
    ensures { result ≡ (ltb other_branch.weight own_branch.weight
        || other_branch.weight == own_branch.weight && ltb other own) }
{
    other_branch.weight < own_branch.weight
        || (other_branch.weight == own_branch.weight && other < own)
}
