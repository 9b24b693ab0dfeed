// Finds groups of lines that no cut separates, one after another.
ghost use Rattle.std.specs.Prelude.{◌≡◌, true, IfOk, OnOk, MatchOption};
ghost use Rattle.cmr_base.specs.Components.{IsLineOf};
ghost use Rattle.cmr_base.specs.LineMasks.{as_set, IsMaskOf};
ghost use Rattle.cmr_base.specs.declared.line.Line.{Line};
ghost use Rattle.cuts.specs.Covers.{AreOnOneSide};
ghost use Rattle.cuts.specs.LineCuts.{HasNames, HoldTogether, IsCut};
ghost use Rattle.cuts.specs.Finders.{AreFound};

use crate::cut_search::CutSearch;
use crate::groups::Groups;
use crate::next_line::next_line;
use crate::rest::add_rest;
use crate::sides::Side;
use cmr_base::{Line, LineMask, Memory, RowsAndColumns};
use std::alloc::Global;

/// The search examines at most this number of states for each line of the matrix, in total.
const STATES_OF_A_LINE: u32 = 10;

/// A group with fewer lines is small. The search ends after `SMALL_GROUPS` small groups.
const SMALL: u32 = 8;

const SMALL_GROUPS: u32 = 8;

/// Finds groups of lines that no cut separates.
pub fn groups_of(alloc: Global, matrix: &RowsAndColumns<'_>) -> Result<Groups, Memory>
    ensures names { IfOk result (HasNames matrix.now) }
    ensures together { IfOk result (HoldTogether (IsCut matrix.now) matrix.now) }
{
    let mut finder = GroupFinder::new(alloc, matrix)?;
    for _line in 0..matrix.rows() + matrix.columns() {
        match finder.next(alloc, matrix)? {
            None => return Ok(finder.groups),
            Some(line) => finder.take(alloc, matrix, line)?,
        }
    }
    Ok(finder.groups)
}

// The groups found so far, their lines, the name and the size of the largest group, the number of small groups, and the number
// of states that the search may still examine.
#[derive(Drop)]
struct GroupFinder {
    groups: Groups,
    taken: LineMask,
    largest: u32,
    size: u32,
    small: u32,
    states: u32,
}

impl GroupFinder {
    fn new(alloc: Global, matrix: &RowsAndColumns<'_>) -> Result<GroupFinder, Memory>
        ensures { IfOk result (AreFound matrix.now) }
    {
        let rows = matrix.rows();
        let columns = matrix.columns();
        Ok(GroupFinder {
            groups: Groups::new(alloc, rows, columns)?,
            taken: LineMask::new(alloc, rows, columns)?,
            largest: 0,
            size: 0,
            small: 0,
            states: STATES_OF_A_LINE * (rows + columns),
        })
    }

    // A line that is in no group so far, unless enough groups are found.
    fn next(&self, alloc: Global, matrix: &RowsAndColumns<'_>) -> Result<Option<Line>, Memory>
        requires { AreFound matrix.now self.now }
        ensures { IfOk result (λ found. MatchOption found (Unit {0}) (IsLineOf matrix.now)) }
    {
        if self.small >= SMALL_GROUPS || self.states == 0 {
            return Ok(None);
        }
        let none = LineMask::new(alloc, matrix.rows(), matrix.columns())?;
        Ok(next_line(matrix, &none, &self.taken, &self.taken))
    }

    // Takes the group of a line.
    fn take(&mut self, alloc: Global, matrix: &RowsAndColumns<'_>, line: Line) -> Result<(), Memory>
        requires found { AreFound matrix.now self.old }
        requires line { IsLineOf matrix.now line }
        ensures { OnOk result (AreFound matrix.now self.new) }
    {
        let mut search = CutSearch {
            matrix,
            separated: self.taken.copied(alloc)?,
            states: self.states,
        };
        let own = self.groups.name(matrix.rows(), line);
        let name = if self.size == 0 { own } else { self.largest };
        if is_covered(alloc, &self.groups, line, name, &mut search)? {
            self.groups.rename(line, &search.separated);
            add_rest(&mut self.taken, &search.separated);
            self.note(own, search.separated.count_others());
        } else {
            self.taken.insert(line);
            self.small = self.small.saturating_add(1);
        }
        self.states = search.states;
        Ok(())
    }

    // Records the name and the size of a group.
    fn note(&mut self, name: u32, size: u32)
        ensures groups { self.new.groups ≡ self.old.groups }
        ensures taken { self.new.taken ≡ self.old.taken }
    {
        if size > self.size {
            self.largest = name;
            self.size = size;
        }
        if size < SMALL {
            self.small = self.small.saturating_add(1);
        }
    }
}

// Whether all lines that some cut separates from a line are marked. The search puts the group with a name into side one first,
// and then into side two.
fn is_covered(
    alloc: Global,
    groups: &Groups,
    line: Line,
    name: u32,
    search: &mut CutSearch<'_>,
) -> Result<bool, Memory>
    requires names { HasNames search.old.matrix.now groups.now }
    requires together { HoldTogether (IsCut search.old.matrix.now) search.old.matrix.now
        groups.now }
    requires line { IsLineOf search.old.matrix.now line }
    ensures same { search.new.matrix ≡ search.old.matrix }
    ensures one_side { IfOk result (λ covered. covered ≡ true
        → AreOnOneSide search.old.matrix.now line (as_set search.new.separated)) }
{
    let matrix = search.matrix;
    let depth = matrix.rows() + matrix.columns() + 2;
    let nothing = Side::empty(alloc, matrix)?;
    let first = nothing.with_line(alloc, matrix, line)?;
    let group = groups.lines(alloc, matrix.rows(), matrix.columns(), name)?;
    let more = first.grown(alloc, matrix, &group)?;
    if !search.search(alloc, &more, &nothing, depth)? {
        return Ok(false);
    }
    let second = nothing.grown(alloc, matrix, &group)?;
    search.search(alloc, &first, &second, depth)
}
