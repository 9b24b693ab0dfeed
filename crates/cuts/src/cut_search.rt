// Searches for the lines that cuts separate from given lines of side one.
ghost use Rattle.std.specs.Prelude.{◌≡◌, IfOk};
ghost use Rattle.cmr_base.specs.LineMasks.{IsMaskOf};
ghost use Rattle.cuts.specs.CutSearches.{HaveNumbers, HasMarked};

use crate::LEAST_SIDE;
use crate::line_patterns::LinePatterns;
use crate::next_line::next_line;
use crate::rest::{add_rest, has_rest};
use crate::sides::Side;
use cmr_base::{LineMask, Memory, RowsAndColumns};
use std::alloc::Global;

/// Class 0 has many lines if more than one line in `MANY_ZEROS` has it.
const MANY_ZEROS: u32 = 2;

/// A matrix, the lines that cuts may separate from the first lines of the search, and the number of states that the search may
/// still examine.
#[derive(Drop)]
pub struct CutSearch<'a> {
    pub matrix: &'a RowsAndColumns<'a>,
    pub separated: LineMask,
    pub states: u32,
    ghost size: { IsMaskOf matrix.now separated },
}

impl<'a> CutSearch<'a> {
    /// Marks the lines of side two of each cut that has the lines of `one` in side one and the lines of `two` in side two.
    /// Returns `false` if it gives up, since no depth or no states are left.
    #[cycle(search)]
    pub fn search(
        &mut self,
        alloc: Global,
        one: &Side,
        two: &Side,
        depth: u32,
    ) -> Result<bool, Memory>
        requires { HaveNumbers self.old.matrix.now one.now two.now }
        ensures same { self.new.matrix ≡ self.old.matrix }
        ensures marked { IfOk result (HasMarked self.old.matrix.now one.now two.now
            self.old.separated self.new.separated) }
    {
        if one.meets(&two.lines) {
            return Ok(true);
        }
        if has_rest(&self.separated, &one.lines) {
            return Ok(true);
        }
        if depth == 0 || self.states == 0 {
            return Ok(false);
        }
        if let Some(more) = one.forced(alloc, self.matrix, &two.lines)? {
            return self.search(alloc, &more, two, depth - 1);
        }
        if let Some(more) = two.forced(alloc, self.matrix, &one.lines)? {
            return self.search(alloc, one, &more, depth - 1);
        }
        self.states -= 1;
        self.search_state(alloc, one, two, depth - 1)
    }

    // The same for a state in which no line is forced. The searches that it begins have this depth.
    #[cycle(search)]
    fn search_state(
        &mut self,
        alloc: Global,
        one: &Side,
        two: &Side,
        depth: u32,
    ) -> Result<bool, Memory>
        requires { HaveNumbers self.old.matrix.now one.now two.now }
        ensures same { self.new.matrix ≡ self.old.matrix }
        ensures marked { IfOk result (HasMarked self.old.matrix.now one.now two.now
            self.old.separated self.new.separated) }
    {
        let _shape = self.matrix.rows();
        let near = LinePatterns::of(alloc, one)?;
        if near.are_few() {
            return Ok(true);
        }
        if near.have_one_class() && one.lines.count() >= LEAST_SIDE {
            add_rest(&mut self.separated, &one.lines);
            return Ok(true);
        }
        let far = LinePatterns::of(alloc, two)?;
        if far.are_few() {
            return Ok(true);
        }
        self.search_halves(alloc, &near, &far, depth)
    }

    // The same by halves of the lines outside side one, or outside side two.
    #[cycle(search)]
    fn search_halves(
        &mut self,
        alloc: Global,
        near: &LinePatterns<'_>,
        far: &LinePatterns<'_>,
        depth: u32,
    ) -> Result<bool, Memory>
        requires { HaveNumbers self.old.matrix.now near.now.side.now far.now.side.now }
        ensures same { self.new.matrix ≡ self.old.matrix }
        ensures marked { IfOk result (HasMarked self.old.matrix.now near.now.side.now
            far.now.side.now self.old.separated self.new.separated) }
    {
        let one = near.side;
        let two = far.side;
        if let Some(halves) = near.halves(alloc, self.matrix, least_heap(near, far))? {
            if !self.search(alloc, &halves.one, two, depth)? {
                return Ok(false);
            }
            return self.search(alloc, &halves.other, two, depth);
        }
        if let Some(halves) = far.halves(alloc, self.matrix, 0)? {
            if !self.search(alloc, one, &halves.one, depth)? {
                return Ok(false);
            }
            return self.search(alloc, one, &halves.other, depth);
        }
        self.search_by_line(alloc, one, two, depth)
    }

    // The same with a line in side one, and then in side two.
    #[cycle(search)]
    fn search_by_line(
        &mut self,
        alloc: Global,
        one: &Side,
        two: &Side,
        depth: u32,
    ) -> Result<bool, Memory>
        requires { HaveNumbers self.old.matrix.now one.now two.now }
        ensures same { self.new.matrix ≡ self.old.matrix }
        ensures marked { IfOk result (HasMarked self.old.matrix.now one.now two.now
            self.old.separated self.new.separated) }
    {
        let matrix = self.matrix;
        let Some(line) = next_line(matrix, &one.lines, &two.lines, &self.separated) else {
            add_rest(&mut self.separated, &one.lines);
            return Ok(true);
        };
        let more_one = one.with_line(alloc, matrix, line)?;
        if !self.search(alloc, &more_one, two, depth)? {
            return Ok(false);
        }
        let more_two = two.with_line(alloc, matrix, line)?;
        self.search(alloc, one, &more_two, depth)
    }
}

// The number of lines that the lighter heap outside side one needs to be chosen. No heap is chosen if side two has no lines and
// many lines outside side one have class 0. In this case halves would be divided again and again, and a line in side two
// determines lines of side one at once.
fn least_heap(near: &LinePatterns<'_>, far: &LinePatterns<'_>) -> u32 {
    let (one, two) = (near.side, far.side);
    if two.lines.is_empty() && near.zeros() > one.lines.count_others() / MANY_ZEROS {
        u32::MAX
    } else {
        far.lighter()
    }
}
