// What the removal of a line changes on its own side and on the other side.
ghost use Rattle.std.specs.Prelude.{◌≡◌, ◌<◌, ℕ, false, length, slice_index, slice_index_or, IfSome, IfNone};
ghost use Rattle.std.specs.List.{remove};
ghost use Rattle.cmr_base.specs.Matrix.{IsMatrix};
ghost use Rattle.sp_reduce.specs.LineKinds.{cross_size};
ghost use Rattle.sp_reduce.specs.StayingSides.{IsParallel, IsSide, IsAcross, AreNonzerosCounted, IsSettled};
ghost use Rattle.sp_reduce.specs.Changes.{WasRightBefore, IsRemovedAt, IsHeld, IsHeldAt, HasForgotten, IsSameAt, IsForgetting, IsUnsettled};

use crate::kind::{index_of_line, is_minus, is_nonzero};
use crate::side::StayingLines;
use crate::tallies::weight;
use cmr_base::{Matrix, Reason};

impl StayingLines {
    // Updates the side after a crossing line was removed for a reason. `across` are the crossing lines that remain.
    pub fn renew(
        &mut self,
        matrix: &Matrix,
        removed: u32,
        reason: Reason,
        across: &[u32],
        binary: bool,
    )
        requires shape { IsMatrix matrix.now }
        requires side { IsSide matrix.now self.old }
        requires before { WasRightBefore binary matrix.now self.old across.now removed reason }
        ensures kind { self.new.kind ≡ self.old.kind }
        ensures stays { self.new.stays.items ≡ self.old.stays.items }
        ensures side { IsSide matrix.now self.new }
        ensures counted { AreNonzerosCounted matrix.now self.new across.now }
        ensures settled { IsSettled binary matrix.now self.new across.now }
    {
        self.forget(matrix, removed);
        if let Reason::Unit(line) = reason {
            if let Some(place) = self.place_of(index_of_line(line)) {
                self.unsettle(matrix, place, across, binary);
            }
        }
    }

    fn place_of(&self, line: u32) -> Option<usize>
        ensures some { IfSome result (λ place. (place < length self.now.stays.items)
            × (slice_index self.now.stays.items place ≡ line)) }
        ensures none { IfNone result ((at : ℕ) → at < length self.now.stays.items
            → slice_index self.now.stays.items at ≡ line → ⊥) }
    {
        self.stays.iter().position(|other| *other == line)
    }

    // Removes the line at a position.
    pub fn remove(&mut self, place: usize) -> u32
        requires place { place < length self.old.stays.items }
        requires parallel { IsParallel self.old }
        ensures line { result ≡ slice_index self.old.stays.items place }
        ensures cut { IsRemovedAt place self.old self.new }
    {
        self.counts.remove(place);
        self.sums.remove(place);
        self.minus_sums.remove(place);
        self.settled.remove(place);
        self.stays.remove(place)
    }

    // Updates the counts and the sums for a crossing line that is removed.
    pub fn forget(&mut self, matrix: &Matrix, removed: u32)
        requires shape { IsMatrix matrix.now }
        requires side { IsSide matrix.now self.old }
        requires removed { removed < cross_size matrix.now self.old.kind }
        requires held { IsHeld matrix.now self.old removed }
        ensures forgetting { IsForgetting matrix.now self.old self.new removed }
    {
        'places: for place in 0..self.stays.len() {
            self.forget_at(matrix, place, removed);
        }
    }

    fn forget_at(&mut self, matrix: &Matrix, place: usize, removed: u32)
        requires shape { IsMatrix matrix.now }
        requires side { IsSide matrix.now self.old }
        requires removed { removed < cross_size matrix.now self.old.kind }
        requires place { place < length self.old.stays.items }
        requires held { IsHeldAt matrix.now self.old removed place }
        ensures same { self.new ≡ record self.old {
          counts = self.new.counts;
          sums = self.new.sums;
          minus_sums = self.new.minus_sums;
          settled = self.new.settled;
        } }
        ensures parallel { IsParallel self.new }
        ensures here { HasForgotten matrix.now self.old self.new removed place }
        ensures others { (at : ℕ) → (at ≡ place → ⊥) → IsSameAt self.old self.new at }
    {
        if is_nonzero(matrix, self.kind, self.stays[place], removed) {
            self.counts[place] -= 1;
            self.sums[place] -= weight(removed);
            if is_minus(matrix, self.kind, self.stays[place], removed) {
                self.minus_sums[place] -= weight(removed);
            }
            if self.counts[place] <= 1 {
                self.settled[place] = false;
            }
        }
    }

    // The line at a position has changed: it and its twins are no longer settled.
    pub fn unsettle(&mut self, matrix: &Matrix, changed: usize, across: &[u32], binary: bool)
        requires side { IsSide matrix.now self.old }
        requires across { IsAcross matrix.now self.old.kind across.now }
        requires counted { AreNonzerosCounted matrix.now self.old across.now }
        requires changed { changed < length self.old.stays.items }
        ensures same { self.new ≡ record self.old { settled = self.new.settled } }
        ensures long { length self.new.settled.items ≡ length self.old.stays.items }
        ensures unsettled { (at : ℕ) → at < length self.old.stays.items
            → IsUnsettled binary matrix.now self.old self.new across.now changed at }
    {
        'places: for place in 0..self.stays.len() {
            self.unsettle_at(matrix, changed, place, across, binary);
        }
    }

    fn unsettle_at(
        &mut self,
        matrix: &Matrix,
        changed: usize,
        place: usize,
        across: &[u32],
        binary: bool,
    )
        requires side { IsSide matrix.now self.old }
        requires across { IsAcross matrix.now self.old.kind across.now }
        requires counted { AreNonzerosCounted matrix.now self.old across.now }
        requires changed { changed < length self.old.stays.items }
        requires place { place < length self.old.stays.items }
        ensures same { self.new ≡ record self.old { settled = self.new.settled } }
        ensures long { length self.new.settled.items ≡ length self.old.stays.items }
        ensures here { IsUnsettled binary matrix.now self.old self.new across.now changed place }
        ensures others { (at : ℕ) → (at ≡ place → ⊥)
            → slice_index_or self.new.settled.items at false
            ≡ slice_index_or self.old.settled.items at false }
    {
        if self.settled[place] {
            self.settled[place] = place != changed
                && !self.are_twins(matrix, changed, place, across, binary);
        }
    }
}
