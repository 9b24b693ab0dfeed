// The lines of one kind that remain, with the count, the two sums and the mark of each.
ghost use Rattle.std.specs.Prelude.{IfOk, Bool, ℕ, false, ◌≡◌, ◌≢◌, ◌<◌, ◌≤◌, length, slice_index, find, Some, None, MatchOption};
ghost use Rattle.std.specs.List.Sorted.{IsStrictlyIncreasing};
ghost use Rattle.cmr_base.specs.Matrix.{entry, is_nonzero, IsMatrix};
ghost use Rattle.cmr_base.specs.LineSets.{AllBelow};
ghost use Rattle.sp_reduce.specs.LineKinds.{count_of_kind, cross_size, table, reason_for, is_twin};
ghost use Rattle.sp_reduce.specs.StayingSides.{is_copy, is_negative, twin_reason, may_be_twins, may_be_copy, may_be_negative, IsAlone, IsParallel, IsSide, IsAcross, AreNonzerosCounted, IsSettled, IsFirstReducible, first_step_of};

use crate::kind::{LineKind, are_equal, are_opposite, is_nonzero};
use crate::tallies::Tallies;
use cmr_base::{Matrix, Memory, Reason};
use std::alloc::Global;

// Each remaining line has the count of its nonzeros in the remaining crossing lines, the sum of the weights of these
// crossing lines, and the sum of the weights of the crossing lines in which its entry is -1. Copies have the same two sums.
// A line and its negative have the same sum, and their sums of the entries -1 add up to it. A settled line is not reducible.
#[derive(Debug, Drop)]
pub struct StayingLines {
    pub kind: LineKind,
    pub stays: Vec<u32>,
    pub counts: Vec<u32>,
    pub sums: Vec<u64>,
    pub minus_sums: Vec<u64>,
    pub settled: Vec<bool>,
}

// The first reducible line, by its position among the remaining lines.
#[derive(Clone, Copy, Debug)]
pub struct Found {
    pub place: usize,
    pub reason: Reason,
}

impl StayingLines {
    // Counts the nonzeros of some lines in some crossing lines.
    pub fn new(
        alloc: Global,
        matrix: &Matrix,
        kind: LineKind,
        stays: &[u32],
        across: &[u32],
    ) -> Result<StayingLines, Memory>
        requires shape { IsMatrix matrix.now }
        requires stays_increase { IsStrictlyIncreasing stays.now }
        requires stays_in { AllBelow (count_of_kind matrix.now kind) stays.now }
        requires across { IsAcross matrix.now kind across.now }
        ensures kind { IfOk result (λ side. side.kind ≡ kind) }
        ensures stays { IfOk result (λ side. side.stays.items ≡ stays.now) }
        ensures side { IfOk result (IsSide matrix.now) }
        ensures counted { IfOk result (λ side. AreNonzerosCounted matrix.now side across.now) }
        ensures settled { IfOk result (λ side. (binary : Bool)
            → IsSettled binary matrix.now side across.now) }
    {
        let tallies = Tallies::of_lines(alloc, matrix, kind, stays, across)?;
        Ok(StayingLines {
            kind,
            stays: Vec::from_slice(alloc, stays)?,
            counts: tallies.counts,
            sums: tallies.sums,
            minus_sums: tallies.minus_sums,
            settled: vec![in alloc; false; stays.len()]?,
        })
    }

    // The first reducible line. Each line before it becomes settled.
    pub fn first_reducible(
        &mut self,
        matrix: &Matrix,
        across: &[u32],
        binary: bool,
    ) -> Option<Found>
        requires side { IsSide matrix.now self.old }
        requires across { IsAcross matrix.now self.old.kind across.now }
        requires counted { AreNonzerosCounted matrix.now self.old across.now }
        requires settled { IsSettled binary matrix.now self.old across.now }
        ensures found { MatchOption result
            (first_step_of binary (entry matrix.now) self.old.kind self.old.stays.items across.now
            self.old.stays.items
            ≡ None)
            (IsFirstReducible binary matrix.now self.old across.now) }
        ensures same { self.new ≡ record self.old { settled = self.new.settled } }
        ensures long { length self.new.settled.items ≡ length self.old.stays.items }
        ensures settled { IsSettled binary matrix.now self.new across.now }
    {
        'places: for place in 0..self.stays.len() {
            if let Some(reason) = self.examine(matrix, place, across, binary) {
                return Some(Found { place, reason });
            }
        }
        None
    }

    // Why the line at a position is reducible. It becomes settled if it is not.
    fn examine(
        &mut self,
        matrix: &Matrix,
        place: usize,
        across: &[u32],
        binary: bool,
    ) -> Option<Reason>
        requires side { IsSide matrix.now self.old }
        requires across { IsAcross matrix.now self.old.kind across.now }
        requires counted { AreNonzerosCounted matrix.now self.old across.now }
        requires settled { IsSettled binary matrix.now self.old across.now }
        requires place { place < length self.old.stays.items }
        ensures reason { result ≡ reason_for binary (entry matrix.now) self.old.kind
            self.old.stays.items across.now (slice_index self.old.stays.items place) }
        ensures same { self.new ≡ record self.old { settled = self.new.settled } }
        ensures long { length self.new.settled.items ≡ length self.old.stays.items }
        ensures settled { IsSettled binary matrix.now self.new across.now }
    {
        if self.settled[place] {
            return None;
        }
        let reason = self.reason(matrix, place, across, binary);
        self.settled[place] = reason.is_none();
        reason
    }

    fn reason(&self, matrix: &Matrix, place: usize, across: &[u32], binary: bool) -> Option<Reason>
        requires side { IsSide matrix.now self.now }
        requires across { IsAcross matrix.now self.now.kind across.now }
        requires counted { AreNonzerosCounted matrix.now self.now across.now }
        requires place { place < length self.now.stays.items }
        ensures { result ≡ reason_for binary (entry matrix.now) self.now.kind self.now.stays.items
            across.now (slice_index self.now.stays.items place) }
    {
        match self.counts[place] {
            0 => Some(Reason::Zero),
            1 => {
                let other = first_nonzero(matrix, self.kind, self.stays[place], across)?;
                Some(Reason::Unit(self.kind.crossing(other)))
            }
            _ => self.twin_reason(matrix, place, across, binary),
        }
    }

    fn twin_reason(
        &self,
        matrix: &Matrix,
        place: usize,
        across: &[u32],
        binary: bool,
    ) -> Option<Reason>
        requires side { IsSide matrix.now self.now }
        requires across { IsAcross matrix.now self.now.kind across.now }
        requires counted { AreNonzerosCounted matrix.now self.now across.now }
        requires place { place < length self.now.stays.items }
        ensures { result ≡ twin_reason binary (entry matrix.now) self.now.kind self.now.stays.items
            across.now (slice_index self.now.stays.items place) }
    {
        if self.shares_sum(place) {
            self.first_twin(matrix, place, across, binary)
        } else {
            None
        }
    }

    // Whether the line at another position has the same sum.
    fn shares_sum(&self, place: usize) -> bool
        requires parallel { IsParallel self.now }
        requires place { place < length self.now.stays.items }
        ensures { result ≡ false → IsAlone self.now place }
    {
        let sum = self.sums[place];
        has_sum(&self.sums, 0, place, sum) || has_sum(&self.sums, place + 1, self.sums.len(), sum)
    }

    fn first_twin(
        &self,
        matrix: &Matrix,
        place: usize,
        across: &[u32],
        binary: bool,
    ) -> Option<Reason>
        requires side { IsSide matrix.now self.now }
        requires across { IsAcross matrix.now self.now.kind across.now }
        requires counted { AreNonzerosCounted matrix.now self.now across.now }
        requires place { place < length self.now.stays.items }
        ensures { result ≡ twin_reason binary (entry matrix.now) self.now.kind self.now.stays.items
            across.now (slice_index self.now.stays.items place) }
    {
        if let Some(twin) = self.first_copy(matrix, place, across) {
            return Some(Reason::Copy(self.kind.line(twin)));
        }
        if binary {
            return None;
        }
        let twin = self.first_negative(matrix, place, across)?;
        Some(Reason::Negative(self.kind.line(twin)))
    }

    fn first_copy(&self, matrix: &Matrix, place: usize, across: &[u32]) -> Option<u32>
        requires side { IsSide matrix.now self.now }
        requires across { IsAcross matrix.now self.now.kind across.now }
        requires counted { AreNonzerosCounted matrix.now self.now across.now }
        requires place { place < length self.now.stays.items }
        ensures { result ≡ find
            (is_copy (table (entry matrix.now) self.now.kind) across.now
            (slice_index self.now.stays.items place))
            self.now.stays.items }
    {
        'places: for other in 0..self.stays.len() {
            if self.is_copy(matrix, place, other, across) {
                return Some(self.stays[other]);
            }
        }
        None
    }

    fn first_negative(&self, matrix: &Matrix, place: usize, across: &[u32]) -> Option<u32>
        requires side { IsSide matrix.now self.now }
        requires across { IsAcross matrix.now self.now.kind across.now }
        requires counted { AreNonzerosCounted matrix.now self.now across.now }
        requires place { place < length self.now.stays.items }
        ensures { result ≡ find
            (is_negative (table (entry matrix.now) self.now.kind) across.now
            (slice_index self.now.stays.items place))
            self.now.stays.items }
    {
        'places: for other in 0..self.stays.len() {
            if self.is_negative(matrix, place, other, across) {
                return Some(self.stays[other]);
            }
        }
        None
    }

    pub fn are_twins(
        &self,
        matrix: &Matrix,
        place: usize,
        other: usize,
        across: &[u32],
        binary: bool,
    ) -> bool
        requires side { IsSide matrix.now self.now }
        requires across { IsAcross matrix.now self.now.kind across.now }
        requires counted { AreNonzerosCounted matrix.now self.now across.now }
        requires place { place < length self.now.stays.items }
        requires other { other < length self.now.stays.items }
        ensures { result ≡ is_twin binary (table (entry matrix.now) self.now.kind) across.now
            (slice_index self.now.stays.items place) (slice_index self.now.stays.items other) }
    {
        self.is_copy(matrix, place, other, across)
            || !binary && self.is_negative(matrix, place, other, across)
    }

    // Whether the lines at two positions differ and have the same sum.
    fn may_be_twins(&self, place: usize, other: usize) -> bool
        requires parallel { IsParallel self.now }
        requires place { place < length self.now.stays.items }
        requires other { other < length self.now.stays.items }
        ensures { result ≡ may_be_twins self.now place other }
    {
        self.sums[other] == self.sums[place] && self.stays[other] != self.stays[place]
    }

    // Whether the sums allow that the line at another position is a copy.
    fn may_be_copy(&self, place: usize, other: usize) -> bool
        requires parallel { IsParallel self.now }
        requires place { place < length self.now.stays.items }
        requires other { other < length self.now.stays.items }
        ensures { result ≡ may_be_copy self.now place other }
    {
        self.may_be_twins(place, other) && self.minus_sums[other] == self.minus_sums[place]
    }

    // Whether the sums allow that the line at another position is the negative.
    fn may_be_negative(&self, place: usize, other: usize) -> bool
        requires parallel { IsParallel self.now }
        requires light { slice_index self.now.minus_sums.items place
            ≤ slice_index self.now.sums.items place }
        requires place { place < length self.now.stays.items }
        requires other { other < length self.now.stays.items }
        ensures { result ≡ may_be_negative self.now place other }
    {
        self.may_be_twins(place, other)
            && self.minus_sums[other] == self.sums[place] - self.minus_sums[place]
    }

    fn is_copy(&self, matrix: &Matrix, place: usize, other: usize, across: &[u32]) -> bool
        requires side { IsSide matrix.now self.now }
        requires across { IsAcross matrix.now self.now.kind across.now }
        requires counted { AreNonzerosCounted matrix.now self.now across.now }
        requires place { place < length self.now.stays.items }
        requires other { other < length self.now.stays.items }
        ensures { result ≡ is_copy (table (entry matrix.now) self.now.kind) across.now
            (slice_index self.now.stays.items place) (slice_index self.now.stays.items other) }
    {
        self.may_be_copy(place, other)
            && are_equal(
                matrix,
                self.kind,
                self.stays[place],
                self.stays[other],
                across,
            )
    }

    fn is_negative(&self, matrix: &Matrix, place: usize, other: usize, across: &[u32]) -> bool
        requires side { IsSide matrix.now self.now }
        requires across { IsAcross matrix.now self.now.kind across.now }
        requires counted { AreNonzerosCounted matrix.now self.now across.now }
        requires place { place < length self.now.stays.items }
        requires other { other < length self.now.stays.items }
        ensures { result ≡ is_negative (table (entry matrix.now) self.now.kind) across.now
            (slice_index self.now.stays.items place) (slice_index self.now.stays.items other) }
    {
        self.may_be_negative(place, other)
            && are_opposite(
                matrix,
                self.kind,
                self.stays[place],
                self.stays[other],
                across,
            )
    }
}

// Whether one of the sums from a position up to another position, which is excluded, is this sum.
fn has_sum(sums: &[u64], from: usize, to: usize, sum: u64) -> bool
    requires { to ≤ length sums.now }
    ensures { result ≡ false → (place : ℕ) → from ≤ place → place < to
        → slice_index sums.now place ≢ sum }
{
    'places: for place in from..to {
        if sums[place] == sum {
            return true;
        }
    }
    false
}

fn first_nonzero(matrix: &Matrix, kind: LineKind, line: u32, across: &[u32]) -> Option<u32>
    requires line { line < count_of_kind matrix.now kind }
    requires across { AllBelow (cross_size matrix.now kind) across.now }
    ensures { result ≡ find
        (λ other. is_nonzero (table (entry matrix.now) kind line other))
        across.now }
{
    'others: for other in across {
        if is_nonzero(matrix, kind, line, *other) {
            return Some(*other);
        }
    }
    None
}
