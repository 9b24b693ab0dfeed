// The nonzeros of a line at the crossing lines that remain.
ghost use Rattle.std.specs.Prelude.{◌≡◌, ◌≢◌, ℕ, pos, true, length, MatchOption};
ghost use Rattle.std.specs.List.{AllByRecursion};
ghost use Rattle.cmr_base.specs.declared.line.Line.TheVariants.{Row, Column};
ghost use Rattle.ghouila.specs.Found.{marked};
ghost use Rattle.sparse_matrix.specs.SparseRows.{IsNonzeroWithin, value_in};
ghost use Rattle.sparse_matrix.specs.LineMarks.{is_marked};
ghost use Rattle.sparse_core.specs.Nonzeros.{HasTwo, RemainsAt, HasLeft, HasThinReason};

use cmr_base::{Line, Reason};
use sparse_matrix::Nonzero;

/// How many nonzeros remain, with the crossing line of a single one.
#[derive(Clone, Copy, Debug, PartialEq, Eq)]
pub enum Left {
    Zero,
    One(u32),
    Several,
}

// The first crossing line that remains and has a nonzero.
fn first_left(run: &[Nonzero], remains: &[bool]) -> Option<u32>
    requires run { AllByRecursion (IsNonzeroWithin (length remains.now)) run.now }
    ensures { MatchOption result
        ((k : ℕ) → is_marked remains.now k ≡ true → value_in run.now k ≡ pos 0)
        (RemainsAt (value_in run.now) remains.now) }
{
    for nonzero in run {
        if remains[nonzero.line as usize] {
            return Some(nonzero.line);
        }
    }
    None
}

// The first such line other than `first`.
fn other_left(run: &[Nonzero], remains: &[bool], first: u32) -> Option<u32>
    requires run { AllByRecursion (IsNonzeroWithin (length remains.now)) run.now }
    ensures { MatchOption result
        ((k : ℕ) → k ≢ first → is_marked remains.now k ≡ true → value_in run.now k ≡ pos 0)
        (λ other. (other ≢ first) × RemainsAt (value_in run.now) remains.now other) }
{
    for nonzero in run {
        if nonzero.line != first && remains[nonzero.line as usize] {
            return Some(nonzero.line);
        }
    }
    None
}

// How many nonzeros of a run remain.
fn count_left(run: &[Nonzero], remains: &[bool]) -> Left
    requires run { AllByRecursion (IsNonzeroWithin (length remains.now)) run.now }
    ensures { HasLeft (value_in run.now) remains.now result }
{
    match first_left(run, remains) {
        None => Left::Zero,
        Some(first) => match other_left(run, remains, first) {
            None => Left::One(first),
            Some(_) => Left::Several,
        },
    }
}

/// Why a row may be removed: at most one nonzero remains.
pub fn row_reason(run: &[Nonzero], remains: &[bool]) -> Option<Reason>
    requires run { AllByRecursion (IsNonzeroWithin (length remains.now)) run.now }
    ensures { MatchOption result (HasTwo (value_in run.now) (marked remains.now))
        (HasThinReason (value_in run.now) remains.now Column) }
{
    match count_left(run, remains) {
        Left::Zero => Some(Reason::Zero),
        Left::One(column) => Some(Reason::Unit(Line::Column(column))),
        Left::Several => None,
    }
}

/// Why a column may be removed: at most one nonzero remains.
pub fn column_reason(run: &[Nonzero], remains: &[bool]) -> Option<Reason>
    requires run { AllByRecursion (IsNonzeroWithin (length remains.now)) run.now }
    ensures { MatchOption result (HasTwo (value_in run.now) (marked remains.now))
        (HasThinReason (value_in run.now) remains.now Row) }
{
    match count_left(run, remains) {
        Left::Zero => Some(Reason::Zero),
        Left::One(row) => Some(Reason::Unit(Line::Row(row))),
        Left::Several => None,
    }
}
