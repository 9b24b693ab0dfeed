// The lines that are not in a set.
ghost use Rattle.std.specs.Prelude.{◌≡◌, ◌<◌, ℕ, true, false};
ghost use Rattle.cmr_base.specs.ColumnSets.{has_column};
ghost use Rattle.cmr_base.specs.LineMasks.{as_set, AreAlike};
ghost use Rattle.cmr_base.specs.Seeds.{IsLine};
ghost use Rattle.cmr_base.specs.declared.line.Line.{Line};

use cmr_base::{BitSet, LineMask};

/// Whether `set` contains each line that is not in `own`.
pub fn has_rest(set: &LineMask, own: &LineMask) -> bool
    requires { AreAlike set.now own.now }
    ensures { result ≡ true → (x : Line) → IsLine set.now.rows.size set.now.columns.size x
        → as_set own.now x ≡ false → as_set set.now x ≡ true }
{
    has_others(&set.rows, &own.rows) && has_others(&set.columns, &own.columns)
}

/// Adds each line that is not in `own`.
pub fn add_rest(set: &mut LineMask, own: &LineMask)
    requires { AreAlike set.old own.now }
    ensures size { AreAlike set.old set.new }
    ensures kept { (x : Line) → as_set set.old x ≡ true → as_set set.new x ≡ true }
    ensures rest { (x : Line) → IsLine set.old.rows.size set.old.columns.size x
        → as_set own.now x ≡ false → as_set set.new x ≡ true }
{
    add_others(&mut set.rows, &own.rows);
    add_others(&mut set.columns, &own.columns);
}

// Whether `set` contains each row that is not in `own`.
fn has_others(set: &BitSet, own: &BitSet) -> bool
    requires { own.now.size ≡ set.now.size }
    ensures { result ≡ true → (x : ℕ) → x < set.now.size → has_column own.now.words x ≡ false
        → has_column set.now.words x ≡ true }
{
    for row in 0..set.size() {
        if !own.has(row) && !set.has(row) {
            return false;
        }
    }
    true
}

// Adds each row that is not in `own`.
fn add_others(set: &mut BitSet, own: &BitSet)
    requires { own.now.size ≡ set.old.size }
    ensures size { set.new.size ≡ set.old.size }
    ensures kept { (x : ℕ) → has_column set.old.words x ≡ true → has_column set.new.words x ≡ true }
    ensures rest { (x : ℕ) → x < set.old.size → has_column own.now.words x ≡ false
        → has_column set.new.words x ≡ true }
{
    for row in 0..own.size() {
        if !own.has(row) {
            set.insert(row);
        }
    }
}
