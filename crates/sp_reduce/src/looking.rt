// A first look at the lines of a matrix, which recognises most matrices without a reducible line.
ghost use Rattle.std.specs.Prelude.{◌≡◌, ◌<◌, Bool, true, false, IfOk};
ghost use Rattle.cmr_base.specs.Matrix.{height, entry};
ghost use Rattle.cmr_base.specs.LineSets.{first_lines};
ghost use Rattle.cmr_base.specs.Reductions.{nonzeros_at};
ghost use Rattle.sp_reduce.specs.RowDigests.{digest_of, AreUnlikeRows, HasNoReducibleLine};

use cmr_base::{Matrix, Memory, RowsAndColumns};
use digests::{are_different, mixed};
use std::alloc::Global;

/// The result of a first look at the lines of a matrix.
#[derive(Clone, Copy, Debug, PartialEq, Eq)]
pub enum FirstLook {
    /// No line is reducible.
    Irreducible,
    /// The first look does not decide whether a line is reducible.
    Unclear,
}

/// A first look at all lines. No line is reducible if each line has two nonzeros or more and the supports of any two rows,
/// and of any two columns, have different digests: a copy or a negative has the same support. Equal digests show nothing.
/// `first_look` compares no two lines. It reads each word once and sorts the digests twice.
pub fn first_look(alloc: Global, both: &RowsAndColumns<'_>) -> Result<FirstLook, Memory>
    ensures { IfOk result (λ look. look ≡ FirstLook.Irreducible → (binary : Bool)
        → HasNoReducibleLine binary both.now) }
{
    if has_unlike_rows(alloc, both.by_rows())? && has_unlike_rows(alloc, both.by_columns())? {
        return Ok(FirstLook::Irreducible);
    }
    Ok(FirstLook::Unclear)
}

// Whether each row has two nonzeros or more, and any two rows have different digests.
fn has_unlike_rows(alloc: Global, matrix: &Matrix) -> Result<bool, Memory>
    ensures { IfOk result (λ yes. yes ≡ true → AreUnlikeRows matrix.now) }
{
    let mut digests = Vec::with_capacity(alloc, matrix.rows() as usize)?;
    'rows: for row in 0..matrix.rows() {
        if has_few_nonzeros(matrix, row) {
            return Ok(false);
        }
        digests.push(digest_of(matrix.support_words(row)))?;
    }
    Ok(are_different(&mut digests))
}

// Whether a row has at most one nonzero.
fn has_few_nonzeros(matrix: &Matrix, row: u32) -> bool
    requires { row < height matrix.now }
    ensures { result ≡ false
        → 1 < nonzeros_at (first_lines matrix.now.width) (entry matrix.now row) }
{
    match matrix.next_nonzero(row, 0) {
        Some(first) => matrix.next_nonzero(row, first + 1).is_none(),
        None => true,
    }
}

// The digest of a list of words.
fn digest_of(words: &[u64]) -> u64
    ensures { result ≡ digest_of words.now }
{
    let mut digest = 0;
    'words: for word in words {
        digest = mixed(digest, *word);
    }
    digest
}
