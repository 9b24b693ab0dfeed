//! The answer and the printed words of a verdict.
ghost use Rattle.std.specs.Prelude.{◌≡◌, ◌++◌, OnOk};
ghost use Rattle.tree_laws.specs.Laws.{VerdictMeans};
ghost use Rattle.tree_type.specs.Verdicts.{verdict_shown};
ghost use Rattle.cmr_evidence.specs.VerdictWords.{answer_of, answer_word, named_line};

use cmr_base::{Matrix, Memory};
use cmr_front::printed::{push_open_line, push_violator_line};
use cmr_front::status::Answer;
use tree_type::VerdictOf;

/// The answer for a verdict.
pub fn answer_of(verdict: &VerdictOf<'_>) -> Answer
    ensures { result ≡ answer_of (verdict_shown verdict.now) }
{
    match verdict {
        VerdictOf::Yes => Answer::Yes,
        VerdictOf::No(_) => Answer::No,
        VerdictOf::Undecided(_) => Answer::Undecided,
    }
}

/// The answer in words, which follows the label.
pub fn answer_word(verdict: &VerdictOf<'_>) -> &'static [u8]
    ensures { result.now ≡ answer_word (verdict_shown verdict.now) }
{
    match verdict {
        VerdictOf::Yes => b": yes\n",
        VerdictOf::No(_) => b": no\n",
        VerdictOf::Undecided(_) => b": undecided\n",
    }
}

/// Appends the line of the violator or of the open lines that a verdict names.
pub fn push_named_line(
    text: &mut Vec<u8>,
    matrix: &Matrix,
    verdict: &VerdictOf<'_>,
) -> Result<(), Memory>
    requires { VerdictMeans matrix.now (verdict_shown verdict.now) }
    ensures { OnOk result (text.new.items
        ≡ text.old.items ++ named_line matrix.now (verdict_shown verdict.now)) }
{
    match verdict {
        VerdictOf::Yes => Ok(()),
        VerdictOf::No(fault) => push_violator_line(text, fault, matrix.sum(fault)),
        VerdictOf::Undecided(lines) => push_open_line(text, lines),
    }
}
