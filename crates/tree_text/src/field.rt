// Reads the next word of a tree text.
ghost use Rattle.std.specs.Prelude.{◌≤◌, ◌<◌, IfOk, option_copied};
ghost use Rattle.text_fields.specs.Reading.{field, Reads};
ghost use Rattle.tree_text.specs.declared.error.TreeKind.TheVariants.{Short};
ghost use Rattle.tree_text.specs.KindWords.{kind_in};
ghost use Rattle.tree_text.specs.Versions.{title_in, version_in};
ghost use Rattle.tree_text.specs.TreeValues.{limited, line_of, next_line, step_in};

use crate::header::{Title, Version, title_in, version_in};
use crate::kind_word::{KindWord, kind_in};
use crate::value::{self, Sizes};
use crate::{TreeError, TreeKind};
use cmr_base::{Indices, Line, LineSet};
use text_fields::{Words, at_place};

pub fn title(words: &mut Words<'_>) -> Result<Title, TreeError>
    ensures { Reads (λ x. x) words.new result (field Short title_in words.old) }
{
    let (place, word) = words.due(TreeKind::Short)?;
    at_place(place, title_in(word))
}

pub fn version(words: &mut Words<'_>, title: Title) -> Result<Version, TreeError>
    ensures { Reads (λ x. x) words.new result (field Short (version_in title) words.old) }
{
    let (place, word) = words.due(TreeKind::Short)?;
    at_place(place, version_in(title, word))
}

pub fn kind(words: &mut Words<'_>, version: Version) -> Result<KindWord, TreeError>
    ensures { Reads (λ x. x) words.new result (field Short (kind_in version) words.old) }
{
    let (place, word) = words.due(TreeKind::Short)?;
    at_place(place, kind_in(version, word))
}

pub fn limited(words: &mut Words<'_>, most: u32) -> Result<u32, TreeError>
    ensures read { Reads (λ n. n) words.new result (field Short (limited most) words.old) }
    ensures within { IfOk result (λ n. n ≤ most) }
{
    let (place, word) = words.due(TreeKind::Short)?;
    at_place(place, value::limited(word, most))
}

pub fn line_of(words: &mut Words<'_>, most: u32, lines: &Indices) -> Result<u32, TreeError>
    ensures { Reads (λ n. n) words.new result (field Short (line_of most lines.now) words.old) }
{
    let (place, word) = words.due(TreeKind::Short)?;
    at_place(place, value::line_of(word, most, lines))
}

pub fn next_line(
    words: &mut Words<'_>,
    most: u32,
    whole: Option<&Indices>,
    before: u32,
) -> Result<u32, TreeError>
    ensures read { Reads (λ n. n) words.new result
        (field Short (next_line most (option_copied whole.entry) before) words.old) }
    ensures above { IfOk result (λ line. before ≤ line) }
    ensures within { IfOk result (λ line. line < most) }
{
    let (place, word) = words.due(TreeKind::Short)?;
    at_place(place, value::next_line(word, most, whole, before))
}

pub fn step(words: &mut Words<'_>, sizes: Sizes, lines: &LineSet) -> Result<Line, TreeError>
    ensures { Reads (λ x. x) words.new result (field Short (step_in sizes lines.now) words.old) }
{
    let (place, word) = words.due(TreeKind::Short)?;
    at_place(place, value::step_in(word, sizes, lines))
}
