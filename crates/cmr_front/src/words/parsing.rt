//! How the command of a tool parses its arguments, and the values of the arguments that tools share.
ghost use Rattle.std.specs.Prelude.{◌≡◌, true, option_map};
ghost use Rattle.std.specs.List.{list_any};
ghost use Rattle.clap.specs.Words.{app_of, first_of, found_of, is_simple_and_free, rows_of};
ghost use Rattle.cmr_front.specs.Words.Parsing as parsing;
ghost use Rattle.cmr_front.specs.Words.ReadWords.{Gives};

use crate::matrix_file::MatrixForm;
use crate::words::WordsError;
use crate::words::arguments::{FAULT, FILE, FORMAT, LINES, PIVOTS, WORKERS};
use clap::{ArgMatches, Command};
use cmr_base::{MAX_LINES, Word};

// The argument that represents standard input.
const DASH: &str = "-";

// The default of L.
const USUAL_LINES: u32 = 14;

// The default of K, and its maximum.
const USUAL_PIVOTS: u32 = 0;

const MOST_PIVOTS: u32 = 100;

// The default of N, and its maximum.
const USUAL_WORKERS: u32 = 1;

const MOST_WORKERS: u32 = 64;

fn ends_in_dash(words: &[Word]) -> bool
    ensures { result ≡ parsing.ends_in_dash words.now }
{
    words.last().is_some_and(|last| last.text() == DASH)
}

fn has_dash(words: &[Word]) -> bool
    ensures { result ≡ list_any parsing.is_dash words.now }
{
    words.iter().any(|word| word.text() == DASH)
}

/// The matches of the arguments, none of which may be `-`.
pub fn matches_in<'a>(command: Command<'a>, words: &'a [Word]) -> Result<ArgMatches<'a>, WordsError>
    requires { is_simple_and_free (app_of command) ≡ true }
    ensures { Gives (λ m. rows_of (found_of m)) result
        (parsing.matches_in (app_of command.entry) words.now) }
{
    if has_dash(words) {
        return Err(WordsError::Refused);
    }
    Ok(command.try_get_matches_from(words)?)
}

/// The value of an option or operand.
pub fn value_in<'a>(matches: &ArgMatches<'a>, id: &str) -> Option<&'a str>
    ensures { option_map (λ s. s.now) result ≡ first_of id.now (rows_of (found_of matches.now)) }
{
    matches.get_str(id)
}

/// The value of an argument that is required.
pub fn operand_in<'a>(matches: &ArgMatches<'a>, id: &str) -> Result<&'a str, WordsError>
    ensures { Gives (λ text. text.now) result (first_of id.now (rows_of (found_of matches.now))) }
{
    value_in(matches, id).ok_or(WordsError::Refused)
}

/// The matches of the arguments for a command whose last argument is [FILE]. A last argument `-` is
/// removed, and FILE is then not allowed.
pub fn matches_with_input<'a>(
    command: Command<'a>,
    words: &'a [Word],
) -> Result<ArgMatches<'a>, WordsError>
    requires { is_simple_and_free (app_of command) ≡ true }
    ensures { Gives (λ m. rows_of (found_of m)) result
        (parsing.matches_with_input (app_of command.entry) words.now) }
{
    if !ends_in_dash(words) {
        return matches_in(command, words);
    }
    let matches = matches_in(command, &words[..words.len() - 1])?;
    match value_in(&matches, FILE) {
        None => Ok(matches),
        Some(_) => Err(WordsError::Refused),
    }
}

/// The form that FORMAT names (default dense).
pub fn form_in(matches: &ArgMatches<'_>) -> Result<MatrixForm, WordsError>
    ensures { Gives (λ form. form) result (parsing.form_in (rows_of (found_of matches.now))) }
{
    match value_in(matches, FORMAT) {
        None | Some("dense") => Ok(MatrixForm::Dense),
        Some("sparse") => Ok(MatrixForm::Sparse),
        Some(_) => Err(WordsError::Refused),
    }
}

/// Whether a flag is given.
pub fn has_flag(matches: &ArgMatches<'_>, id: &str) -> bool
    ensures { result ≡ parsing.has_flag id.now (rows_of (found_of matches.now)) }
{
    value_in(matches, id) == Some("true")
}

/// A number from `least` to `most`, as `clap` reads the numbers of a range: it may begin with a sign.
pub fn number_from(least: u32, most: u32, text: &str) -> Option<u32>
    ensures { result ≡ parsing.number_from least most text.now }
{
    match text.parse::<i64>() {
        Ok(number) if i64::from(least) <= number && number <= i64::from(most) => {
            Some(number as u32)
        }
        _ => None,
    }
}

/// The number L (default 14).
pub fn lines_in(matches: &ArgMatches<'_>) -> Result<u32, WordsError>
    ensures { Gives (λ lines. lines) result (parsing.lines_in (rows_of (found_of matches.now))) }
{
    match value_in(matches, LINES) {
        None => Ok(USUAL_LINES),
        Some(text) => number_from(0, MAX_LINES, text).ok_or(WordsError::Refused),
    }
}

/// The number K of pivots (default 0).
pub fn pivots_in(matches: &ArgMatches<'_>) -> Result<u32, WordsError>
    ensures { Gives (λ pivots. pivots) result (parsing.pivots_in (rows_of (found_of matches.now))) }
{
    match value_in(matches, PIVOTS) {
        None => Ok(USUAL_PIVOTS),
        Some(text) => number_from(0, MOST_PIVOTS, text).ok_or(WordsError::Refused),
    }
}

/// The number N of workers (default 1).
pub fn workers_in(matches: &ArgMatches<'_>) -> Result<u32, WordsError>
    ensures { Gives (λ workers. workers) result
        (parsing.workers_in (rows_of (found_of matches.now))) }
{
    match value_in(matches, WORKERS) {
        None => Ok(USUAL_WORKERS),
        Some(text) => number_from(1, MOST_WORKERS, text).ok_or(WordsError::Refused),
    }
}

/// The file of `-E`.
pub fn fault_in<'a>(matches: &ArgMatches<'a>) -> Option<&'a str>
    ensures { option_map (λ name. name.now) result
        ≡ parsing.fault_in (rows_of (found_of matches.now)) }
{
    value_in(matches, FAULT)
}

/// FILE (default standard input).
pub fn file_in<'a>(matches: &ArgMatches<'a>) -> &'a str
    ensures { result.now ≡ parsing.file_in (rows_of (found_of matches.now)) }
{
    value_in(matches, FILE).unwrap_or(DASH)
}
