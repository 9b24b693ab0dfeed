//! Testing whether the columns of a matrix are paths of a tree, with or without directions, and writing the matrix of such
//! a tree.
ghost use Rattle.clap.specs.Words.{app_of, found_of, rows_of};
ghost use Rattle.std.specs.Prelude.{◌++◌, ◌≡◌, IfOk, IfSome, IsSomeAnd, MatchOption, OnOk, length, map, option_map};
ghost use Rattle.cmr_base.specs.LineSets.{AllBelow};
ghost use Rattle.cmr_base.specs.Matrix.{height};
ghost use Rattle.cmr_front.specs.Minimal.{IsMinimalAsked, IsMinimalSet};
ghost use Rattle.cmr_front.specs.Inputs.{bytes_of};
ghost use Rattle.cmr_front.specs.Outcome.{file_of, outcome_report};
ghost use Rattle.cmr_front.specs.Report.{asked_file};
ghost use Rattle.cmr_front.specs.Tool.{IsDecision};
ghost use Rattle.cmr_front.specs.Words.ReadWords.{Gives};
ghost use Rattle.cmr_classes.specs.GraphMatrix.{graph_matrix_tool, test_tool};
ghost use Rattle.cmr_classes.specs.GraphicNetwork.{Has, IsTestable, Shows, TestDecides, is_binary, is_test_asked, path_tool, property_name, test_app, test_no, test_order, test_order_in, test_order_of, test_yes, tested_lines, tested_matrix, tool_name, written_graph};

use crate::tools::graph_matrix::matrix_of_text;
use clap::{ArgMatches, Command};
use cmr_base::{LineSet, Matrix, Memory, Network, Word};
use cmr_front::asked::push_minimal;
use cmr_front::input::{Input, Text};
use cmr_front::matrix_file::{MatrixForm, matrix_input, read_matrix};
use cmr_front::outcome::{Outcome, OutputFile, Stop};
use cmr_front::printed::push_minimal_line;
use cmr_front::status::Answer;
use cmr_front::tool::Tool;
use cmr_front::words::arguments::{FORMAT, FROM_GRAPH, GRAPH, MINIMAL, TRANSPOSED};
use cmr_front::words::parsing::{file_in, form_in, has_flag, matches_with_input, value_in};
use cmr_front::words::{WordsError, arguments};
use graph_realise::{minimal_not_graphic, realise};
use graph_text::{write_graph, write_transposed_graph};
use network_orient::{minimal_not_network, orient};
use std::alloc::{AllocError, Global};
use std::thread::Threads;

/// The properties that `graphic` and `network` test.
#[derive(Clone, Copy, Debug, PartialEq, Eq)]
pub enum TestedProperty {
    /// The matrix is 0/1, and its columns are paths of a tree.
    Graphic,
    /// The columns are directed paths of a tree.
    Network,
}

/// The options of `graphic` and `network`. An input file of the name `-` is standard input.
#[derive(Clone, Copy, Debug, PartialEq, Eq)]
pub struct TestOptions<'a> {
    /// The form of the matrix text, and dense for a graph text.
    pub form: MatrixForm,
    /// Whether the transposed matrix is tested.
    pub transposed: bool,
    /// The file that gets a minimal submatrix without the property, if there is one.
    pub minimal: Option<&'a str>,
    /// The file that gets a graph that shows the property, if there is one.
    pub graph: Option<&'a str>,
    /// Whether a graph text is read and its matrix written, and nothing is tested. Then no other option is given.
    pub from_graph: bool,
    /// The file that holds the matrix text or the graph text.
    pub file: &'a str,
}

fn tool_name<'a>(property: TestedProperty) -> &'a str
    ensures { result.now ≡ tool_name property }
{
    match property {
        TestedProperty::Graphic => "graphic",
        TestedProperty::Network => "network",
    }
}

fn test_command<'a>(alloc: Global, property: TestedProperty) -> Result<Command<'a>, AllocError>
    ensures { IfOk result (λ c. app_of c ≡ test_app property) }
{
    let args = vec![in alloc;
        arguments::form_option(alloc),
        arguments::transposed_flag(alloc),
        arguments::minimal_option(alloc),
        arguments::graph_option(alloc),
        arguments::from_graph_flag(alloc),
        arguments::file_operand(alloc),
    ]?;
    arguments::tool_command(alloc, tool_name(property), args)
}

// Whether an option for the test of a matrix is given, including with its default value.
fn is_test_asked(matches: &ArgMatches<'_>) -> bool
    ensures { result ≡ is_test_asked (rows_of (found_of matches.now)) }
{
    value_in(matches, FORMAT).is_some()
        || has_flag(matches, TRANSPOSED)
        || value_in(matches, MINIMAL).is_some()
        || value_in(matches, GRAPH).is_some()
}

fn options_in<'a>(matches: &ArgMatches<'a>) -> Result<TestOptions<'a>, WordsError>
    ensures { Gives test_order_of result (test_order_in (rows_of (found_of matches.now))) }
{
    let from_graph = has_flag(matches, FROM_GRAPH);
    if from_graph && is_test_asked(matches) {
        return Err(WordsError::Refused);
    }
    Ok(TestOptions {
        form: form_in(matches)?,
        transposed: has_flag(matches, TRANSPOSED),
        minimal: value_in(matches, MINIMAL),
        graph: value_in(matches, GRAPH),
        from_graph,
        file: file_in(matches),
    })
}

/// The options that the arguments after `graphic` or `network` give:
/// `[-i FORMAT] [-t] [-N FILE] [-G FILE] [FILE]`, or `-c [FILE]`.
pub fn read_test<'a>(
    alloc: Global,
    property: TestedProperty,
    words: &'a [Word],
) -> Result<TestOptions<'a>, WordsError>
    ensures value { Gives test_order_of result (test_order property words.now) }
    ensures ranges { IfOk result (λ options.
        (test_tool property (test_order_of options)).InRanges) }
{
    let matches = matches_with_input(test_command(alloc, property)?, words)?;
    options_in(&matches)
}

/// The test of a property, or with `from_graph` the matrix of a graph text.
#[derive(Clone, Copy, Debug)]
pub struct PropertyTest<'a> {
    /// The property.
    pub property: TestedProperty,
    /// The options of its test.
    pub options: TestOptions<'a>,
}

impl<'a> Tool<'a> for PropertyTest<'a> {
    ghost tool = { λ test. test_tool test.property (test_order_of test.options) };

    fn inputs(&self, alloc: Global) -> Result<Vec<Input<'a>>, Memory> {
        matrix_input(alloc, self.options.file)
    }

    fn decide<R: Threads + Sync>(
        &self,
        _rt: &R,
        alloc: Global,
        texts: &[Text],
    ) -> Result<Outcome<'a>, Stop<'a>> {
        if self.options.from_graph {
            decide_on_graph(alloc, self.property, self.options.file, texts)
        } else {
            decide_on_matrix(alloc, self.property, &self.options, texts)
        }
    }

    fn lawful(&self) {}
}

fn decide_on_graph<'a>(
    alloc: Global,
    property: TestedProperty,
    file: &'a str,
    texts: &[Text],
) -> Result<Outcome<'a>, Stop<'a>>
    requires { length texts.now ≡ 1 }
    ensures { IsDecision
        ((graph_matrix_tool property file.entry.now).Reports (map bytes_of texts.now))
        result }
{
    matrix_of_text(alloc, property, file, &texts[0].bytes)
}

fn decide_on_matrix<'a>(
    alloc: Global,
    property: TestedProperty,
    options: &TestOptions<'a>,
    texts: &[Text],
) -> Result<Outcome<'a>, Stop<'a>>
    requires { length texts.now ≡ 1 }
    ensures { IsDecision
        ((path_tool property (test_order_of options.now)).Reports (map bytes_of texts.now))
        result }
{
    let binary = is_binary(property);
    let matrix = read_matrix(alloc, options.file, options.form, binary, &texts[0].bytes)?;
    Ok(test(alloc, property, options, &matrix)?)
}

fn is_binary(property: TestedProperty) -> bool
    ensures { result ≡ is_binary property }
{
    match property {
        TestedProperty::Graphic => true,
        TestedProperty::Network => false,
    }
}

fn test<'a>(
    alloc: Global,
    property: TestedProperty,
    options: &TestOptions<'a>,
    matrix: &Matrix,
) -> Result<Outcome<'a>, Memory>
    requires { IsTestable property matrix.now }
    ensures { IfOk result (λ outcome.
        TestDecides property (test_order_of options.now) matrix.now (outcome_report outcome)) }
{
    if options.transposed {
        let transposed = matrix.transposed(alloc)?;
        decide(alloc, property, options, matrix, &transposed)
    } else {
        decide(alloc, property, options, matrix, matrix)
    }
}

fn decide<'a>(
    alloc: Global,
    property: TestedProperty,
    options: &TestOptions<'a>,
    matrix: &Matrix,
    tested: &Matrix,
) -> Result<Outcome<'a>, Memory>
    requires is_tested { tested.now ≡ tested_matrix options.now.transposed matrix.now }
    requires testable { IsTestable property tested.now }
    ensures { IfOk result (λ outcome.
        TestDecides property (test_order_of options.now) matrix.now (outcome_report outcome)) }
{
    if let Some(network) = find_network(alloc, property, tested)? {
        return yes(alloc, property, options, tested, &network);
    }
    let minimal = asked_minimal(alloc, property, options, tested)?;
    no(alloc, property, options, matrix, &minimal)
}

fn find_network(
    alloc: Global,
    property: TestedProperty,
    matrix: &Matrix,
) -> Result<Option<Network>, Memory>
    requires { IsTestable property matrix.now }
    ensures { IfOk result (λ found.
        MatchOption found (¬ (Has property matrix.now)) (λ net. Shows property net matrix.now)) }
{
    match property {
        TestedProperty::Graphic => realise(alloc, matrix),
        TestedProperty::Network => orient(alloc, matrix),
    }
}

fn yes<'a>(
    alloc: Global,
    property: TestedProperty,
    options: &TestOptions<'a>,
    tested: &Matrix,
    network: &Network,
) -> Result<Outcome<'a>, Memory>
    requires { Shows property network.now tested.now }
    ensures { IfOk result (λ outcome. outcome_report outcome
        ≡ test_yes property (test_order_of options.now) network.now) }
{
    let mut output = property_name(property, options.transposed).to_vec(alloc)?;
    output.extend_from_slice(b": yes\n")?;
    let mut files = Vec::new(alloc);
    push_graph(alloc, &mut files, options, tested, network)?;
    Ok(Outcome {
        answer: Answer::Yes,
        output,
        files,
    })
}

fn push_graph<'a>(
    alloc: Global,
    files: &mut Vec<OutputFile<'a>>,
    options: &TestOptions<'a>,
    tested: &Matrix,
    network: &Network,
) -> Result<(), Memory>
    requires rows { length network.now.arcs ≡ height tested.now }
    requires columns { length network.now.walks ≡ tested.now.width }
    ensures { OnOk result (map file_of files.new.items
        ≡ map file_of files.old.items
        ++ asked_file (option_map (λ name. name.now) options.now.graph)
        (written_graph options.now.transposed network.now)) }
{
    if let Some(name) = options.graph {
        let bytes = write_tested(alloc, options.transposed, tested, network)?;
        files.push(OutputFile { name, bytes })?;
    }
    Ok(())
}

// The text of a network for the tested matrix.
fn write_tested(
    alloc: Global,
    transposed: bool,
    tested: &Matrix,
    network: &Network,
) -> Result<Vec<u8>, Memory>
    requires rows { length network.now.arcs ≡ height tested.now }
    requires columns { length network.now.walks ≡ tested.now.width }
    ensures { IfOk result (λ text. text.items ≡ written_graph transposed network.now) }
{
    if transposed {
        write_transposed_graph(alloc, network, tested.columns(), tested.rows())
    } else {
        write_graph(alloc, network, tested.rows(), tested.columns())
    }
}

fn no<'a>(
    alloc: Global,
    property: TestedProperty,
    options: &TestOptions<'a>,
    matrix: &Matrix,
    minimal: &Option<LineSet>,
) -> Result<Outcome<'a>, Memory>
    requires rows { IfSome minimal.now (λ lines. AllBelow (height matrix.now) lines.rows) }
    requires columns { IfSome minimal.now (λ lines. AllBelow matrix.now.width lines.columns) }
    ensures { IfOk result (λ outcome. outcome_report outcome
        ≡ test_no property (test_order_of options.now) matrix.now minimal.now) }
{
    let mut output = property_name(property, options.transposed).to_vec(alloc)?;
    output.extend_from_slice(b": no\n")?;
    push_minimal_line(&mut output, minimal)?;
    let mut files = Vec::new(alloc);
    push_minimal(alloc, &mut files, options.minimal, matrix, minimal)?;
    Ok(Outcome {
        answer: Answer::No,
        output,
        files,
    })
}

// The lines of the given matrix that are a minimal submatrix without the property.
fn asked_minimal(
    alloc: Global,
    property: TestedProperty,
    options: &TestOptions<'_>,
    tested: &Matrix,
) -> Result<Option<LineSet>, Memory>
    requires testable { IsTestable property tested.now }
    requires lacks { ¬ (Has property tested.now) }
    ensures { IfOk result (λ found. IsMinimalAsked (Has property) tested.now
        (option_map (λ name. name.now) options.now.minimal)
        (option_map (tested_lines options.now.transposed) found)) }
{
    if options.minimal.is_none() {
        return Ok(None);
    }
    match find_minimal(alloc, property, tested)? {
        Some(lines) => Ok(Some(given_lines(options.transposed, lines))),
        None => Ok(None),
    }
}

fn find_minimal(
    alloc: Global,
    property: TestedProperty,
    matrix: &Matrix,
) -> Result<Option<LineSet>, Memory>
    requires testable { IsTestable property matrix.now }
    requires lacks { ¬ (Has property matrix.now) }
    ensures { IfOk result (λ found. IsSomeAnd found (IsMinimalSet (Has property) matrix.now)) }
{
    match property {
        TestedProperty::Graphic => minimal_not_graphic(alloc, matrix),
        TestedProperty::Network => minimal_not_network(alloc, matrix),
    }
}

// Lines of the tested matrix as lines of the given matrix.
fn given_lines(transposed: bool, lines: LineSet) -> LineSet
    ensures { tested_lines transposed result ≡ lines }
{
    if transposed {
        LineSet {
            rows: lines.columns,
            columns: lines.rows,
        }
    } else {
        lines
    }
}

fn property_name(property: TestedProperty, transposed: bool) -> &'static [u8]
    ensures { result.now ≡ property_name property transposed }
{
    match (property, transposed) {
        (TestedProperty::Graphic, false) => b"graphic",
        (TestedProperty::Graphic, true) => b"cographic",
        (TestedProperty::Network, false) => b"network",
        (TestedProperty::Network, true) => b"conetwork",
    }
}
