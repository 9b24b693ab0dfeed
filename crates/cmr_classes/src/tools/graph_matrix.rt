// The matrix of a graph text.
ghost use Rattle.std.specs.Prelude.{◌≤◌, IfOk};
ghost use Rattle.cmr_base.specs.Trees.{IsNetworkOf};
ghost use Rattle.cmr_front.specs.GraphText.{ReportsGraph};
ghost use Rattle.cmr_front.specs.Outcome.{outcome_report};
ghost use Rattle.cmr_front.specs.Tool.{IsDecision};
ghost use Rattle.cmr_classes.specs.GraphMatrix.{GraphDecides, IsMatrixOf};

use crate::tools::graphic_network::TestedProperty;
use cmr_base::{MAX_COLUMNS, MAX_ROWS, Matrix, Memory};
use cmr_front::graph_file::read_graph_file;
use cmr_front::outcome::{Outcome, Stop};
use cmr_front::status::Answer;
use graph_text::{SizedNetwork, matrix_of};
use matrix_text::write_dense;
use std::alloc::Global;

/// The decision on a graph text: its matrix is written.
pub fn matrix_of_text<'a>(
    alloc: Global,
    property: TestedProperty,
    file: &'a str,
    bytes: &[u8],
) -> Result<Outcome<'a>, Stop<'a>>
    ensures { IsDecision (ReportsGraph file.entry.now (GraphDecides property) bytes.now) result }
{
    let sized = read_graph_file(alloc, file, bytes)?;
    Ok(written(alloc, property, &sized)?)
}

fn written<'a>(
    alloc: Global,
    property: TestedProperty,
    sized: &SizedNetwork,
) -> Result<Outcome<'a>, Memory>
    requires rows { sized.now.rows ≤ MAX_ROWS }
    requires columns { sized.now.columns ≤ MAX_COLUMNS }
    requires network { IsNetworkOf sized.now.net sized.now.rows sized.now.columns }
    ensures { IfOk result (λ outcome. GraphDecides property sized.now (outcome_report outcome)) }
{
    let matrix = shown_matrix(alloc, property, sized)?;
    Ok(Outcome {
        answer: Answer::Yes,
        output: write_dense(alloc, &matrix)?,
        files: Vec::new(alloc),
    })
}

fn shown_matrix(
    alloc: Global,
    property: TestedProperty,
    sized: &SizedNetwork,
) -> Result<Matrix, Memory>
    requires rows { sized.now.rows ≤ MAX_ROWS }
    requires columns { sized.now.columns ≤ MAX_COLUMNS }
    requires network { IsNetworkOf sized.now.net sized.now.rows sized.now.columns }
    ensures { IfOk result (IsMatrixOf property sized.now) }
{
    match property {
        TestedProperty::Graphic => matrix_of(alloc, &sized.net, sized.rows, sized.columns, false),
        TestedProperty::Network => matrix_of(alloc, &sized.net, sized.rows, sized.columns, true),
    }
}
