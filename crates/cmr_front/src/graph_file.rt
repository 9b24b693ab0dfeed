// The file of a tool that reads one graph text.
ghost use Rattle.std.specs.Prelude.{IfOk, IfErr, Ok};
ghost use Rattle.text_fields.specs.Spelling.{words_in};
ghost use Rattle.text_fields.specs.TextWords.{text_of};
ghost use Rattle.graph_text.specs.GraphTexts.{IsGraphText};
ghost use Rattle.graph_text.specs.GraphReading.{IsGraph};
ghost use Rattle.cmr_front.specs.GraphText.{StopsGraph};

use crate::outcome::{FaultKind, Stop};
use graph_text::{GraphError, SizedNetwork, read_graph};
use std::alloc::Global;

/// The network that the text of a file represents, or why the run ends: the text's fault.
pub fn read_graph_file<'a>(
    alloc: Global,
    name: &'a str,
    bytes: &[u8],
) -> Result<SizedNetwork, Stop<'a>>
    ensures read { IfOk result (λ net. IsGraph (text_of bytes.now) (Ok net)) }
    ensures text { IfOk result (IsGraphText (words_in bytes.now)) }
    ensures stopped { IfErr result (StopsGraph name.entry.now bytes.now) }
{
    match read_graph(alloc, bytes) {
        Ok(sized) => Ok(sized),
        Err(GraphError::Fault { kind, place }) => Err(Stop::BadText {
            name,
            kind: FaultKind::Graph(kind),
            place,
        }),
        Err(GraphError::Memory) => Err(Stop::Memory),
    }
}
