// The line of standard error.
ghost use Rattle.std.specs.Prelude.{◌≡◌, ◌++◌, map};
ghost use Rattle.std.specs.List.{concat};
ghost use Rattle.std.specs.Fmt.{decimal};
ghost use Rattle.cmr_front.specs.Outcome.{cannot_write_line, fault_line, chain_kind_name, graph_kind_name, kind_name, stop_report, text_kind_name, tree_kind_name};
ghost use Rattle.cmr_front.specs.SinkLines.{GetsLine};

use crate::outcome::{FaultKind, Stop};
use chains::ChainKind;
use cmr_io::{Sink, WriteFault, write_whole};
use graph_text::GraphKind;
use itoa::Buffer;
use matrix_text::TextKind;
use tree_text::TreeKind;

/// Writes the line that says why a run has no outcome. If the write fails, nothing else changes.
pub fn write_stop<E: Sink>(err: &mut E, stop: &Stop<'_>)
    ensures { GetsLine E.Sink err.old err.new (stop_report stop.now).error }
{
    match stop {
        Stop::BadWords => write_line(err, "cmr: bad command line", "", "\n"),
        Stop::CannotRead { name } => write_line(err, "cmr: cannot read ", name, "\n"),
        Stop::TooLong { name } => write_line(err, "cmr: ", name, ": TooLong\n"),
        Stop::BadText { name, kind, place } => write_fault(err, name, kind_name(*kind), *place),
        Stop::Memory => write_line(err, "cmr: out of memory", "", "\n"),
    }
}

/// Writes that a name cannot be written. If the write fails, nothing else changes.
pub fn write_cannot_write<E: Sink>(err: &mut E, name: &str)
    ensures { GetsLine E.Sink err.old err.new (cannot_write_line name.now) }
{
    write_line(err, "cmr: cannot write ", name, "\n");
}

fn write_fault<E: Sink>(err: &mut E, name: &str, kind: &str, place: usize)
    ensures { GetsLine E.Sink err.old err.new (fault_line name.now kind.now (decimal place)) }
{
    let mut buffer = Buffer::new();
    write_fault_at(err, name, kind, buffer.format(place));
}

fn write_fault_at<'a, E: Sink>(err: &mut E, name: &'a str, kind: &'a str, place: &'a str)
    ensures { GetsLine E.Sink err.old err.new (fault_line name.now kind.now place.now) }
{
    write_parts(err, &["cmr: ", name, ": ", kind, " at byte ", place, "\n"]);
}

fn write_line<'a, E: Sink>(err: &mut E, before: &'a str, name: &'a str, after: &'a str)
    ensures { GetsLine E.Sink err.old err.new (before.now ++ name.now ++ after.now) }
{
    write_parts(err, &[before, name, after]);
}

fn write_parts<E: Sink>(err: &mut E, parts: &[&str])
    ensures { GetsLine E.Sink err.old err.new (concat (map (λ part. part.now) parts.now)) }
{
    for part in parts {
        if let Err(WriteFault) = write_whole(err, part.as_bytes()) {
            return;
        }
    }
}

fn kind_name(kind: FaultKind) -> &'static str
    ensures { result.now ≡ kind_name kind }
{
    match kind {
        FaultKind::Matrix(kind) => text_kind_name(kind),
        FaultKind::Tree(kind) => tree_kind_name(kind),
        FaultKind::Chain(kind) => chain_kind_name(kind),
        FaultKind::Graph(kind) => graph_kind_name(kind),
    }
}

fn text_kind_name(kind: TextKind) -> &'static str
    ensures { result.now ≡ text_kind_name kind }
{
    match kind {
        TextKind::NotNumber => "NotNumber",
        TextKind::TooBig => "TooBig",
        TextKind::TooManyRows => "TooManyRows",
        TextKind::TooManyColumns => "TooManyColumns",
        TextKind::BadEntry => "BadEntry",
        TextKind::NotBinary => "NotBinary",
        TextKind::Short => "Short",
        TextKind::Extra => "Extra",
        TextKind::RowOutOfRange => "RowOutOfRange",
        TextKind::ColumnOutOfRange => "ColumnOutOfRange",
        TextKind::TwiceNamed => "TwiceNamed",
        TextKind::NotRising => "NotRising",
        TextKind::OtherSize => "OtherSize",
    }
}

fn tree_kind_name(kind: TreeKind) -> &'static str
    ensures { result.now ≡ tree_kind_name kind }
{
    match kind {
        TreeKind::NotNumber => "NotNumber",
        TreeKind::TooBig => "TooBig",
        TreeKind::UnknownKind => "UnknownKind",
        TreeKind::Short => "Short",
        TreeKind::Extra => "Extra",
        TreeKind::NotRising => "NotRising",
        TreeKind::OutOfRange => "OutOfRange",
        TreeKind::NotPart => "NotPart",
        TreeKind::TooDeep => "TooDeep",
        TreeKind::WrongVersion => "WrongVersion",
    }
}

fn chain_kind_name(kind: ChainKind) -> &'static str
    ensures { result.now ≡ chain_kind_name kind }
{
    match kind {
        ChainKind::NotNumber => "NotNumber",
        ChainKind::TooBig => "TooBig",
        ChainKind::UnknownStep => "UnknownStep",
        ChainKind::Short => "Short",
        ChainKind::Extra => "Extra",
        ChainKind::NotRising => "NotRising",
        ChainKind::OutOfRange => "OutOfRange",
        ChainKind::WrongVersion => "WrongVersion",
    }
}

fn graph_kind_name(kind: GraphKind) -> &'static str
    ensures { result.now ≡ graph_kind_name kind }
{
    match kind {
        GraphKind::NotNumber => "NotNumber",
        GraphKind::TooBig => "TooBig",
        GraphKind::BadElement => "BadElement",
        GraphKind::TooManyRows => "TooManyRows",
        GraphKind::TooManyColumns => "TooManyColumns",
        GraphKind::Short => "Short",
        GraphKind::OutOfRange => "OutOfRange",
        GraphKind::NotTree => "NotTree",
    }
}
