// Graphic matrices and network matrices, and the minimal submatrices of the others.
ghost use Rattle.std.specs.Prelude.{IfOk};
ghost use Rattle.cmr_base.specs.Trees.{IsBinary};

use crate::compared::{is, is_text};
use cmr_base::{Matrix, reproduces, reproduces_support};
use graph_realise::{minimal_not_graphic, realise};
use network_orient::{minimal_not_network, orient};
use std::alloc::Global;
use std::test::Fail;
use worked_given::{binary, found_text, mark, matrix, zeros};

// Whether there is a tree whose paths are the supports.
fn is_graphic(alloc: Global, matrix: &Matrix) -> Result<bool, Fail> {
    match realise(alloc, matrix)? {
        Some(net) => Ok(reproduces_support(alloc, &net, matrix)?),
        None => Ok(false),
    }
}

fn least_not_graphic(alloc: Global, matrix: &Matrix) -> Result<Vec<u8>, Fail>
    requires { IsBinary matrix.now }
{
    found_text(alloc, &minimal_not_graphic(alloc, matrix)?)
}

#[test]
fn graphic(rt: HostRuntime) -> Result<(), Fail> {
    for (text, yes, minimal) in [
        ("0 0/", true, "none/"),
        ("0 3/", true, "none/"),
        ("3 0////", true, "none/"),
        ("3 2/0 0/0 0/0 0/", true, "none/"),
        // A spanning star and a spanning path of the complete graph on five nodes, and its dual.
        (
            "4 6/1 1 1 0 0 0/1 0 0 1 1 0/0 1 0 1 0 1/0 0 1 0 1 1/",
            true,
            "none/",
        ),
        (
            "4 6/1 0 1 0 0 1/1 1 1 1 0 1/0 1 1 1 1 1/0 0 0 1 1 0/",
            true,
            "none/",
        ),
        (
            "6 4/1 1 0 0/1 0 1 0/1 0 0 1/0 1 1 0/0 1 0 1/0 0 1 1/",
            false,
            "0 1 2 3 4 5/0 1 2 3/",
        ),
        // The Fano plane, without further lines and below a single entry.
        ("3 4/0 1 1 1/1 0 1 1/1 1 0 1/", false, "0 1 2/0 1 2 3/"),
        (
            "4 5/1 0 0 0 0/1 0 1 1 1/0 1 0 1 1/0 1 1 0 1/",
            false,
            "1 2 3/1 2 3 4/",
        ),
    ] {
        let matrix = binary(rt.alloc(), text)?;
        is(&rt, is_graphic(rt.alloc(), &matrix)?, yes);
        is_text(&rt, &least_not_graphic(rt.alloc(), &matrix)?, minimal)?;
    }
    Ok(())
}

// Signs have no effect.
#[test]
fn graphic_support(rt: HostRuntime) -> Result<(), Fail> {
    for (text, yes) in [
        ("2 2/1 1/1 -1/", true),
        ("3 4/0 -1 1 1/1 0 1 -1/1 1 0 1/", false),
    ] {
        let matrix = matrix(rt.alloc(), text)?;
        is(&rt, is_graphic(rt.alloc(), &matrix)?, yes);
    }
    Ok(())
}

// Each three rows in a row are a column, so that each split takes few rows away.
fn path(alloc: Global) -> Result<Matrix, Fail>
    ensures { IfOk result IsBinary }
{
    let mut path = zeros(alloc, 200, 198)?;
    for column in 0..198u32 {
        mark(&mut path, column, column);
        mark(&mut path, column + 1, column);
        mark(&mut path, column + 2, column);
    }
    Ok(path)
}

#[test]
fn long_path(rt: HostRuntime) -> Result<(), Fail> {
    let path = path(rt.alloc())?;
    is(&rt, is_graphic(rt.alloc(), &path)?, true);
    Ok(())
}

// Whether there is a directed tree whose paths are the columns.
fn is_network(alloc: Global, matrix: &Matrix) -> Result<bool, Fail> {
    match orient(alloc, matrix)? {
        Some(net) => Ok(reproduces(alloc, &net, matrix)?),
        None => Ok(false),
    }
}

fn least_not_network(alloc: Global, matrix: &Matrix) -> Result<Vec<u8>, Fail> {
    found_text(alloc, &minimal_not_network(alloc, matrix)?)
}

#[test]
fn network(rt: HostRuntime) -> Result<(), Fail> {
    for (text, yes, minimal) in [
        ("3 3/1 1 0/0 1 1/1 0 -1/", true, "none/"),
        ("2 4/1 0 -1 0/-1 0 1 1/", true, "none/"),
        // Two groups of lines whose signs are independent.
        ("3 4/-1 1 0 0/0 0 1 -1/0 0 0 1/", true, "none/"),
        ("3 0////", true, "none/"),
        ("0 2/", true, "none/"),
        // The support has a tree, the star of three arcs, and no directions give these signs.
        ("3 3/1 1 0/0 1 1/1 0 1/", false, "0 1 2/0 1 2/"),
        ("2 2/1 1/1 -1/", false, "0 1/0 1/"),
        // Between two single entries there is a block whose support has no tree.
        (
            "6 6/1 0 0 0 0 0/0 1 1 0 0 0/0 1 0 1 0 0/0 1 0 0 1 0/0 1 1 1 1 0/0 0 0 0 0 1/",
            false,
            "1 2 3 4/1 2 3 4/",
        ),
    ] {
        let matrix = matrix(rt.alloc(), text)?;
        is(&rt, is_network(rt.alloc(), &matrix)?, yes);
        is_text(&rt, &least_not_network(rt.alloc(), &matrix)?, minimal)?;
    }
    Ok(())
}
