// A directed tree in which the columns are paths.
ghost use Rattle.std.specs.Prelude.{◌≡◌, ◌↔◌, IfOk, IsTrue, MatchOption};
ghost use Rattle.cmr_base.specs.Trees.{HasGraphicSupport, IsNetworkMatrix, Reproduces};
ghost use Rattle.network_orient.specs.Orientations.{IsOrientation, directed};

use crate::line_signs::{SignsBetween, signs_between};
use crate::reversing::reversed_network;
use cmr_base::{Matrix, Memory, Network};
use graph_realise::realise;
use std::alloc::Global;

/// How the columns of a matrix are paths of a tree whose arcs are the rows.
#[derive(Debug, Drop)]
pub enum Orientation {
    /// A directed tree, and for each column a path. The path uses an arc forwards if the entry is +1, and backwards if it is
    /// -1.
    Directed(Network),
    /// The supports of the columns are the paths of this tree, but no directions of its arcs give the signs. This row is the
    /// first with a cycle fault.
    WrongSigns { row: u32, net: Network },
    /// The supports of the columns are not the paths of a tree.
    NoTree,
}

impl Orientation {
    /// The directed tree and its paths, if there is one.
    pub fn directed(self) -> Option<Network>
        ensures { result ≡ directed self }
    {
        match self {
            Orientation::Directed(net) => Some(net),
            Orientation::WrongSigns {
                row: _row,
                net: _net,
            } => None,
            Orientation::NoTree => None,
        }
    }
}

/// Decides how the columns are paths of a tree. It searches for one tree for their supports.
pub fn orientation_of(alloc: Global, matrix: &Matrix) -> Result<Orientation, Memory>
    ensures { IfOk result (IsOrientation matrix.now) }
{
    let Some(net) = realise(alloc, matrix)? else {
        return Ok(Orientation::NoTree);
    };
    let reproduced = net.matrix(alloc, matrix.rows(), matrix.columns())?;
    match signs_between(alloc, &reproduced, matrix)? {
        SignsBetween::Found(signs) => {
            Ok(Orientation::Directed(reversed_network(alloc, &net, &signs)?))
        }
        SignsBetween::WrongRow(row) => Ok(Orientation::WrongSigns { row, net }),
    }
}

/// A directed tree whose arcs are the rows, and for each column a path; `None` if and only if the matrix is not a network
/// matrix. The path uses an arc forwards if the entry is +1, and backwards if it is -1.
pub fn orient(alloc: Global, matrix: &Matrix) -> Result<Option<Network>, Memory>
    ensures { IfOk result (λ found.
        MatchOption found (¬ (IsNetworkMatrix matrix.now)) (λ net. Reproduces net matrix.now)) }
{
    match orientation_of(alloc, matrix)? {
        Orientation::Directed(net) => Ok(Some(net)),
        Orientation::WrongSigns { .. } => Ok(None),
        Orientation::NoTree => Ok(None),
    }
}

/// Whether the supports of the columns are the paths of some tree. Signs do not matter.
pub fn has_graphic_support(alloc: Global, matrix: &Matrix) -> Result<bool, Memory>
    ensures { IfOk result (λ yes. IsTrue yes ↔ HasGraphicSupport matrix.now) }
{
    Ok(realise(alloc, matrix)?.is_some())
}
