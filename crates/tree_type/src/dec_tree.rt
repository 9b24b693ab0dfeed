// Whole trees.
ghost use Rattle.std.specs.Prelude.{◌≡◌};
ghost use Rattle.tree_type.specs.DecompositionTrees.{SizedTree};
ghost use Rattle.tree_type.specs.Invariant.{IsDecTree};

use crate::Node;
use std::marker::Model;

/// A decomposition tree for a matrix of given sizes. All line numbers in it are line numbers of this matrix.
#[derive(Debug, Drop)]
pub struct DecTree {
    rows: u32,
    columns: u32,
    root: Node,
}

impl Model for DecTree {
    ghost use Rattle.tree_type.specs.DecompositionTrees.{SizedTree};
    ghost use Rattle.tree_type.specs.Invariant.{IsDecTree};
    ghost use Rattle.tree_type.specs.contracts.tree.Node as e;
    ghost use Rattle.std.specs.Coded.{codes};

    ghost Value = { SizedTree };

    ghost coded = { Prim.hlevel (codes, e.the_row.coded) };

    ghost view = { λ a. record { rows = a.rows; columns = a.columns; root = a.root } };

    ghost invariant = { λ a.
        IsDecTree (record { rows = a.rows; columns = a.columns; root = a.root }) };
}

impl DecTree {
    /// The tree of these sizes with this root.
    pub fn make(rows: u32, columns: u32, root: Node) -> DecTree
        requires { IsDecTree (record { rows = rows; columns = columns; root = root }) }
        ensures { result ≡ record { rows = rows; columns = columns; root = root } }
    {
        DecTree {
            rows,
            columns,
            root,
        }
    }

    /// The root.
    pub fn root(&self) -> &Node
        ensures root { result.now ≡ self.now.root }
        ensures tree { IsDecTree self.now }
    {
        &self.root
    }

    /// The number of rows of the matrix.
    pub fn rows(&self) -> u32
        ensures { result ≡ self.now.rows }
    {
        self.rows
    }

    /// The number of columns of the matrix.
    pub fn columns(&self) -> u32
        ensures { result ≡ self.now.columns }
    {
        self.columns
    }
}
