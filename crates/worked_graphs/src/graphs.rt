// Directed trees, their walks, and the matrices that they give.
use crate::compared::is;
use cmr_base::{
    Network, Pair, PairList, is_tree, reproduces as has_signs, reproduces_support as has_support,
};
use std::alloc::Global;
use std::test::Fail;
use worked_given::matrix;

type Ends<'a> = &'a [(u32, u32)];

fn pairs(alloc: Global, ends: Ends<'_>) -> Result<PairList, Fail> {
    let mut pairs = PairList::new(alloc);
    for (tail, head) in ends {
        pairs.push(Pair {
            tail: *tail,
            head: *head,
        })?;
    }
    Ok(pairs)
}

fn network(alloc: Global, arcs: Ends<'_>, walks: Ends<'_>) -> Result<Network, Fail> {
    Ok(Network {
        arcs: pairs(alloc, arcs)?,
        walks: pairs(alloc, walks)?,
    })
}

fn are_tree(alloc: Global, arcs: Ends<'_>, rows: u32) -> Result<bool, Fail> {
    Ok(is_tree(alloc, &network(alloc, arcs, &[])?, rows)?)
}

#[test]
fn trees(rt: HostRuntime) -> Result<(), Fail> {
    let table: [(Ends<'_>, u32, bool); 8] = [
        (&[(0, 1)], 1, true),
        // A path, a star and the single node.
        (&[(2, 1), (0, 2), (1, 3)], 3, true),
        (&[(3, 1), (0, 3), (2, 3)], 3, true),
        (&[], 0, true),
        // A cycle and an isolated node, a loop, an arc too few, and a node out of range.
        (&[(0, 1), (1, 2), (2, 0)], 3, false),
        (&[(0, 0)], 1, false),
        (&[(0, 1)], 2, false),
        (&[(0, 1), (1, 4_294_967_295)], 2, false),
    ];
    for (arcs, rows, expected) in table {
        is(&rt, are_tree(rt.alloc(), arcs, rows)?, expected);
    }
    Ok(())
}

// Whether the supports are the paths of the walks, and whether the signs fit too.
fn comparison(
    alloc: Global,
    arcs: Ends<'_>,
    walks: Ends<'_>,
    text: &str,
) -> Result<(bool, bool), Fail> {
    let network = network(alloc, arcs, walks)?;
    let matrix = matrix(alloc, text)?;
    let support = has_support(alloc, &network, &matrix)?;
    let signs = has_signs(alloc, &network, &matrix)?;
    Ok((support, signs))
}

#[test]
fn comparisons(rt: HostRuntime) -> Result<(), Fail> {
    let forwards: Ends<'_> = &[(0, 1), (1, 2)];
    let path = "2 1/1/1/";
    let table: [(Ends<'_>, Ends<'_>, &str, bool, bool); 10] = [
        (forwards, &[(0, 2)], path, true, true),
        (&[(0, 1)], &[(1, 0)], "1 1/1/", true, false),
        (&[(0, 1)], &[(1, 0)], "1 1/-1/", true, true),
        // From a node below the meeting node to another one.
        (&[(1, 0), (0, 2)], &[(1, 2)], path, true, true),
        // An arc reversed, and the walk reversed.
        (&[(1, 0), (1, 2)], &[(0, 2)], path, true, false),
        (forwards, &[(2, 0)], path, true, false),
        // A path that is too short, a walk too many, none, and a node out of range.
        (forwards, &[(0, 1)], path, false, false),
        (forwards, &[(0, 2), (0, 2)], path, false, false),
        (forwards, &[], path, false, false),
        (forwards, &[(0, 3)], path, false, false),
    ];
    for (arcs, walks, text, support, signs) in table {
        let found = comparison(rt.alloc(), arcs, walks, text)?;
        is(&rt, found == (support, signs), true);
    }
    Ok(())
}
