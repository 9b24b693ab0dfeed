// Texts of decomposition trees, and the verdicts of the trees.
use crate::compared::{are_texts, is_text};
use std::alloc::Global;
use std::process::Abort;
use std::test::Fail;
use tree_text::{TreeError, read_tree, write_tree};
use tree_type::{DecTree, VerdictOf, verdict};
use worked_given::{bytes, named_lines_text, row_text};

fn tree_of(alloc: Global, text: &str) -> Result<DecTree, Fail> {
    Ok(read_tree(alloc, &bytes(alloc, text)?)?)
}

fn says_text(alloc: Global, tree: &DecTree) -> Result<Vec<u8>, Fail> {
    match verdict(tree) {
        VerdictOf::Yes => bytes(alloc, "yes/"),
        VerdictOf::No(lines) => named_lines_text(alloc, "no", &[], lines),
        VerdictOf::Undecided(lines) => named_lines_text(alloc, "undecided", &[], lines),
    }
}

// Each text is read and written back unchanged.
#[test]
fn texts(rt: HostRuntime) -> Result<(), Fail> {
    for row in TEXTS.split('\n') {
        is_read(&rt, row)?;
    }
    Ok(())
}

fn is_read<R: Abort + AllocGlobal>(rt: &R, row: &str) -> Result<(), Fail> {
    let (text, says) = row.split_once("; ").ok_or("no verdict")?;
    let tree = tree_of(rt.alloc(), text)?;
    is_tree(rt, &tree, text, says)
}

// Stops the test if the tree has another text or another verdict.
fn is_tree<R: Abort + AllocGlobal>(
    rt: &R,
    tree: &DecTree,
    text: &str,
    says: &str,
) -> Result<(), Fail> {
    is_text(rt, &says_text(rt.alloc(), tree)?, says)?;
    is_text(rt, &write_tree(rt.alloc(), tree)?, text)
}

// White space and the spelling of numbers are free.
#[test]
fn free_spelling(rt: HostRuntime) -> Result<(), Fail> {
    let text = " cmr-tree  1 +2 02 reduced 2 2 01 +2 1 2 4 r+1 r002 c1 c2/empty 0 0";
    let tree = tree_of(rt.alloc(), text)?;
    is_tree(
        &rt,
        &tree,
        "cmr-tree 2/2 2/reduced 2 2 1 2 1 2/4 r1 r2 c1 c2/empty 0 0/",
        "yes/",
    )
}

// The kind of the first fault, and its position.
fn fault_text(alloc: Global, text: &[u8]) -> Result<Vec<u8>, Fail> {
    match read_tree(alloc, text) {
        Err(TreeError::Fault { kind, place }) => row_text(
            alloc,
            &format!(in alloc; "{kind:?}")?,
            &[place.min(99_999) as u32],
        ),
        Err(fault) => Err(fault.into()),
        Ok(_) => bytes(alloc, "none/"),
    }
}

fn first_fault(alloc: Global, text: &str) -> Result<Vec<u8>, Fail> {
    fault_text(alloc, &bytes(alloc, text)?)
}

#[test]
fn faults(rt: HostRuntime) -> Result<(), Fail> {
    are_texts(&rt, FAULTS, first_fault)
}

// A text with one-sums of one child each above an undecided node.
fn chain(alloc: Global, levels: usize) -> Result<Vec<u8>, Fail> {
    let mut text = bytes(alloc, "cmr-tree 2/1 0/")?;
    for _ in 0..levels {
        text.extend_from_slice(b"onesum 1 0 1\n1\n")?;
    }
    text.extend_from_slice(b"undecided 1 0 1\n")?;
    Ok(text)
}

// Reading, writing and dropping a tree, and its verdict, recurse on the ordinary stack.
#[test]
fn deep_trees(rt: HostRuntime) -> Result<(), Fail> {
    let text = chain(rt.alloc(), 2_000)?;
    let tree = read_tree(rt.alloc(), &text)?;
    is_undecided_tree(&rt, &tree, &text)
}

fn is_undecided_tree<R: Abort + AllocGlobal>(
    rt: &R,
    tree: &DecTree,
    text: &[u8],
) -> Result<(), Fail> {
    is_text(rt, &says_text(rt.alloc(), tree)?, "undecided/0//")?;
    assert_eq!(rt; write_tree(rt.alloc(), tree)?.as_slice(), text);
    Ok(())
}

#[test]
fn too_deep_trees(rt: HostRuntime) -> Result<(), Fail> {
    let text = chain(rt.alloc(), 2_001)?;
    is_text(&rt, &fault_text(rt.alloc(), &text)?, "TooDeep 30030/")
}

// A tree, and its verdict.
const TEXTS: &str = "\
cmr-tree 2/2 2/reduced 2 2 1 2 1 2/4 r1 r2 c1 c2/empty 0 0/; yes/
cmr-tree 2/9 9/twosum 9 9 1 2 3 4 5 6 7 8 9 1 2 3 4 5 6 7 8 9/1 5 4 5 6 7 8 9 5 6 7 8 9/r10 5 5 1 6 7 8 9 5 6 7 8 9/r10 5 5 1 2 3 4 5 1 2 3 4 5/; yes/
cmr-tree 2/7 7/mixed 7 7 1 2 3 4 5 6 7 1 2 3 4 5 6 7/5 5 6 1 2 2 4 3 4 5 6 7 5 6 7/conetwork 6 4 1 2 4 5 6 7 2 5 6 7/0 1 1 2 2 3 3 4 0 2 1 3 2 4 0 3 1 4 0 4/enumerated 1 0 1/; yes/
cmr-tree 2/2 3/onesum 2 3 1 2 1 2 3/3/network 1 1 1 1/0 1 0 1/network 0 0/cycle 1 1 2 2/1 0 2/; no/1//
cmr-tree 2/2 2/violator 2 2 1 2 1 2/2 2 1 2 1 2/; no/0 1/0 1/
cmr-tree 2/4 4/delta 4 4 1 2 3 4 1 2 3 4/1 1 2 3 3 4 2 2 1 2 1 2/undecided 4 3 1 2 3 4 1 2 3/empty 0 0/; undecided/0 1 2 3/0 1 2/
cmr-tree 2/4 4/y 4 4 1 2 3 4 1 2 3 4/1 1 2 3 3 4 2 2 1 2 1 2/undecided 4 3 1 2 3 4 1 2 3/violator 1 0 2/1 0 2/; no/1//";

// A text that is not a tree, and its first fault.
const FAULTS: &str = "\
; Short 0/
cmr-tree 1/2 2/reduced 2 2 1; Short 28/
cmr-chain 1; WrongVersion 0/
cmr-tree 01/1 1; WrongVersion 9/
cmr-tree 3/1 0/onesum 1 0 1/999999999; WrongVersion 9/
cmr-tree 1/x; NotNumber 11/
cmr-tree 1/2147483648; TooBig 11/
cmr-tree 1/1001; OutOfRange 11/
cmr-tree 1/1 0/delt; UnknownKind 15/
cmr-tree 1/1 0/concentrated; UnknownKind 15/
cmr-tree 1/1 0/onesum 1 0 1/999999999; OutOfRange 28/
cmr-tree 1/2 2/r10 2 2 1 1 1 2; NotRising 25/
cmr-tree 1/2 2/r10 2 2 1 2 1 3; OutOfRange 29/
cmr-tree 1/2 2/reduced 1 2 1 1 2/1 r2; NotPart 35/
cmr-tree 1/2 2/reduced 1 2 1 1 2/1 2; NotNumber 35/
cmr-tree 1/2 2/reduced 1 2 1 1 2/1 r1/empty 1 0 2; NotPart 48/
cmr-tree 1/0 0/empty 0 0/x; Extra 25/";
