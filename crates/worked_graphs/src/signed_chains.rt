// Signings of 0/1 matrices, with the chains that force all signs up to the signs of lines.
use crate::compared::{are_texts, is_text};
use camion_sign::{cycle_fault, sign};
use chains::{Chain, ChainError, chain_signs, check_chain, read_chain, write_chain};
use cmr_base::Matrix;
use std::alloc::Global;
use std::test::Fail;
use worked_given::{Lines, binary, bytes, dense, found_text, line_set, matrix, row_text};

const FANO: &str = "3 4/1 1 0 1/1 0 1 1/0 1 1 1/";

const SIGNED_FANO: &str = "3 4/1 1 0 1/1 0 1 1/0 1 -1 1/";

const CHAIN: &str =
    "cmr-chain 1/3 4 9/free 1 1/free 1 2/free 1 4/free 2 1/forced 2 4 2 2 1 2 1 4/free 2 3/free 3 2/forced 3 3 3 3 1 2 3 1 2 3/forced 3 4 2 2 1 3 2 4/violator 2 2 2 3 3 4/";

fn signed(alloc: Global, matrix: &Matrix) -> Result<Vec<u8>, Fail> {
    let (signs, _) = sign(alloc, matrix)?;
    dense(alloc, &signs)
}

// The chain of the steps of the signing and a violator of these lines.
fn chain_of(alloc: Global, matrix: &Matrix, lines: Lines<'_>) -> Result<Vec<u8>, Fail> {
    let (_, steps) = sign(alloc, matrix)?;
    let violator = line_set(alloc, matrix.rows(), matrix.columns(), lines)?;
    let chain = Chain { steps, violator };
    Ok(write_chain(alloc, &chain, matrix.rows(), matrix.columns())?)
}

#[test]
fn signed_matrices(rt: HostRuntime) -> Result<(), Fail> {
    let fano = matrix(rt.alloc(), FANO)?;
    is_text(&rt, &signed(rt.alloc(), &fano)?, SIGNED_FANO)
}

#[test]
fn chains_of_signings(rt: HostRuntime) -> Result<(), Fail> {
    let fano = matrix(rt.alloc(), FANO)?;
    is_text(
        &rt,
        &chain_of(rt.alloc(), &fano, (&[1, 2], &[2, 3]))?,
        CHAIN,
    )
}

// The first part of a chain that breaks its rule, counted from 1, or the signs that it gives. The violator counts as the
// last part.
fn checked(alloc: Global, matrix: &Matrix, text: &str) -> Result<Vec<u8>, Fail> {
    let chain = read_chain(alloc, &bytes(alloc, text)?)?;
    match check_chain(alloc, matrix, &chain)? {
        Some(part) => row_text(alloc, "broken", &[part]),
        None => dense(alloc, &chain_signs(alloc, matrix, &chain)?),
    }
}

#[test]
fn chains_with_a_broken_part(rt: HostRuntime) -> Result<(), Fail> {
    let fano = binary(rt.alloc(), FANO)?;
    for (text, expected) in [
        (CHAIN, SIGNED_FANO),
        // A sign is called free, but the ones before it force it.
        (
            "cmr-chain 1/3 4 9/free 1 1/free 1 2/free 1 4/free 2 1/free 2 4/free 2 3/free 3 2/forced 3 3 3 3 1 2 3 1 2 3/forced 3 4 2 2 1 3 2 4/violator 2 2 2 3 3 4/",
            "broken 5/",
        ),
        // The last step is missing, so one of the violator's ones is unsigned. If an earlier step is missing, its entry is unsigned.
        (
            "cmr-chain 1/3 4 8/free 1 1/free 1 2/free 1 4/free 2 1/forced 2 4 2 2 1 2 1 4/free 2 3/free 3 2/forced 3 3 3 3 1 2 3 1 2 3/violator 2 2 2 3 3 4/",
            "broken 9/",
        ),
        (
            "cmr-chain 1/3 4 8/free 1 1/free 1 4/free 2 1/forced 2 4 2 2 1 2 1 4/free 2 3/free 3 2/forced 3 3 3 3 1 2 3 1 2 3/forced 3 4 2 2 1 3 2 4/violator 2 2 2 3 3 4/",
            "broken 7/",
        ),
        // A forced position outside its lines, the lines of another row, and a violator that is not one.
        (
            "cmr-chain 1/3 4 9/free 1 1/free 1 2/free 1 4/free 2 1/forced 2 3 2 2 1 2 1 4/free 2 3/free 3 2/forced 3 3 3 3 1 2 3 1 2 3/forced 3 4 2 2 1 3 2 4/violator 2 2 2 3 3 4/",
            "broken 5/",
        ),
        (
            "cmr-chain 1/3 4 9/free 1 1/free 1 2/free 1 4/free 2 1/forced 2 4 2 2 1 2 1 4/free 2 3/free 3 2/forced 3 3 3 3 1 2 3 1 2 3/forced 3 4 2 2 1 2 1 4/violator 2 2 2 3 3 4/",
            "broken 9/",
        ),
        (
            "cmr-chain 1/3 4 9/free 1 1/free 1 2/free 1 4/free 2 1/forced 2 4 2 2 1 2 1 4/free 2 3/free 3 2/forced 3 3 3 3 1 2 3 1 2 3/forced 3 4 2 2 1 3 2 4/violator 2 2 1 3 2 4/",
            "broken 10/",
        ),
    ] {
        is_text(&rt, &checked(rt.alloc(), &fano, text)?, expected)?;
    }
    Ok(())
}

#[test]
fn chains_of_other_sizes_or_of_few_steps(rt: HostRuntime) -> Result<(), Fail> {
    let fano = binary(rt.alloc(), FANO)?;
    for (text, expected) in [
        // Other sizes, no step, and a violator whose ones are not all signed.
        (
            "cmr-chain 1/3 5 9/free 1 1/free 1 2/free 1 4/free 2 1/forced 2 4 2 2 1 2 1 4/free 2 3/free 3 2/forced 3 3 3 3 1 2 3 1 2 3/forced 3 4 2 2 1 3 2 4/violator 2 2 2 3 3 4/",
            "broken 1/",
        ),
        ("cmr-chain 1/4 4 0/violator 2 2 2 3 3 4/", "broken 1/"),
        ("cmr-chain 1/3 4 0/violator 2 2 2 3 3 4/", "broken 1/"),
        (
            "cmr-chain 1/3 4 1/free 2 3/violator 2 2 2 3 3 4/",
            "broken 2/",
        ),
        // A position without a one, and a position that is already signed.
        ("cmr-chain 1/3 4 1/free 1 3/violator 0 0/", "broken 1/"),
        (
            "cmr-chain 1/3 4 2/free 1 1/free 1 1/violator 0 0/",
            "broken 2/",
        ),
    ] {
        is_text(&rt, &checked(rt.alloc(), &fano, text)?, expected)?;
    }
    Ok(())
}

// The kind of the first fault, and its position.
fn chain_fault(alloc: Global, text: &str) -> Result<Vec<u8>, Fail> {
    match read_chain(alloc, &bytes(alloc, text)?) {
        Err(ChainError::Fault { kind, place }) => row_text(
            alloc,
            &format!(in alloc; "{kind:?}")?,
            &[place.min(99_999) as u32],
        ),
        Err(fault) => Err(fault.into()),
        Ok(_) => bytes(alloc, "none/"),
    }
}

#[test]
fn faults_of_texts(rt: HostRuntime) -> Result<(), Fail> {
    are_texts(&rt, FAULTS, chain_fault)
}

fn fault_text(alloc: Global, text: &str) -> Result<Vec<u8>, Fail> {
    found_text(alloc, &cycle_fault(alloc, &matrix(alloc, text)?)?)
}

#[test]
fn cycle_faults(rt: HostRuntime) -> Result<(), Fail> {
    are_texts(&rt, CYCLE_FAULTS, fault_text)
}

// A text that is not a chain, and its first fault.
const FAULTS: &str = "\
; Short 0/
cmr-tree 1/; WrongVersion 0/
cmr-chain 2/; WrongVersion 10/
cmr-chain 1/x; NotNumber 12/
cmr-chain 1/2147483648; TooBig 12/
cmr-chain 1/1001; OutOfRange 12/
cmr-chain 1/2 2 5; OutOfRange 16/
cmr-chain 1/2 2 1/violator 0 0/; UnknownStep 18/
cmr-chain 1/2 2 0/free 1 1/; UnknownStep 18/
cmr-chain 1/2 2 1/free 3 1/; OutOfRange 23/
cmr-chain 1/2 2 0/violator 2 0 2 1/; NotRising 33/
cmr-chain 1/2 2 0/violator 0 0/x; Extra 31/
cmr-chain 1/2 2 0/; Short 18/";

// A matrix, and its first cycle fault. In the fifth matrix every cycle is good, and the whole matrix is a violator. The next
// four have several paths: the fault has the least of the shortest paths that pass no column of its row. The next three have
// the same lines in another order, and so at other positions. The last ones are their transposes.
const CYCLE_FAULTS: &str = "\
2 2/1 1/1 -1/; 0 1/0 1/
3 3/1 1 0/0 1 1/1 0 1/; 0 1 2/0 1 2/
3 3/1 1 0/0 1 1/1 0 -1/; none/
0 0/; none/
4 4/1 1 0 0/1 0 1 0/1 0 0 1/1 1 1 1/; none/
3 2/1 1/1 1/1 -1/; 0 2/0 1/
4 3/1 0 1/0 1 1/1 1 0/1 -1 0/; 0 1 2/0 1 2/
4 3/1 0 -1/0 1 1/1 1 0/1 -1 0/; 2 3/0 1/
3 3/1 1 0/0 1 1/1 1 -1/; 1 2/1 2/
4 3/1 1 1/0 1 1/1 0 1/1 1 0/; none/
4 3/0 1 1/1 0 1/1 1 0/1 1 1/; 0 1 2/0 1 2/
3 4/1 0 1 1/1 1 0 1/1 1 1 0/; 0 1 2/1 2 3/
3 4/1 1 0 1/1 0 1 1/0 1 -1 1/; 1 2/2 3/";
