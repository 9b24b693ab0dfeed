// A request: the words of a run and its files.
ghost use Rattle.std.specs.Prelude.{◌≡◌, IsErrOf, IfOk, map};
ghost use Rattle.frames.specs.Requests.{IsFileRowOf, IsNoFileRow, IsNoRequest, IsNoRow, IsRowOf, IsTextOf, given_file};
ghost use Rattle.frames.specs.declared.request.RequestError.TheVariants.{Memory, NoRequest};

use cmr_base::{Memory, Word, WordList};
use netstrings::first_netstring;
use std::alloc::{AllocError, AllocFailed, Global};
use std::str;
use thiserror::Error;

/// A name and what it holds.
#[derive(Clone, Copy, Debug)]
pub struct GivenFile<'a> {
    pub name: &'a str,
    pub bytes: &'a [u8],
}

/// The words of a run, and the files that it can read.
#[derive(Drop)]
pub struct Request<'a> {
    pub words: WordList,
    pub files: Vec<GivenFile<'a>>,
}

/// Why a request was not read.
#[derive(Clone, Copy, Debug, PartialEq, Eq, Error)]
pub enum RequestError {
    /// The bytes are the text of no request.
    #[error("no request")]
    NoRequest,
    /// An allocation failed.
    #[error("out of memory")]
    Memory,
}

impl From<Memory> for RequestError {
    ghost from_gives = { λ _ e. e ≡ Memory };

    fn from(_: Memory) -> Self {
        RequestError::Memory
    }
}

impl From<AllocError> for RequestError {
    ghost from_gives = { λ _ e. e ≡ Memory };

    fn from(_: AllocError) -> Self {
        RequestError::Memory
    }
}

impl<T: Drop> From<AllocFailed<T>> for RequestError {
    ghost from_gives = { λ _ e. e ≡ Memory };

    fn from(_: AllocFailed<T>) -> Self {
        RequestError::Memory
    }
}

/// The request with this text: a netstring of the netstrings of the words, then the netstrings of the name and of the bytes of each file.
pub fn read_request(alloc: Global, text: &[u8]) -> Result<Request<'_>, RequestError>
    ensures text { IfOk result (λ request. IsTextOf text.now request.words
        (map given_file request.files.items)) }
    ensures none { IsErrOf result RequestError.NoRequest → IsNoRequest text.now }
{
    let Some(head) = first_netstring(text) else {
        return Err(RequestError::NoRequest);
    };
    let words = read_words(alloc, head.text)?;
    let files = read_files(alloc, head.rest)?;
    Ok(Request { words, files })
}

// The words with these netstrings.
#[tactic(auto, using(crate::proofs::RequestLemmas::no_words_read, crate::proofs::RequestLemmas::word_read, crate::proofs::RequestLemmas::words_end, crate::proofs::RequestLemmas::no_word, crate::proofs::RequestLemmas::no_utf8))]
fn read_words(alloc: Global, text: &[u8]) -> Result<WordList, RequestError>
    ensures text { IfOk result (IsRowOf text.now) }
    ensures none { IsErrOf result RequestError.NoRequest → IsNoRow text.now }
{
    let mut words = WordList::new(alloc);
    let mut left = text;
    'words: while !left.is_empty() {
        let Some(next) = first_netstring(left) else {
            return Err(RequestError::NoRequest);
        };
        let Ok(word) = str::from_utf8(next.text) else {
            return Err(RequestError::NoRequest);
        };
        words.push(Word::new(alloc, word)?)?;
        left = next.rest;
    }
    Ok(words)
}

// The files with these netstrings.
#[tactic(auto, using(crate::proofs::RequestLemmas::no_files_read, crate::proofs::RequestLemmas::file_read, crate::proofs::RequestLemmas::files_end, crate::proofs::RequestLemmas::no_name, crate::proofs::RequestLemmas::no_utf8_name, crate::proofs::RequestLemmas::no_bytes))]
fn read_files(alloc: Global, text: &[u8]) -> Result<Vec<GivenFile<'_>>, RequestError>
    ensures text { IfOk result (λ files. IsFileRowOf text.now (map given_file files.items)) }
    ensures none { IsErrOf result RequestError.NoRequest → IsNoFileRow text.now }
{
    let mut files = Vec::new(alloc);
    let mut left = text;
    'files: while !left.is_empty() {
        let Some(head) = first_netstring(left) else {
            return Err(RequestError::NoRequest);
        };
        let Ok(name) = str::from_utf8(head.text) else {
            return Err(RequestError::NoRequest);
        };
        let Some(next) = first_netstring(head.rest) else {
            return Err(RequestError::NoRequest);
        };
        files.push(GivenFile {
            name,
            bytes: next.text,
        })?;
        left = next.rest;
    }
    Ok(files)
}
