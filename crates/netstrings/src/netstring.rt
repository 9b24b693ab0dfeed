// The netstring at the beginning of a text: a length in digits, a colon, this number of bytes, and a comma.
ghost use Rattle.std.specs.Prelude.{◌≡◌, ◌<◌, ◌^◌, ◌++◌, ◌∷◌, ℕ, IfNone, IfSome, MatchOption, length, take, drop};
ghost use Rattle.std.specs.Fmt.{decimal};
ghost use Rattle.netstrings.specs.Netstrings.{Begins, BeginsWithNone, StartsWith};
ghost use Rattle.netstrings.specs.Colons.{IsFirstColon, HasNoColon};

use crate::length::length_in;

/// The content of the first netstring, and the bytes after it.
#[derive(Clone, Copy, Debug)]
pub struct Netstring<'a> {
    pub text: &'a [u8],
    pub rest: &'a [u8],
}

/// How a text begins.
#[derive(Clone, Copy, Debug)]
pub enum Beginning<'a> {
    /// With a whole netstring.
    Whole(Netstring<'a>),
    /// With none yet: more bytes may complete one.
    Cut,
    /// With none, whatever bytes follow.
    Fault,
}

/// Decides whether a text begins with a netstring, and if not, whether more bytes may complete one.
pub fn beginning_of(bytes: &[u8]) -> Beginning<'_>
    ensures { Begins bytes.now result }
{
    match colon(bytes) {
        Some(end) => match length_in(&bytes[..end]) {
            Some(count) => after_colon(bytes, end, count),
            None => Beginning::Fault,
        },
        None => without_colon(bytes),
    }
}

// The same for a text without a colon.
fn without_colon(bytes: &[u8]) -> Beginning<'_>
    requires { HasNoColon bytes.now }
    ensures { Begins bytes.now result }
{
    if bytes.is_empty() {
        return Beginning::Cut;
    }
    match length_in(bytes) {
        Some(_) => Beginning::Cut,
        None => Beginning::Fault,
    }
}

// The same for a text whose first colon is at this position, after the digits of a count.
fn after_colon(bytes: &[u8], at: usize, count: usize) -> Beginning<'_>
    requires within { at < length bytes.now }
    requires first { IsFirstColon bytes.now at }
    requires small { count < 2 ^ 31 }
    requires digits { take at bytes.now ≡ decimal count }
    ensures { Begins bytes.now result }
{
    let left = &bytes[at + 1..];
    if left.len() <= count {
        return Beginning::Cut;
    }
    if left[count] != b',' {
        return Beginning::Fault;
    }
    Beginning::Whole(Netstring {
        text: &left[..count],
        rest: &left[count + 1..],
    })
}

/// The first netstring, and `None` if and only if the text begins with none.
pub fn first_netstring(bytes: &[u8]) -> Option<Netstring<'_>>
    ensures some { IfSome result (λ first. StartsWith bytes.now first.text.now first.rest.now) }
    ensures none { IfNone result (BeginsWithNone bytes.now) }
{
    match beginning_of(bytes) {
        Beginning::Whole(first) => Some(first),
        Beginning::Cut | Beginning::Fault => None,
    }
}

// The position of the first colon.
fn colon(bytes: &[u8]) -> Option<usize>
    ensures none { IfNone result (HasNoColon bytes.now) }
    ensures some { IfSome result (λ at. IsFirstColon bytes.now at) }
    ensures within { IfSome result (λ at. at < length bytes.now) }
{
    for (at, byte) in bytes.iter().enumerate() {
        if *byte == b':' {
            return Some(at);
        }
    }
    None
}
