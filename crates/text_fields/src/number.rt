// Counts, signed numbers, and numbers within limits.
ghost use Rattle.std.specs.Prelude.{◌≡◌, ◌≤◌, ◌<◌, ◌^◌, IfOk};
ghost use Rattle.text_fields.specs.Numbers.{magnitude, count_in, signed_in};
ghost use Rattle.text_fields.specs.Limits.{limited, line_in, increasing_line_in};

use crate::error::{LimitFault, NumberFault};

const LIMIT: u64 = 1 << 31;

// One or more digits of a number below 2^31.
fn magnitude(digits: &[u8]) -> Result<u32, NumberFault>
    ensures value { result ≡ magnitude digits.now }
    ensures small { IfOk result (λ n. n < 2 ^ 31) }
{
    if digits.is_empty() {
        return Err(NumberFault::NotNumber);
    }
    let mut number = 0u64;
    for digit in digits {
        if !digit.is_ascii_digit() {
            return Err(NumberFault::NotNumber);
        }
        number = (10 * number + u64::from(*digit - b'0')).min(LIMIT);
    }
    if number < LIMIT {
        Ok(number as u32)
    } else {
        Err(NumberFault::TooBig)
    }
}

/// The count that a word spells: digits with an optional plus.
pub fn count_in(word: &[u8]) -> Result<u32, NumberFault>
    ensures value { result ≡ count_in word.now }
    ensures small { IfOk result (λ n. n < 2 ^ 31) }
{
    match word {
        [b'+', digits @ ..] => magnitude(digits),
        _ => magnitude(word),
    }
}

/// The number that a word spells: digits with an optional plus or minus.
pub fn signed_in(word: &[u8]) -> Result<i32, NumberFault>
    ensures { result ≡ signed_in word.now }
{
    match word {
        [b'-', digits @ ..] => Ok(-(magnitude(digits)? as i32)),
        _ => Ok(count_in(word)? as i32),
    }
}

/// A count of at most `most`.
pub fn limited(word: &[u8], most: u32) -> Result<u32, LimitFault>
    ensures value { result ≡ limited most word.now }
    ensures within { IfOk result (λ n. n ≤ most) }
{
    match count_in(word) {
        Ok(count) if count <= most => Ok(count),
        Ok(_) => Err(LimitFault::OutOfRange),
        Err(fault) => Err(LimitFault::Number(fault)),
    }
}

/// The number of a line, from 1 to `most`.
pub fn line_in(word: &[u8], most: u32) -> Result<u32, LimitFault>
    ensures value { result ≡ line_in most word.now }
    ensures above { IfOk result (λ n. 0 < n) }
    ensures within { IfOk result (λ n. n ≤ most) }
{
    match limited(word, most)? {
        0 => Err(LimitFault::OutOfRange),
        number => Ok(number),
    }
}

/// The number of a line, from 1 to `most`, above the previous number.
pub fn increasing_line_in(word: &[u8], most: u32, before: u32) -> Result<u32, LimitFault>
    ensures value { result ≡ increasing_line_in most before word.now }
    ensures above { IfOk result (λ n. before < n) }
    ensures within { IfOk result (λ n. n ≤ most) }
{
    match line_in(word, most)? {
        number if before < number => Ok(number),
        _ => Err(LimitFault::NotRising),
    }
}
