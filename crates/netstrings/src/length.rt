// The length of a netstring.
ghost use Rattle.std.specs.Prelude.{◌≡◌, ◌<◌, ◌^◌, ℕ, IfNone, IfSome};
ghost use Rattle.std.specs.Fmt.{decimal};

use itoa::Buffer;
use text_fields::count_in;

/// The number below 2^31 whose decimal digits these are. Only the number 0 begins with the digit 0.
pub fn length_in(digits: &[u8]) -> Option<usize>
    ensures some { IfSome result (λ n. digits.now ≡ decimal n) }
    ensures small { IfSome result (λ n. n < 2 ^ 31) }
    ensures none { IfNone result ((n : ℕ) → n < 2 ^ 31 → digits.now ≡ decimal n → ⊥) }
{
    let Ok(count) = count_in(digits) else {
        return None;
    };
    let mut buffer = Buffer::new();
    if buffer.format(count).as_bytes() == digits {
        Some(count as usize)
    } else {
        None
    }
}
