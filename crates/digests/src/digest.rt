ghost use Rattle.std.specs.Prelude.{◌≡◌, ◌↔◌, IsTrue, IsPermutation};
ghost use Rattle.std.specs.List.Sorted.{IsNonDecreasing, IsStrictlyIncreasing};
ghost use Rattle.digests.specs.Digests.{mixed, AreDifferent};

// An odd number whose bits look random.
const MULTIPLIER: u64 = 11_400_714_819_323_198_485;

/// A digest after one more word. Equal lists of words have equal digests, and most different lists have different ones.
pub fn mixed(digest: u64, word: u64) -> u64
    ensures { result ≡ mixed digest word }
{
    (digest.rotate_left(32) ^ word).wrapping_mul(MULTIPLIER)
}

/// Whether all numbers are different. The call sorts them.
pub fn are_different(numbers: &mut [u64]) -> bool
    ensures answer { IsTrue result ↔ AreDifferent numbers.old }
    ensures same { IsPermutation numbers.old numbers.new }
    ensures sorted { IsNonDecreasing numbers.new }
{
    numbers.sort_unstable();
    are_increasing(numbers)
}

// Whether each number is below the next.
fn are_increasing(numbers: &[u64]) -> bool
    ensures { IsTrue result ↔ IsStrictlyIncreasing numbers.now }
{
    for place in 1..numbers.len() {
        if numbers[place - 1] >= numbers[place] {
            return false;
        }
    }
    true
}
