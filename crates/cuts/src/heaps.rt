// Classes of lines in two heaps: the classes in an interval of numbers, and the other classes.
ghost use Rattle.std.specs.Prelude.{◌≡◌};
ghost use Rattle.cuts.specs.Classes.{is_in_heap};

/// The classes from `low` to `high`, and the number of lines in the lighter heap. If this number is 0, there are no two heaps.
#[derive(Clone, Copy)]
pub struct Heaps {
    pub low: u64,
    pub high: u64,
    pub lighter: u32,
}

impl Heaps {
    /// Whether a class is in the heap of the interval, or in the other heap.
    pub fn has(&self, class: u64, inside: bool) -> bool
        ensures { result ≡ is_in_heap self.now class inside }
    {
        class != 0 && (self.low <= class && class <= self.high) == inside
    }
}

// The number of zeros before the first class.
fn zeros_of(sorted: &[u64]) -> usize {
    for place in 0..sorted.len() {
        if sorted[place] != 0 {
            return place;
        }
    }
    sorted.len()
}

/// Two heaps of classes, whose numbers are given in increasing order. The heaps are separated at the step that is nearest to
/// the middle. Number 0 is no class.
pub fn middle_heaps(sorted: &[u64]) -> Heaps {
    let zeros = zeros_of(sorted);
    let middle = zeros / 2 + sorted.len() / 2;
    if is_one_class(sorted, zeros) {
        return no_heaps();
    }
    for away in 0..sorted.len() {
        if is_step(sorted, middle.saturating_sub(away)) {
            return heaps_before(sorted, middle.saturating_sub(away), zeros);
        }
        if is_step(sorted, middle.saturating_add(away)) {
            return heaps_before(sorted, middle.saturating_add(away), zeros);
        }
    }
    no_heaps()
}

/// The value if there are no two heaps.
pub fn no_heaps() -> Heaps {
    Heaps {
        low: 0,
        high: 0,
        lighter: 0,
    }
}

// Whether the numbers from the first class on are equal.
fn is_one_class(sorted: &[u64], zeros: usize) -> bool {
    zeros >= sorted.len() || sorted[zeros] == sorted[sorted.len() - 1]
}

// Whether the number before a position is a class, and the number at the position is another class.
fn is_step(sorted: &[u64], place: usize) -> bool {
    place > 0
        && place < sorted.len()
        && sorted[place - 1] != 0
        && sorted[place - 1] != sorted[place]
}

// The heaps of the classes before a position and from the position on.
fn heaps_before(sorted: &[u64], place: usize, zeros: usize) -> Heaps {
    let lighter = place
        .saturating_sub(zeros)
        .min(sorted.len().saturating_sub(place));
    let high = if place > 0 && place <= sorted.len() {
        sorted[place - 1]
    } else {
        0
    };
    Heaps {
        low: 1,
        high,
        lighter: lighter.min(u32::MAX as usize) as u32,
    }
}
