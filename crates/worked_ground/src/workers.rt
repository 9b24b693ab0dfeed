// The least number that satisfies a predicate, found by several workers.
ghost use Rattle.std.specs.Prelude.{◌≡◌, ◌⊎◌};

use cmr_base::Memory;
use first_hit::{Probe, Workers, first_hit};
use std::alloc::Global;
use std::sync::atomic::{AtomicU64, Ordering};
use std::test::Fail;

// True of two numbers.
#[derive(Drop)]
struct Pair {
    one: u64,
    two: u64,
}

impl Probe for Pair {
    ghost holds = { λ pair k. (k ≡ pair.one) ⊎ (k ≡ pair.two) };

    fn hit(&self, _: Global, index: u64) -> Result<bool, Memory> {
        Ok(index == self.one || index == self.two)
    }
}

// True of no number. Each of the first two numbers raises its flag and waits for the other's.
#[derive(Drop)]
struct Meeting {
    flags: [AtomicU64; 2],
    seen: [AtomicU64; 2],
}

impl Probe for Meeting {
    ghost holds = { λ _ _. ⊥ };

    fn hit(&self, _: Global, index: u64) -> Result<bool, Memory> {
        if index < 2 {
            let own = index as usize;
            self.flags[own].store(1, Ordering::SeqCst);
            for _ in 0..100_000_000u32 {
                if self.flags[1 - own].load(Ordering::SeqCst) == 1 {
                    self.seen[own].store(1, Ordering::SeqCst);
                    return Ok(false);
                }
            }
        }
        Ok(false)
    }
}

#[test]
fn least_numbers(rt: HostRuntime) -> Result<(), Fail> {
    for (one, two, workers, total, expected) in [
        (700, 300, 1, 1000, Some(300)),
        (700, 300, 2, 1000, Some(300)),
        (700, 300, 64, 1000, Some(300)),
        (700, 300, 3, 300, None),
        (0, 0, 2, 0, None),
        // More workers than numbers, the first number and the last one.
        (0, 0, 64, 1, Some(0)),
        (2, 2, 64, 3, Some(2)),
        (2, 1, 64, 3, Some(1)),
        (3, 4, 64, 3, None),
        (0, 999, 3, 1000, Some(0)),
        (999, 999, 1, 1000, Some(999)),
        (999, 999, 3, 1000, Some(999)),
        (999, 999, 64, 1000, Some(999)),
    ] {
        assert!(&rt; workers >= 1 && workers <= 64);
        let workers = Workers::new(workers);
        let found = first_hit(&rt, rt.alloc(), workers, total, &Pair { one, two })?;
        assert_eq!(rt; found, expected);
    }
    Ok(())
}

#[test]
fn at_the_same_time(rt: HostRuntime) -> Result<(), Fail> {
    let meeting = Meeting {
        flags: [AtomicU64::new(0), AtomicU64::new(0)],
        seen: [AtomicU64::new(0), AtomicU64::new(0)],
    };
    let found = first_hit(&rt, rt.alloc(), Workers::new(2), 2, &meeting)?;
    assert_eq!(rt; found, None);
    assert_eq!(rt; meeting.seen[0].load(Ordering::SeqCst), 1);
    assert_eq!(rt; meeting.seen[1].load(Ordering::SeqCst), 1);
    Ok(())
}
