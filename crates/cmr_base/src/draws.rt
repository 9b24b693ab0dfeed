// Pseudorandom numbers, drawn one after another from a state.
ghost use Rattle.std.specs.Prelude.{◌≡◌, ◌≤◌, ◌<◌, ◌+◌, ◌*◌, ◌^◌, IfOk};
ghost use Rattle.cmr_base.specs.Draws.{next_state, draw, draws};

use crate::{MAX_ROWS, Memory};
use std::alloc::Global;

/// Drawn numbers, and the state after them.
#[derive(Drop)]
pub struct Drawn {
    pub numbers: Vec<u32>,
    pub state: u32,
}

/// A drawn number, and the state after it.
#[derive(Clone, Copy, Debug, PartialEq, Eq)]
pub struct DrawnNumber {
    pub number: u32,
    pub state: u32,
}

/// Draws a number below a bound from a state.
pub fn draw_below(bound: u32, state: u32) -> DrawnNumber
    requires bound { 1 ≤ bound }
    requires state { state < 2 ^ 31 }
    ensures number { result.number ≡ (draw bound state).0 }
    ensures state { result.state ≡ (draw bound state).1 }
    ensures below { result.number < bound }
    ensures low { result.state < 2 ^ 31 }
{
    let next = next_state(state);
    DrawnNumber {
        number: next / 1024 % bound,
        state: next,
    }
}

fn next_state(state: u32) -> u32
    requires { state < 2 ^ 31 }
    ensures next { result ≡ next_state state }
    ensures low { result < 2 ^ 31 }
{
    ((1_103_515_245 * u64::from(state) + 12_345) % 2_147_483_648) as u32
}

/// Draws `count` numbers. The first is below `bound`, and each next bound is greater by `step`.
pub fn draw(alloc: Global, count: u32, bound: u32, step: u32, state: u32) -> Result<Drawn, Memory>
    requires bound { 1 ≤ bound }
    requires low_bound { bound ≤ MAX_ROWS + 1 }
    requires step { step ≤ 1 }
    requires count { count ≤ 2 * MAX_ROWS }
    requires state { state < 2 ^ 31 }
    ensures numbers { IfOk result (λ drawn. drawn.numbers.items
        ≡ (draws count bound step state).0) }
    ensures state { IfOk result (λ drawn. drawn.state ≡ (draws count bound step state).1) }
    ensures low { IfOk result (λ drawn. drawn.state < 2 ^ 31) }
{
    let mut numbers = Vec::with_capacity(alloc, count as usize)?;
    let mut now = state;
    let mut below = bound;
    for _place in 0..count {
        let drawn = draw_below(below, now);
        numbers.push(drawn.number)?;
        now = drawn.state;
        below += step;
    }
    Ok(Drawn {
        numbers,
        state: now,
    })
}
