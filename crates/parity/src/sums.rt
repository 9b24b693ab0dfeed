ghost use Rattle.std.specs.Prelude.{◌≡◌, IfOk, length, bit_and, bit_xor};
ghost use Rattle.parity.specs.Equations.{number_of};
ghost use Rattle.parity.specs.PlaneSums.{SumPlanes, with_added_row, without_columns};

use crate::words::{clear, empty_set};
use cmr_base::Memory;
use std::alloc::Global;
use std::marker::Model;

/// The sum of each column modulo 4, in two planes: its low bit and its high bit.
#[derive(Drop)]
pub struct Sums {
    ones: Vec<u64>,
    twos: Vec<u64>,
}

impl Model for Sums {
    ghost use Rattle.parity.specs.PlaneSums.{SumPlanes};

    ghost Value = { SumPlanes };

    ghost use Rattle.parity.specs.SumsView.{planes_of, AreAsLong};

    ghost view = { planes_of };

    ghost invariant = { AreAsLong };
}

impl Sums {
    /// Makes the sums of no rows, in `words` words.
    pub fn new(alloc: Global, words: usize) -> Result<Sums, Memory>
        ensures { IfOk result (λ sums. sums ≡ record { words = words; ones = 0; twos = 0 }) }
    {
        Ok(Sums {
            ones: empty_set(alloc, words)?,
            twos: empty_set(alloc, words)?,
        })
    }

    /// Resets to the sums of no rows.
    pub fn clear(&mut self)
        ensures { self.new ≡ record { words = self.old.words; ones = 0; twos = 0 } }
    {
        clear(&mut self.ones);
        clear(&mut self.twos);
    }

    /// Adds a row, given by the columns in which it is nonzero and the columns in which it is -1.
    pub fn add_row(&mut self, support: &[u64], minus: &[u64])
        requires support { length support.now ≡ self.old.words }
        requires minus { length minus.now ≡ self.old.words }
        ensures { self.new ≡ with_added_row self.old (number_of support.now) (number_of minus.now) }
    {
        add_planes(&mut self.ones, &mut self.twos, support, minus);
    }

    /// Writes the row's bits in the columns with an even sum.
    pub fn mask_row(&self, support: &[u64], equation: &mut [u64])
        requires support { length support.now ≡ self.now.words }
        requires equation { length equation.old ≡ self.now.words }
        ensures { number_of equation.new ≡ without_columns self.now.ones (number_of support.now) }
    {
        write_outside(support, &self.ones, equation);
    }

    /// Writes the columns whose sum is 2 modulo 4.
    pub fn write_halves(&self, equation: &mut [u64])
        requires { length equation.old ≡ self.now.words }
        ensures { number_of equation.new ≡ without_columns self.now.ones self.now.twos }
    {
        write_outside(&self.twos, &self.ones, equation);
    }
}

fn add_planes(ones: &mut [u64], twos: &mut [u64], support: &[u64], minus: &[u64])
    requires twos { length twos.old ≡ length ones.old }
    requires support { length support.now ≡ length ones.old }
    requires minus { length minus.now ≡ length ones.old }
    ensures ones { number_of ones.new ≡ bit_xor (number_of ones.old) (number_of support.now) }
    ensures twos { number_of twos.new
        ≡ bit_xor
        (number_of twos.old)
        (bit_xor (bit_and (number_of ones.old) (number_of support.now)) (number_of minus.now)) }
{
    for place in 0..ones.len() {
        let carry = ones[place] & support[place];
        ones[place] ^= support[place];
        twos[place] ^= carry ^ minus[place];
    }
}

fn write_outside(bits: &[u64], excluded: &[u64], into: &mut [u64])
    requires bits { length bits.now ≡ length into.old }
    requires excluded { length excluded.now ≡ length into.old }
    ensures { number_of into.new ≡ without_columns (number_of excluded.now) (number_of bits.now) }
{
    for place in 0..into.len() {
        into[place] = bits[place] ^ (bits[place] & excluded[place]);
    }
}
