// Lines that wait until their pulls are followed.
ghost use Rattle.std.specs.Prelude.{◌≡◌, ◌++◌, ◌∷◌, [], length, IfOk, OnErr, OnOk, MatchOption};

use cmr_base::Memory;
use std::alloc::Global;
use std::marker::Model;

/// The lines that wait, in the order in which they came. Those before `past` are taken.
#[derive(Drop)]
pub struct Waiting {
    lines: Vec<u32>,
    past: usize,
}

impl Model for Waiting {
    ghost use Rattle.std.specs.Prelude.{◌≤◌, ℕ, List, drop, length};

    ghost Value = { List ℕ };

    ghost view = { λ waiting. drop waiting.past waiting.lines.items };

    ghost invariant = { λ waiting. waiting.past ≤ length waiting.lines.items };
}

impl Waiting {
    /// No lines, with room for a number of lines.
    pub fn new(alloc: Global, room: u32) -> Result<Waiting, Memory>
        ensures { IfOk result (λ waiting. waiting ≡ []) }
    {
        Ok(Waiting {
            lines: Vec::with_capacity(alloc, room as usize)?,
            past: 0,
        })
    }

    /// The number of lines.
    pub fn len(&self) -> usize
        ensures { result ≡ length self.now }
    {
        self.lines.len() - self.past
    }

    /// Removes all lines.
    pub fn clear(&mut self)
        ensures { self.new ≡ [] }
    {
        self.lines.clear();
        self.past = 0;
    }

    /// Becomes equal to `other`.
    pub fn copy(&mut self, other: &Waiting) -> Result<(), Memory>
        ensures same { OnOk result (self.new ≡ other.now) }
        ensures failed { OnErr result (self.new ≡ []) }
    {
        self.clear();
        self.lines.extend_from_slice(&other.lines[other.past..])?;
        Ok(())
    }

    /// Adds a line as the last one.
    pub fn push(&mut self, line: u32) -> Result<(), Memory>
        ensures pushed { OnOk result (self.new ≡ self.old ++ line ∷ []) }
        ensures failed { OnErr result (self.new ≡ self.old) }
    {
        self.lines.push(line)?;
        Ok(())
    }

    /// Takes the first line.
    pub fn next(&mut self) -> Option<u32>
        ensures { MatchOption result ((self.old ≡ []) × (self.new ≡ []))
            (λ line. self.old ≡ line ∷ self.new) }
    {
        if self.past == self.lines.len() {
            return None;
        }
        let line = self.lines[self.past];
        self.past += 1;
        Some(line)
    }
}
