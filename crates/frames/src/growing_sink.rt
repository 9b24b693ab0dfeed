// A sink in memory that grows.
ghost use Rattle.std.specs.Prelude.{◌≡◌, [], true, false, nat_lt};
ghost use Rattle.std.proofs.Common.{refl};

use cmr_io::{Failed, Sink};
use std::alloc::Global;

/// A sink in memory that grows. A call fails only by an allocation failure.
#[derive(Drop)]
pub struct GrowingSink {
    bytes: Vec<u8>,
    refusals: u64,
}

impl GrowingSink {
    ghost use Rattle.frames.specs.GrowingSink.{received, faults_of};

    /// An empty sink.
    pub fn new(alloc: Global) -> Self
        ensures got { received result ≡ [] }
        ensures faults { faults_of result ≡ 0 }
    {
        GrowingSink {
            bytes: Vec::new(alloc),
            refusals: 0,
        }
    }

    /// What it has received.
    pub fn content(&self) -> &[u8]
        ensures { result.now ≡ received self.now }
    {
        &self.bytes
    }

    /// Whether an allocation has failed in some call.
    pub fn is_short(&self) -> bool
        ensures { result ≡ nat_lt 0 (faults_of self.now) }
    {
        self.refusals > 0
    }
}

impl Sink for GrowingSink {
    ghost use Rattle.frames.specs.GrowingSink.{received, faults_of};

    ghost tells = { λ _. true };

    ghost got = { received };

    ghost taken = { received };

    ghost faults = { faults_of };

    ghost is_calm = { λ _. false };

    ghost room = { λ _. 0 };

    ghost calm_tells = { λ sink calm. refl };

    fn put(&mut self, piece: &[u8]) -> Result<usize, Failed> {
        match self.bytes.extend_from_slice(piece) {
            Ok(()) => Ok(piece.len()),
            Err(_) => {
                self.refusals = self.refusals.saturating_add(1);
                Err(Failed)
            }
        }
    }
}
