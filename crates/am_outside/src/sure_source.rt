//! An input in memory that never fails.
ghost use Rattle.std.specs.Prelude.{◌≡◌, ◌≤◌, drop, None, Some, vec_len};

use crate::copying::copy_front;
use crate::faults::Failed;
use crate::source::Source;

/// Bytes of which each call gives as many as its buffer takes. No call fails.
#[derive(Drop)]
pub struct SureSource {
    bytes: Vec<u8>,
    at: usize,
    taken: u64,
    ghost within: { at ≤ vec_len bytes },
}

impl SureSource {
    /// None of the bytes is given yet.
    pub fn new(bytes: Vec<u8>) -> Self
        ensures left { ⟦<SureSource as Source>⟧.left result ≡ Some bytes.items }
        ensures taken { ⟦<SureSource as Source>⟧.taken result ≡ 0 }
        ensures faults { ⟦<SureSource as Source>⟧.faults result ≡ 0 }
    {
        SureSource {
            bytes,
            at: 0,
            taken: 0,
        }
    }
}

impl Source for SureSource {
    ghost left = { λ s. Some (drop s.at s.bytes.items) };

    ghost taken = { λ s. s.taken };

    ghost faults = { λ _. 0 };

    ghost calls = { λ _. None };

    fn read(&mut self, buffer: &mut [u8]) -> Result<usize, Failed> {
        let (_, rest) = self.bytes.split_at(self.at);
        let count = copy_front(rest, buffer, usize::MAX);
        self.at += count;
        self.taken = self.taken.saturating_add(count as u64);
        Ok(count)
    }
}
