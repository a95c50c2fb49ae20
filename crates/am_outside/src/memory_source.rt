//! An input in memory.
ghost use Rattle.std.specs.Prelude.{◌≡◌, ◌≤◌, drop, Some, vec_len};
ghost use Rattle.am_outside.specs.Calls.{fresh};

use crate::copying::copy_front;
use crate::faults::Failed;
use crate::source::Source;

/// Bytes that are given in pieces of bounded length, by calls of which some fail.
#[derive(Drop)]
pub struct MemorySource {
    bytes: Vec<u8>,
    at: usize,
    most: usize,
    failing: Vec<u64>,
    calls: u64,
    faults: u64,
    taken: u64,
    ghost within: { at ≤ vec_len bytes },
    ghost some: { 1 ≤ most },
}

impl MemorySource {
    /// A call gets no more than `most` bytes. `failing` lists the calls that fail; the first call has the number 0.
    pub fn new(bytes: Vec<u8>, most: usize, failing: Vec<u64>) -> Self
        requires { 1 ≤ most }
        ensures left { ⟦<MemorySource as Source>⟧.left result ≡ Some bytes.items }
        ensures taken { ⟦<MemorySource as Source>⟧.taken result ≡ 0 }
        ensures faults { ⟦<MemorySource as Source>⟧.faults result ≡ 0 }
        ensures calls { ⟦<MemorySource as Source>⟧.calls result ≡ Some (fresh failing.items) }
    {
        MemorySource {
            bytes,
            at: 0,
            most,
            failing,
            calls: 0,
            faults: 0,
            taken: 0,
        }
    }
}

impl Source for MemorySource {
    ghost left = { λ s. Some (drop s.at s.bytes.items) };

    ghost taken = { λ s. s.taken };

    ghost faults = { λ s. s.faults };

    ghost calls = { λ s. Some (record { made = s.calls; failing = s.failing.items }) };

    fn read(&mut self, buffer: &mut [u8]) -> Result<usize, Failed> {
        let call = self.calls;
        self.calls = call.saturating_add(1);
        if self.failing.contains(&call) {
            self.faults = self.faults.saturating_add(1);
            return Err(Failed);
        }
        let (_, rest) = self.bytes.split_at(self.at);
        let count = copy_front(rest, buffer, self.most);
        self.at += count;
        self.taken = self.taken.saturating_add(count as u64);
        Ok(count)
    }
}
