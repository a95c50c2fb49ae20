//! An output in memory.
ghost use Rattle.std.specs.Prelude.{◌≡◌, [], Some};
ghost use Rattle.am_outside.specs.Calls.{fresh};

use crate::faults::WriteFault;
use crate::sink::Sink;
use std::alloc::Global;

/// Takes each piece whole, by calls of which some fail.
#[derive(Drop)]
pub struct MemorySink {
    bytes: Vec<u8>,
    failing: Vec<u64>,
    calls: u64,
    faults: u64,
}

impl MemorySink {
    /// Nothing is written yet. `failing` lists the calls that fail; the first call has the number 0.
    pub fn new(alloc: Global, failing: Vec<u64>) -> Self
        ensures written { ⟦<MemorySink as Sink>⟧.written result ≡ Some [] }
        ensures faults { ⟦<MemorySink as Sink>⟧.faults result ≡ 0 }
        ensures calls { ⟦<MemorySink as Sink>⟧.calls result ≡ Some (fresh failing.items) }
    {
        MemorySink {
            bytes: Vec::new(alloc),
            failing,
            calls: 0,
            faults: 0,
        }
    }

    /// All that was written.
    pub fn bytes(&self) -> &[u8]
        ensures { ⟦<MemorySink as Sink>⟧.written self.now ≡ Some result.now }
    {
        &self.bytes
    }
}

impl Sink for MemorySink {
    ghost written = { λ s. Some s.bytes.items };

    ghost faults = { λ s. s.faults };

    ghost calls = { λ s. Some (record { made = s.calls; failing = s.failing.items }) };

    fn write(&mut self, piece: &[u8]) -> Result<usize, WriteFault> {
        let call = self.calls;
        self.calls = call.saturating_add(1);
        if self.failing.contains(&call) {
            self.faults = self.faults.saturating_add(1);
            return Err(WriteFault::Failed);
        }
        self.bytes.extend_from_slice(piece)?;
        Ok(piece.len())
    }
}
