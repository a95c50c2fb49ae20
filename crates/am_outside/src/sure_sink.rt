//! An output in memory that never fails.
ghost use Rattle.std.specs.Prelude.{◌≡◌, [], None, Some};

use crate::faults::WriteFault;
use crate::sink::Sink;
use std::alloc::Global;

/// Takes each piece whole. No call fails; only memory may be wanting.
#[derive(Drop)]
pub struct SureSink {
    bytes: Vec<u8>,
}

impl SureSink {
    /// Nothing is written yet.
    pub fn new(alloc: Global) -> Self
        ensures written { ⟦<SureSink as Sink>⟧.written result ≡ Some [] }
        ensures faults { ⟦<SureSink as Sink>⟧.faults result ≡ 0 }
    {
        SureSink {
            bytes: Vec::new(alloc),
        }
    }

    /// All that was written.
    pub fn bytes(&self) -> &[u8]
        ensures { ⟦<SureSink as Sink>⟧.written self.now ≡ Some result.now }
    {
        &self.bytes
    }
}

impl Sink for SureSink {
    ghost written = { λ s. Some s.bytes.items };

    ghost faults = { λ _. 0 };

    ghost calls = { λ _. None };

    fn write(&mut self, piece: &[u8]) -> Result<usize, WriteFault> {
        self.bytes.extend_from_slice(piece)?;
        Ok(piece.len())
    }
}
