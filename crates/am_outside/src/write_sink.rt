//! The real output.
ghost use Rattle.std.specs.Prelude.{◌≡◌, None};

use crate::faults::WriteFault;
use crate::sink::Sink;
use std::io::Write;

/// Hands pieces to a writer. It tells no bytes; each error of the writer counts as a fault, and so does a write
/// that takes nothing of a piece that isn't empty.
#[derive(Drop)]
pub struct WriteSink<W: Write> {
    writer: W,
    faults: u64,
}

impl<W: Write> WriteSink<W> {
    /// Nothing is handed to the writer yet.
    pub fn new(writer: W) -> Self
        ensures { ⟦<WriteSink<W> as Sink>⟧.faults result ≡ 0 }
    {
        WriteSink { writer, faults: 0 }
    }
}

impl<W: Write> Sink for WriteSink<W> {
    ghost written = { λ s. None };

    ghost faults = { λ s. s.faults };

    ghost calls = { λ s. None };

    fn write(&mut self, piece: &[u8]) -> Result<usize, WriteFault> {
        match self.writer.write(piece) {
            Ok(count) if count > 0 || piece.is_empty() => Ok(count),
            _ => {
                self.faults = self.faults.saturating_add(1);
                Err(WriteFault::Failed)
            }
        }
    }
}
