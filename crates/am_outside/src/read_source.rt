//! The real input.
ghost use Rattle.std.specs.Prelude.{◌≡◌, None};

use crate::faults::Failed;
use crate::source::Source;
use std::io::Read;

/// What a reader gives. It tells no bytes; each error of the reader counts as a fault.
#[derive(Drop)]
pub struct ReadSource<R: Read> {
    reader: R,
    taken: u64,
    faults: u64,
}

impl<R: Read> ReadSource<R> {
    /// Nothing is taken from the reader yet.
    pub fn new(reader: R) -> Self
        ensures taken { ⟦<ReadSource<R> as Source>⟧.taken result ≡ 0 }
        ensures faults { ⟦<ReadSource<R> as Source>⟧.faults result ≡ 0 }
    {
        ReadSource {
            reader,
            taken: 0,
            faults: 0,
        }
    }
}

impl<R: Read> Source for ReadSource<R> {
    ghost left = { λ s. None };

    ghost taken = { λ s. s.taken };

    ghost faults = { λ s. s.faults };

    ghost calls = { λ s. None };

    fn read(&mut self, buffer: &mut [u8]) -> Result<usize, Failed> {
        match self.reader.read(buffer) {
            Ok(count) => {
                self.taken = self.taken.saturating_add(count as u64);
                Ok(count)
            }
            Err(_) => {
                self.faults = self.faults.saturating_add(1);
                Err(Failed)
            }
        }
    }
}
