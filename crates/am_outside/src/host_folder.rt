//! The real folder.
ghost use Rattle.std.specs.Prelude.{◌≡◌, ◌≤◌, None};
ghost use Rattle.am_outside.specs.Counts.{Rose};

use crate::faults::{FetchFault, WriteFault};
use crate::folder::Folder;
use std::alloc::{AllocError, Global};
use std::fs;
use std::fs::OpenFile;
use std::io::{ErrorKind, Read};
use std::rt::Files;

/// The longest file that is read, in bytes.
const LONGEST: u64 = 4_294_967_296;

/// Files by their paths, which start at the working directory. It tells no content. A path where the system finds
/// nothing is a miss; every other error of the system is a fault, and a file of more than 2^32 bytes is one too.
#[derive(Drop)]
pub struct HostFolder<'a, R: Files> {
    rt: &'a R,
    misses: u64,
    faults: u64,
}

impl<'a, R: Files> HostFolder<'a, R> {
    /// The folder in which the program runs, through the runtime that opens its files.
    pub fn new(rt: &'a R) -> Self
        ensures misses { ⟦<HostFolder<'a, R> as Folder>⟧.misses result ≡ 0 }
        ensures faults { ⟦<HostFolder<'a, R> as Folder>⟧.faults result ≡ 0 }
    {
        HostFolder {
            rt,
            misses: 0,
            faults: 0,
        }
    }

    // Counts a fault of a fetch.
    fn fail(&mut self) -> FetchFault
        ensures failed { result ≡ FetchFault.Failed }
        ensures risen { Rose self.old.faults self.new.faults }
        ensures later { self.old.faults ≤ self.new.faults }
        ensures misses { self.new.misses ≡ self.old.misses }
    {
        self.faults = self.faults.saturating_add(1);
        FetchFault::Failed
    }
}

impl<'a, R: Files> Folder for HostFolder<'a, R> {
    ghost files = { λ s. None };

    ghost misses = { λ s. s.misses };

    ghost faults = { λ s. s.faults };

    ghost calls = { λ s. None };

    fn fetch(&mut self, alloc: Global, name: &str) -> Result<Vec<u8>, FetchFault> {
        let file = match fs::open(self.rt, name) {
            Ok(file) => file,
            Err(e) if e.kind() == ErrorKind::NotFound => {
                self.misses = self.misses.saturating_add(1);
                return Err(FetchFault::Absent);
            }
            Err(_) => return Err(self.fail()),
        };
        match read_whole(alloc, file) {
            Ok(Some(bytes)) => Ok(bytes),
            Ok(None) => Err(self.fail()),
            Err(AllocError) => Err(FetchFault::NoMemory),
        }
    }

    fn keep(&mut self, name: &str, bytes: &[u8]) -> Result<(), WriteFault> {
        match fs::write(self.rt, name, bytes) {
            Ok(()) => Ok(()),
            Err(_) => {
                self.faults = self.faults.saturating_add(1);
                Err(WriteFault::Failed)
            }
        }
    }
}

// How many bytes the system says that a file has.
fn expected_len<F: OpenFile>(file: &F) -> u64 {
    match file.metadata() {
        Ok(metadata) => metadata.len(),
        Err(_) => 0,
    }
}

// The bytes up to the end, or None where a read fails or they are too many. The room for them is taken at once, so
// that a large file isn't copied as its buffer grows.
fn read_whole<F: OpenFile + Read + Drop>(
    alloc: Global,
    file: F,
) -> Result<Option<Vec<u8>>, AllocError> {
    let expected = expected_len(&file);
    if expected > LONGEST {
        return Ok(None);
    }
    let mut bytes = Vec::with_capacity(alloc, expected as usize)?;
    match file.take(LONGEST + 1).read_to_end(&mut bytes) {
        Ok(_) if bytes.len() as u64 <= LONGEST => Ok(Some(bytes)),
        Ok(_) => Ok(None),
        Err(e) if e.kind() == ErrorKind::OutOfMemory => Err(AllocError),
        Err(_) => Ok(None),
    }
}
