//! A folder in memory.
ghost use Rattle.std.specs.Prelude.{◌≡◌, OnOk, OnErr, Some};
ghost use Rattle.std.specs.Option.{option_map};
ghost use Rattle.std.specs.FinMap.{empty, insert};
ghost use Rattle.am_outside.specs.Calls.{fresh};
ghost use Rattle.am_outside.specs.Files.{Stands};
ghost use Rattle.am_outside.specs.Stored.{files_of};

use crate::faults::{FetchFault, WriteFault};
use crate::folder::Folder;
use crate::stored_files::{File, find_file, put_first, remove_file};
use std::alloc::{AllocError, Global};
use std::collections::VecDeque;

/// Files by their names, fetched and kept by calls of which some fail. Both kinds of calls share one count. A keep that
/// fails removes the file.
#[derive(Drop)]
pub struct MemoryFolder {
    alloc: Global,
    files: VecDeque<File>,
    failing: Vec<u64>,
    calls: u64,
    misses: u64,
    faults: u64,
}

impl MemoryFolder {
    /// No files yet. `failing` lists the calls that fail; the first call has the number 0.
    pub fn new(alloc: Global, failing: Vec<u64>) -> Self
        ensures files { ⟦<MemoryFolder as Folder>⟧.files result ≡ Some empty }
        ensures misses { ⟦<MemoryFolder as Folder>⟧.misses result ≡ 0 }
        ensures faults { ⟦<MemoryFolder as Folder>⟧.faults result ≡ 0 }
        ensures calls { ⟦<MemoryFolder as Folder>⟧.calls result ≡ Some (fresh failing.items) }
    {
        MemoryFolder {
            alloc,
            files: VecDeque::new(alloc),
            failing,
            calls: 0,
            misses: 0,
            faults: 0,
        }
    }

    /// Puts a file under this name, in place of one that is there. It counts as no call; only memory may be wanting.
    pub fn put_file(&mut self, name: &str, bytes: &[u8]) -> Result<(), AllocError>
        ensures ok { OnOk result (⟦<MemoryFolder as Folder>⟧.files self.new ≡ option_map (λ all. insert all name.now bytes.now) (⟦<MemoryFolder as Folder>⟧.files self.old)) }
        ensures err { OnErr result (⟦<MemoryFolder as Folder>⟧.files self.new ≡ ⟦<MemoryFolder as Folder>⟧.files self.old) }
        ensures misses { ⟦<MemoryFolder as Folder>⟧.misses self.new ≡ ⟦<MemoryFolder as Folder>⟧.misses self.old }
        ensures faults { ⟦<MemoryFolder as Folder>⟧.faults self.new ≡ ⟦<MemoryFolder as Folder>⟧.faults self.old }
        ensures calls { ⟦<MemoryFolder as Folder>⟧.calls self.new ≡ ⟦<MemoryFolder as Folder>⟧.calls self.old }
    {
        put_first(self.alloc, &mut self.files, name, bytes)
    }

    /// The bytes of the file of this name, where there is one.
    pub fn file(&self, name: &str) -> Option<&[u8]>
        ensures { Stands (⟦<MemoryFolder as Folder>⟧.files self.now) name.now (option_map (λ bytes. bytes.now) result) }
    {
        find_file(&self.files, name)
    }
}

impl Folder for MemoryFolder {
    ghost files = { λ s. Some (files_of s.files.items) };

    ghost misses = { λ s. s.misses };

    ghost faults = { λ s. s.faults };

    ghost calls = { λ s. Some (record { made = s.calls; failing = s.failing.items }) };

    fn fetch(&mut self, alloc: Global, name: &str) -> Result<Vec<u8>, FetchFault> {
        let call = self.calls;
        self.calls = call.saturating_add(1);
        if self.failing.contains(&call) {
            self.faults = self.faults.saturating_add(1);
            return Err(FetchFault::Failed);
        }
        match find_file(&self.files, name) {
            Some(bytes) => Ok(bytes.to_vec(alloc)?),
            None => {
                self.misses = self.misses.saturating_add(1);
                Err(FetchFault::Absent)
            }
        }
    }

    fn keep(&mut self, name: &str, bytes: &[u8]) -> Result<(), WriteFault> {
        let call = self.calls;
        self.calls = call.saturating_add(1);
        if self.failing.contains(&call) {
            self.faults = self.faults.saturating_add(1);
            remove_file(&mut self.files, name);
            return Err(WriteFault::Failed);
        }
        Ok(put_first(self.alloc, &mut self.files, name, bytes)?)
    }
}
