//! A folder in memory that never fails.
ghost use Rattle.std.specs.Prelude.{◌≡◌, None, OnOk, OnErr, Some};
ghost use Rattle.std.specs.Option.{option_map};
ghost use Rattle.std.specs.FinMap.{empty, insert};
ghost use Rattle.am_outside.specs.Files.{Stands};
ghost use Rattle.am_outside.specs.Stored.{files_of};

use crate::faults::{FetchFault, WriteFault};
use crate::folder::Folder;
use crate::stored_files::{File, find_file, put_first};
use std::alloc::{AllocError, Global};
use std::collections::VecDeque;

/// Files by their names. No call fails; a file may be absent, and memory wanting.
#[derive(Drop)]
pub struct SureFolder {
    alloc: Global,
    files: VecDeque<File>,
    misses: u64,
}

impl SureFolder {
    /// No files yet.
    pub fn new(alloc: Global) -> Self
        ensures files { ⟦<SureFolder as Folder>⟧.files result ≡ Some empty }
        ensures misses { ⟦<SureFolder as Folder>⟧.misses result ≡ 0 }
        ensures faults { ⟦<SureFolder as Folder>⟧.faults result ≡ 0 }
    {
        SureFolder {
            alloc,
            files: VecDeque::new(alloc),
            misses: 0,
        }
    }

    /// Puts a file under this name, in place of one that is there. Only memory may be wanting.
    pub fn put_file(&mut self, name: &str, bytes: &[u8]) -> Result<(), AllocError>
        ensures ok { OnOk result (⟦<SureFolder as Folder>⟧.files self.new ≡ option_map (λ all. insert all name.now bytes.now) (⟦<SureFolder as Folder>⟧.files self.old)) }
        ensures err { OnErr result (⟦<SureFolder as Folder>⟧.files self.new ≡ ⟦<SureFolder as Folder>⟧.files self.old) }
        ensures misses { ⟦<SureFolder as Folder>⟧.misses self.new ≡ ⟦<SureFolder as Folder>⟧.misses self.old }
        ensures faults { ⟦<SureFolder as Folder>⟧.faults self.new ≡ ⟦<SureFolder as Folder>⟧.faults self.old }
    {
        put_first(self.alloc, &mut self.files, name, bytes)
    }

    /// The bytes of the file of this name, where there is one.
    pub fn file(&self, name: &str) -> Option<&[u8]>
        ensures { Stands (⟦<SureFolder as Folder>⟧.files self.now) name.now (option_map (λ bytes. bytes.now) result) }
    {
        find_file(&self.files, name)
    }
}

impl Folder for SureFolder {
    ghost files = { λ s. Some (files_of s.files.items) };

    ghost misses = { λ s. s.misses };

    ghost faults = { λ _. 0 };

    ghost calls = { λ _. None };

    fn fetch(&mut self, alloc: Global, name: &str) -> Result<Vec<u8>, FetchFault> {
        match find_file(&self.files, name) {
            Some(bytes) => Ok(bytes.to_vec(alloc)?),
            None => {
                self.misses = self.misses.saturating_add(1);
                Err(FetchFault::Absent)
            }
        }
    }

    fn keep(&mut self, name: &str, bytes: &[u8]) -> Result<(), WriteFault> {
        Ok(put_first(self.alloc, &mut self.files, name, bytes)?)
    }
}
