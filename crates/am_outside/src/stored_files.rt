//! Files in memory, by their names.
ghost use Rattle.std.specs.Prelude.{◌≡◌, filter, not, bytes_eq, OnOk, OnErr, string_bytes};
ghost use Rattle.std.specs.Option.{option_map};
ghost use Rattle.std.specs.FinMap.{insert, get};
ghost use Rattle.am_outside.specs.Stored.{files_of};

use std::alloc::{AllocError, Global};
use std::collections::VecDeque;

/// A file of a folder in memory.
#[derive(Drop)]
pub struct File {
    name: String,
    bytes: Vec<u8>,
}

/// The file of this name that stands first.
#[tactic(auto, using(crate::proofs::Lookup::nothing, crate::proofs::Lookup::found, crate::proofs::Lookup::passed))]
pub fn find_file<'a>(files: &'a VecDeque<File>, name: &str) -> Option<&'a [u8]>
    ensures { option_map (λ bytes. bytes.now) result ≡ get (files_of files.now.items) name.now }
{
    for file in files {
        if name == file.name.as_str() {
            return Some(&file.bytes);
        }
    }
    None
}

/// Puts a file in front, where it hides any other of its name.
pub fn put_first(
    alloc: Global,
    files: &mut VecDeque<File>,
    name: &str,
    bytes: &[u8],
) -> Result<(), AllocError>
    ensures ok { OnOk result (files_of files.new.items ≡ insert (files_of files.old.items) name.now bytes.now) }
    ensures err { OnErr result (files_of files.new.items ≡ files_of files.old.items) }
{
    let file = File {
        name: String::from_str(alloc, name)?,
        bytes: bytes.to_vec(alloc)?,
    };
    files.push_front(file)?;
    Ok(())
}

/// Drops each file of this name.
pub fn remove_file(files: &mut VecDeque<File>, name: &str)
    ensures { files.new.items ≡ filter (λ file. not (bytes_eq name.now (string_bytes file.name))) files.old.items }
{
    files.retain(|file| name != file.name.as_str());
}
