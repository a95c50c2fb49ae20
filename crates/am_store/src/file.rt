//! The changes of a file.
ghost use Rattle.std.specs.Prelude.{◌≡◌, ℕ, Bool, List, All, IfOk, IfErr};
ghost use Rattle.am_types.specs.Deliver.{MayCome};
ghost use Rattle.am_delivery.specs.Waiting.{members_of};
ghost use Rattle.am_rebuild.specs.Documents.{changes_of, AreOwn};
ghost use Rattle.am_store.specs.Files.{HasFault, IsFile, FirstBad};
ghost use Rattle.am_store.specs.Reading.{MatchBad};
ghost use Rattle.am_store.specs.Whole.{MatchLoad};

use crate::chunk::{ChunkFault, read_chunk};
use crate::fault::{LoadError, ReadFault};
use crate::file_changes::FileChanges;
use am_types::SharedActors;
use std::alloc::Global;

// Why a file isn't read where this is wrong with the chunk of this number.
fn refused(chunk: u64, fault: ChunkFault) -> ReadFault
    ensures { (only : Bool) (bytes : List ℕ) → MatchBad fault (HasFault only bytes) → MatchLoad result (λ e. (e.chunk ≡ chunk) × HasFault only bytes e.fault) }
{
    match fault {
        ChunkFault::Bad(fault) => ReadFault::Load(LoadError { chunk, fault }),
        ChunkFault::NoMemory => ReadFault::NoMemory,
    }
}

/// The changes of a file. All chunks share one list, and their actors share their bytes.
pub fn changes_in<'a>(
    alloc: Global,
    bytes: &'a [u8],
    only_changes: bool,
) -> Result<FileChanges<'a>, ReadFault>
    ensures ok { IfOk result (λ changes. IsFile only_changes bytes.now (changes_of changes)) }
    ensures own_hashes { IfOk result (λ changes. AreOwn changes) }
    ensures may_come { IfOk result (λ changes. All MayCome (members_of changes)) }
    ensures load { IfErr result (λ fault. MatchLoad fault (λ e. FirstBad only_changes bytes.now e.chunk e.fault)) }
{
    let mut changes = FileChanges::new(alloc);
    let mut actors = SharedActors::new(alloc);
    let mut number = 1u64;
    let mut rest = bytes;
    'chunks: while !rest.is_empty() {
        match read_chunk(alloc, &mut actors, rest, only_changes, &mut changes) {
            Ok(behind) => rest = behind,
            Err(fault) => return Err(refused(number, fault)),
        }
        number += 1;
    }
    Ok(changes)
}
