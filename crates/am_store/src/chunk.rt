//! The first chunk of a file.
ghost use Rattle.std.specs.Prelude.{◌≡◌, ◌<◌, Bool, false, List, ℕ, length, Ok, Err, IfOk, OnOk, IfErr};
ghost use Rattle.am_types.specs.declared.Change.{Change as AChange};
ghost use Rattle.am_types.specs.declared.Table.{Table as ATable};
ghost use Rattle.am_frame.specs.Frames.{IsChunk, chunk_of};
ghost use Rattle.am_frame.specs.Faults as frame;
ghost use Rattle.am_change.specs.Contents.{contents as contents_of};
ghost use Rattle.am_change.specs.Hashes.{own_hash};
ghost use Rattle.am_doc.specs.Spelling.{Judges};
ghost use Rattle.am_rebuild.specs.Documents.{Rebuilds};
ghost use Rattle.am_store.specs.Files.{HasFault};
ghost use Rattle.am_store.specs.Reading.{MatchBad, IsWrongWith, GivesPairs, Appends, ReadsOne};

use crate::fault::LoadFault;
use crate::file_changes::FileChanges;
use am_change::{ChangeFault, parse_change_sharing};
use am_doc::{DocFault, DocRef, one_judgement};
use am_frame::{FrameFault, next_frame};
use am_rebuild::{RebuildFault, rebuild_whole};
use am_types::{Hash, SharedActors, hash_known};
use std::alloc::{AllocError, Global};

/// Why the first chunk of some bytes wasn't read.
#[derive(Clone, Copy)]
pub enum ChunkFault {
    /// This is wrong with it.
    Bad(LoadFault),
    /// The allocator had no memory.
    NoMemory,
}

impl From<AllocError> for ChunkFault {
    ghost use Rattle.std.specs.Prelude.{◌≡◌};
    ghost use Rattle.am_store.specs.declared.chunk.ChunkFault.TheVariants.{NoMemory};

    ghost from_gives = { λ _ e. e ≡ NoMemory };

    fn from(_error: AllocError) -> ChunkFault {
        ChunkFault::NoMemory
    }
}

// The same fault, as one of a file.
fn fault_of(fault: FrameFault) -> LoadFault
    ensures { (only : Bool) (bytes : List ℕ) → frame.HasFault bytes fault → HasFault only bytes result }
{
    match fault {
        FrameFault::BadMagic => LoadFault::BadMagic,
        FrameFault::Truncated => LoadFault::Truncated,
        FrameFault::BadLength => LoadFault::BadLength,
        FrameFault::BadChecksum => LoadFault::BadChecksum,
        FrameFault::ChunkType(kind) => LoadFault::ChunkType(kind),
        FrameFault::CompressedChunk => LoadFault::CompressedChunk,
    }
}

// Appends the change of a chunk with these contents and this hash. Its actors share their bytes with those before.
fn push_change(
    alloc: Global,
    actors: &mut SharedActors,
    hash: Hash,
    contents: &[u8],
    changes: &mut FileChanges<'_>,
) -> Result<(), ChunkFault>
    requires is_chunk { IsChunk (chunk_of 1 contents.now) }
    requires own { (c : AChange) → contents.now ≡ contents_of c → hash ≡ own_hash c }
    ensures ok { (only : Bool) → OnOk result (Appends (GivesPairs only (chunk_of 1 contents.now)) changes.old changes.new) }
    ensures bad { (only : Bool) → IfErr result (λ fault. MatchBad fault (IsWrongWith only (chunk_of 1 contents.now))) }
{
    let change = match parse_change_sharing(alloc, actors, contents) {
        Ok(change) => change,
        Err(ChangeFault::CompressedColumn) => return Err(ChunkFault::Bad(
            LoadFault::CompressedColumn,
        )),
        Err(ChangeFault::BadChange) => return Err(ChunkFault::Bad(LoadFault::BadChange)),
        Err(ChangeFault::NoMemory) => return Err(ChunkFault::NoMemory),
    };
    hash_known(&hash);
    changes.push(hash, change)?;
    Ok(())
}

// Why a document isn't read whose changes aren't rebuilt for this.
fn not_rebuilt(fault: RebuildFault) -> ChunkFault
    ensures { (contents : List ℕ) (t : ATable) → IsChunk (chunk_of 0 contents) → Judges contents (Ok t) → Rebuilds t (Err fault) → MatchBad result (IsWrongWith false (chunk_of 0 contents)) }
{
    one_judgement();
    match fault {
        RebuildFault::NoHistory => ChunkFault::Bad(LoadFault::NoHistory),
        RebuildFault::HeadsMismatch(hash) => ChunkFault::Bad(LoadFault::HeadsMismatch(hash)),
        RebuildFault::NoMemory => ChunkFault::NoMemory,
    }
}

// Appends the changes of a document chunk with these contents.
fn push_document<'a>(
    alloc: Global,
    contents: &'a [u8],
    changes: &mut FileChanges<'a>,
) -> Result<(), ChunkFault>
    requires { IsChunk (chunk_of 0 contents.now) }
    ensures ok { OnOk result (Appends (GivesPairs false (chunk_of 0 contents.now)) changes.old changes.new) }
    ensures bad { IfErr result (λ fault. MatchBad fault (IsWrongWith false (chunk_of 0 contents.now))) }
{
    one_judgement();
    let doc = match DocRef::read(contents) {
        Ok(doc) => doc,
        Err(DocFault::CompressedColumn) => return Err(ChunkFault::Bad(LoadFault::CompressedColumn)),
        Err(DocFault::BadDocument) => return Err(ChunkFault::Bad(LoadFault::BadDocument)),
    };
    let document = match rebuild_whole(alloc, doc.again()) {
        Ok(document) => document,
        Err(fault) => return Err(not_rebuilt(fault)),
    };
    changes.append(alloc, document, doc)?;
    Ok(())
}

/// Appends the changes of the first chunk, each behind its hash. The actors of a change share their bytes with those
/// before. What follows the chunk.
pub fn read_chunk<'a>(
    alloc: Global,
    actors: &mut SharedActors,
    bytes: &'a [u8],
    only_changes: bool,
    changes: &mut FileChanges<'a>,
) -> Result<&'a [u8], ChunkFault>
    ensures ok { IfOk result (λ rest. ReadsOne bytes.now rest.now (λ chunk. Appends (GivesPairs only_changes chunk) changes.old changes.new)) }
    ensures shorter { IfOk result (λ rest. length rest.now < length bytes.now) }
    ensures bad { IfErr result (λ fault. MatchBad fault (HasFault only_changes bytes.now)) }
{
    let frame = match next_frame(bytes) {
        Ok(frame) => frame,
        Err(fault) => return Err(ChunkFault::Bad(fault_of(fault))),
    };
    if frame.kind == 1 {
        push_change(alloc, actors, frame.hash, frame.contents, changes)?;
        return Ok(frame.rest);
    }
    if only_changes {
        return Err(ChunkFault::Bad(LoadFault::DocumentHere));
    }
    push_document(alloc, frame.contents, changes)?;
    Ok(frame.rest)
}
