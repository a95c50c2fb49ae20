//! The first chunk of a file.
ghost use Rattle.std.specs.Prelude.{◌≡◌, ◌<◌, ◌++◌, ◌↔◌, ℕ, List, length, IfOk, IsOkAnd, IsErrOf};
ghost use Rattle.sha2.specs.Sha256.{sha256};
ghost use Rattle.am_frame.specs.Frames.{covered, Chunk, IsChunk, chunk_of, chunk_bytes};
ghost use Rattle.am_frame.specs.Faults.{HasFault};
ghost use Rattle.am_frame.specs.Judged.{Judges};

use crate::cut::{HeadFault, cut_frame};
use crate::digest::hash_of;
use crate::fault::FrameFault;
use am_types::{Hash, same_bytes};

/// The first chunk of a file, and what follows it. Nothing is copied.
#[derive(Drop)]
pub struct Frame<'a> {
    /// The type: 0 for a document, 1 for a change.
    pub kind: u8,
    /// SHA-256 over the type, the length and the contents; of a change chunk this is the hash of its change.
    pub hash: Hash,
    /// What the chunk holds.
    pub contents: &'a [u8],
    /// The bytes behind the chunk.
    pub rest: &'a [u8],
}

fn judge(bytes: &[u8]) -> Result<Frame<'_>, FrameFault>
    ensures { Judges bytes.now result }
{
    let cut = match cut_frame(bytes) {
        Ok(cut) => cut,
        Err(HeadFault::BadMagic) => return Err(FrameFault::BadMagic),
        Err(HeadFault::Truncated) => return Err(FrameFault::Truncated),
        Err(HeadFault::BadLength) => return Err(FrameFault::BadLength),
    };
    let hash = hash_of(cut.covered);
    let Hash(digest) = hash;
    let (first, _) = digest.split_at(4);
    if !same_bytes(first, cut.checksum) {
        return Err(FrameFault::BadChecksum);
    }
    match cut.kind {
        0 | 1 => Ok(Frame {
            kind: cut.kind,
            hash,
            contents: cut.contents,
            rest: cut.rest,
        }),
        2 => Err(FrameFault::CompressedChunk),
        kind => Err(FrameFault::ChunkType(kind)),
    }
}

/// The first chunk of these bytes, by the frame of the Automerge Binary Document Format: magic, checksum, type,
/// length, contents. Numbers are taken in their shortest spelling alone.
pub fn next_frame(bytes: &[u8]) -> Result<Frame<'_>, FrameFault>
    ensures frame { IfOk result (λ frame. IsChunk (chunk_of frame.kind frame.contents.now) × (bytes.now ≡ chunk_bytes (chunk_of frame.kind frame.contents.now) ++ frame.rest.now)
        × (frame.hash.0 ≡ sha256 (covered frame.kind frame.contents.now))) }
    ensures only { (chunk : Chunk) (rest : List ℕ) → IsChunk chunk → bytes.now ≡ chunk_bytes chunk ++ rest
        → IsOkAnd result (λ frame. (frame.kind ≡ chunk.kind) × (frame.contents.now ≡ chunk.contents) × (frame.rest.now ≡ rest)) }
    // Each fault is answered exactly where it applies.
    ensures fault { (fault : FrameFault) → IsErrOf result fault ↔ HasFault bytes.now fault }
    ensures shorter { IfOk result (λ frame. length frame.rest.now < length bytes.now) }
{
    judge(bytes)
}
