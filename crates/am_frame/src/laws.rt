//! Laws about the chunks of a file.
ghost use Rattle.std.specs.Prelude.{◌≡◌, ◌++◌, ℕ, List};
ghost use Rattle.am_frame.specs.Frames.{Chunk, IsChunk, chunk_bytes, IsFile};
ghost use Rattle.am_frame.specs.Faults.{HasFault, FirstBad};

use crate::fault::FrameFault;

/// Of what may be wrong with the first chunk of some bytes one thing applies at most, and none where a chunk begins.
pub fn one_fault()
    ensures one { (bytes : List ℕ) (fault other : FrameFault) → HasFault bytes fault → HasFault bytes other → fault ≡ other }
    ensures none { (bytes : List ℕ) (chunk : Chunk) (rest : List ℕ) (fault : FrameFault) → IsChunk chunk → bytes ≡ chunk_bytes chunk ++ rest → HasFault bytes fault → ⊥ }
{}

/// Bytes are a file of chunks in one way at most, and then no chunk of theirs is bad.
pub fn one_reading()
    ensures file { (bytes : List ℕ) (chunks others : List Chunk) → IsFile bytes chunks → IsFile bytes others → chunks ≡ others }
    ensures bad { (bytes : List ℕ) (j k : ℕ) (fault other : FrameFault) → FirstBad bytes j fault → FirstBad bytes k other → (j ≡ k) × (fault ≡ other) }
    ensures never_both { (bytes : List ℕ) (chunks : List Chunk) (k : ℕ) (fault : FrameFault) → IsFile bytes chunks → FirstBad bytes k fault → ⊥ }
{}
