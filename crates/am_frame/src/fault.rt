//! What may be wrong with the first chunk of a file.
use thiserror::Error;

/// What is wrong with the first chunk of some bytes. Of these one applies at most.
#[derive(Clone, Copy, Debug, PartialEq, Eq, Error)]
pub enum FrameFault {
    /// The bytes, at most four, aren't a front of the magic.
    #[error("no chunk begins here")]
    BadMagic,
    /// With some more bytes they would be a frame. No bytes at all are this.
    #[error("the chunk is cut off")]
    Truncated,
    /// The length isn't a shortest number of at most 64 bits.
    #[error("the length of the chunk is no shortest number")]
    BadLength,
    /// A frame begins the bytes, and its checksum isn't the front of the hash.
    #[error("the checksum of the chunk is wrong")]
    BadChecksum,
    /// The checksum is right, and the type, given here, is above 2.
    #[error("the chunk has the unknown type {0}")]
    ChunkType(u8),
    /// The checksum is right, and the type is 2: a change compressed by DEFLATE.
    #[error("the chunk is compressed")]
    CompressedChunk,
}
