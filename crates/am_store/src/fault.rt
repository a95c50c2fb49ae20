//! Why a file wasn't read.
use am_types::Hash;
use std::alloc::AllocError;
use thiserror::Error;

/// What is wrong with a chunk of a file. Within a chunk they are judged in this order.
#[derive(Clone, Copy, Debug, PartialEq, Eq, Error)]
pub enum LoadFault {
    /// The bytes don't begin with those of each chunk.
    #[error("no chunk begins here")]
    BadMagic,
    /// The bytes end within the chunk.
    #[error("the chunk is cut off")]
    Truncated,
    /// The length is no shortest number of 64 bits.
    #[error("the length is no number in its shortest form")]
    BadLength,
    /// The checksum is another than that of type, length and contents.
    #[error("the checksum is wrong")]
    BadChecksum,
    /// The chunk has this type, which is none of those that there are.
    #[error("chunks of type {0} are unknown")]
    ChunkType(u8),
    /// The chunk is a compressed change.
    #[error("the chunk is compressed")]
    CompressedChunk,
    /// The chunk is a document, where only changes may stand.
    #[error("the chunk is a document")]
    DocumentHere,
    /// A column of the change or of the document is compressed.
    #[error("a column is compressed")]
    CompressedColumn,
    /// The contents are those of no fine change.
    #[error("the contents are those of no change")]
    BadChange,
    /// The contents are those of no document.
    #[error("the contents are those of no document")]
    BadDocument,
    /// The document is that of no valid set of changes.
    #[error("the document has no history")]
    NoHistory,
    /// The changes of the document have other heads than it states. This is the least hash that is among just one of the two.
    #[error("the changes of the document have other heads")]
    HeadsMismatch(Hash),
}

/// The first chunk of a file that is bad.
#[derive(Clone, Copy, Debug, PartialEq, Eq)]
pub struct LoadError {
    /// The number of the chunk, from 1.
    pub chunk: u64,
    /// What is wrong with it.
    pub fault: LoadFault,
}

/// Why a file wasn't read.
#[derive(Clone, Copy, Debug, PartialEq, Eq, Error)]
pub enum ReadFault {
    /// One of its chunks is bad.
    #[error("chunk {}: {}", .0.chunk, .0.fault)]
    Load(LoadError),
    /// The allocator had no memory.
    #[error("there is no memory")]
    NoMemory,
}

impl From<AllocError> for ReadFault {
    ghost use Rattle.std.specs.Prelude.{◌≡◌};
    ghost use Rattle.am_store.specs.declared.fault.ReadFault.TheVariants.{NoMemory};

    ghost from_gives = { λ _ e. e ≡ NoMemory };

    fn from(_error: AllocError) -> ReadFault {
        ReadFault::NoMemory
    }
}
