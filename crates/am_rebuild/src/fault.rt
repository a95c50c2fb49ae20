//! Why no changes were rebuilt.
use am_types::Hash;
use std::alloc::AllocError;
use thiserror::Error;

/// Why the changes of a document weren't rebuilt.
#[derive(Clone, Copy, Debug, PartialEq, Eq, Error)]
pub enum RebuildFault {
    /// The document is that of no valid set of changes, in whatever order.
    #[error("the document has no history")]
    NoHistory,
    /// Its changes have other heads than it states. This is the least hash that is among just one of the two.
    #[error("the changes of the document have other heads")]
    HeadsMismatch(Hash),
    /// The allocator had no memory.
    #[error("there is no memory")]
    NoMemory,
}

impl From<AllocError> for RebuildFault {
    ghost use Rattle.std.specs.Prelude.{◌≡◌};
    ghost use Rattle.am_rebuild.specs.declared.fault.RebuildFault.TheVariants.{NoMemory};

    ghost from_gives = { λ _ e. e ≡ NoMemory };

    fn from(_error: AllocError) -> RebuildFault {
        RebuildFault::NoMemory
    }
}
