//! Why contents are those of no change.
use std::alloc::AllocError;
use thiserror::Error;

/// Why the contents of a chunk weren't read as a change.
#[derive(Clone, Copy, Debug, PartialEq, Eq, Error)]
pub enum ChangeFault {
    /// No fine change has these contents, and they don't count as compressed.
    #[error("the contents are those of no change")]
    BadChange,
    /// The parts in front of the columns can be read, each number within 64 bits, and list a column that is compressed by
    /// DEFLATE. This is told whatever else is wrong, in these parts or behind them.
    #[error("a column is compressed")]
    CompressedColumn,
    /// The allocator had no memory.
    #[error("there is no memory")]
    NoMemory,
}

impl From<AllocError> for ChangeFault {
    ghost use Rattle.std.specs.Prelude.{◌≡◌};
    ghost use Rattle.am_change.specs.declared.fault.ChangeFault.TheVariants.{NoMemory};

    ghost from_gives = { λ _ e. e ≡ NoMemory };

    fn from(_error: AllocError) -> ChangeFault {
        ChangeFault::NoMemory
    }
}
