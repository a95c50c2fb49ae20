//! The faults that the outside answers.
ghost use Rattle.std.specs.Prelude.{◌≡◌};
ghost use Rattle.am_outside.specs.declared.faults.WriteFault.TheVariants.{NoMemory as write_no_memory};
ghost use Rattle.am_outside.specs.declared.faults.FetchFault.TheVariants.{NoMemory as fetch_no_memory};

use std::alloc::{AllocError, AllocFailed};
use thiserror::Error;

/// The input couldn't be read.
#[derive(Clone, Copy, Debug, PartialEq, Eq, Error)]
#[error("the input failed")]
pub struct Failed;

/// Why bytes weren't written or kept.
#[derive(Clone, Copy, Debug, PartialEq, Eq, Error)]
pub enum WriteFault {
    /// The output or the folder failed.
    #[error("the write failed")]
    Failed,
    /// Out of memory.
    #[error("no memory")]
    NoMemory,
}

/// Why a file wasn't fetched.
#[derive(Clone, Copy, Debug, PartialEq, Eq, Error)]
pub enum FetchFault {
    /// There is no file of this name.
    #[error("no such file")]
    Absent,
    /// The folder failed.
    #[error("the read failed")]
    Failed,
    /// Out of memory.
    #[error("no memory")]
    NoMemory,
}

impl From<AllocError> for WriteFault {
    ghost from_gives = { λ _ e. e ≡ write_no_memory };

    fn from(_: AllocError) -> Self {
        WriteFault::NoMemory
    }
}

impl<T: Drop> From<AllocFailed<T>> for WriteFault {
    ghost from_gives = { λ _ e. e ≡ write_no_memory };

    fn from(_: AllocFailed<T>) -> Self {
        WriteFault::NoMemory
    }
}

impl From<AllocError> for FetchFault {
    ghost from_gives = { λ _ e. e ≡ fetch_no_memory };

    fn from(_: AllocError) -> Self {
        FetchFault::NoMemory
    }
}
