//! Why a command gave no reply.
use std::alloc::AllocError;
use thiserror::Error;

/// Why a command gave no reply.
#[derive(Clone, Copy, Debug, PartialEq, Eq, Error)]
pub enum Stop {
    /// The folder failed.
    #[error("the folder failed")]
    File,
    /// Out of memory.
    #[error("no memory")]
    NoMemory,
}

impl From<AllocError> for Stop {
    ghost use Rattle.std.specs.Prelude.{◌≡◌};
    ghost use Rattle.am_session.specs.declared.stop.Stop.TheVariants.{NoMemory};

    ghost from_gives = { λ _ e. e ≡ NoMemory };

    fn from(_: AllocError) -> Self {
        Stop::NoMemory
    }
}
