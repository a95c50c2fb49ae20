//! What is answered to a change that is added, and why a call fails.
use am_types::Hash;
use std::alloc::AllocError;
use thiserror::Error;

/// What became of a change that was added.
#[derive(Clone, Copy, Debug, PartialEq, Eq)]
pub enum Added {
    /// It is held from now on.
    New,
    /// It was held already.
    Same,
    /// Another change was held with this hash.
    Clash,
}

/// Why a change was not added.
#[derive(Clone, Copy, Debug, PartialEq, Eq, Error)]
pub enum GraphFault {
    /// This dependency, the first such, is not held.
    #[error("a dependency is not held")]
    MissingDep(Hash),
    /// The allocator had no memory.
    #[error("there is no memory")]
    NoMemory,
}

/// Why there are no ancestors of some heads.
#[derive(Clone, Copy, Debug, PartialEq, Eq, Error)]
pub enum ClockFault {
    /// This head, the first such, is not held.
    #[error("a head is not held")]
    UnknownHead(Hash),
    /// The allocator had no memory.
    #[error("there is no memory")]
    NoMemory,
}

impl From<AllocError> for GraphFault {
    ghost use Rattle.std.specs.Prelude.{◌≡◌};
    ghost use Rattle.am_graph.specs.declared.fault.GraphFault.TheVariants.{NoMemory};

    ghost from_gives = { λ _ e. e ≡ NoMemory };

    fn from(_error: AllocError) -> GraphFault {
        GraphFault::NoMemory
    }
}

impl From<AllocError> for ClockFault {
    ghost use Rattle.std.specs.Prelude.{◌≡◌};
    ghost use Rattle.am_graph.specs.declared.fault.ClockFault.TheVariants.{NoMemory};

    ghost from_gives = { λ _ e. e ≡ NoMemory };

    fn from(_error: AllocError) -> ClockFault {
        ClockFault::NoMemory
    }
}
