//! Actors: those who make changes.
ghost use Rattle.std.specs.Prelude.{◌≡◌, ◌<◌, ◌↔◌, ◌⊎◌, length, IfOk};
ghost use Rattle.am_types.specs.Actors.{IsActor};
ghost use Rattle.am_types.specs.Limits.{longest_actor};

use crate::byte_strings::same_actor;
use crate::known::slice_known;
use crate::limits::LONGEST_ACTOR;
use crate::twin::Twin;
use std::alloc::{AllocError, Global};
use std::marker::Model;
use std::rc::RcSlice;
use thiserror::Error;

/// One who makes changes: 1 to 1,024 bytes, which a contract sees as their list. A copy shares them. (Automerge Binary
/// Document Format, "actor IDs"; the bounds are a choice of amstore's profile.)
#[derive(Debug, Drop)]
pub struct ActorId {
    shared: RcSlice<u8>,
}

impl Model for ActorId {
    ghost use Rattle.std.specs.Prelude.{List, ℕ};
    ghost use Rattle.std.specs.Rc.{rc_slice_items};
    ghost use Rattle.am_types.specs.Actors.{IsActor};

    ghost Value = { List ℕ };

    ghost view = { λ a. rc_slice_items a.shared };

    ghost invariant = { λ a. IsActor (rc_slice_items a.shared) };
}

/// Why no actor was made.
#[derive(Clone, Copy, Debug, PartialEq, Eq, Error)]
pub enum ActorFault {
    /// There is no byte, or there are more than 1,024.
    #[error("an actor has 1 to 1,024 bytes")]
    Length,
    /// The allocator had no memory.
    #[error("there is no memory")]
    NoMemory,
}

impl From<AllocError> for ActorFault {
    ghost use Rattle.std.specs.Prelude.{◌≡◌};
    ghost use Rattle.am_types.specs.declared.actor.ActorFault.TheVariants.{NoMemory};

    ghost from_gives = { λ _ e. e ≡ NoMemory };

    fn from(_error: AllocError) -> ActorFault {
        ActorFault::NoMemory
    }
}

impl ActorId {
    /// The actor with these bytes.
    pub fn of(alloc: Global, bytes: &[u8]) -> Result<ActorId, ActorFault>
        ensures ok { IfOk result (λ actor. actor ≡ bytes.now) }
        ensures allowed { IfOk result (λ actor. IsActor bytes.now) }
        ensures length { (result ≡ Err ActorFault.Length) ↔ ((length bytes.now ≡ 0) ⊎ (longest_actor < length bytes.now)) }
    {
        slice_known(bytes);
        if bytes.is_empty() || bytes.len() > LONGEST_ACTOR {
            return Err(ActorFault::Length);
        }
        let shared = RcSlice::from_slice(alloc, bytes)?;
        Ok(ActorId { shared })
    }

    /// The bytes of the actor.
    pub fn as_slice(&self) -> &[u8]
        ensures value { result.now ≡ self.now }
        ensures allowed { IsActor self.now }
    {
        self.shared.as_slice()
    }
}

impl Twin for ActorId {
    fn copy(&self, _alloc: Global) -> Result<ActorId, AllocError> {
        let shared = self.shared.clone()?;
        Ok(ActorId { shared })
    }
}

impl PartialEq for ActorId {
    ghost use Rattle.std.specs.Prelude.{nat_eq};
    ghost use lib.Pointwise.{pointwise};
    ghost use Rattle.std.specs.Cmp.{partial_equiv_from_equiv};
    ghost use Rattle.std.specs.Cmp.Lexicographic.{nat_list_eq_equiv};

    ghost eq = { pointwise nat_eq };

    ghost laws = { partial_equiv_from_equiv nat_list_eq_equiv };

    fn eq(&self, other: &Self) -> bool {
        same_actor(self.as_slice(), other.as_slice())
    }
}

impl Eq for ActorId {
    ghost use Rattle.std.specs.Cmp.Lexicographic.{nat_list_eq_equiv};

    ghost laws = { nat_list_eq_equiv };
}
