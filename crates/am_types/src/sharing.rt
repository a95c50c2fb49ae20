//! Actors that come again share their bytes.
ghost use Rattle.std.specs.Prelude.{◌≡◌, ◌<◌, ◌↔◌, ◌⊎◌, length, IfOk, IfSome};
ghost use Rattle.am_types.specs.Actors.{IsActor};
ghost use Rattle.am_types.specs.Limits.{longest_actor};

use crate::actor::{ActorFault, ActorId};
use crate::byte_strings::same_actor;
use crate::twin::Twin;
use std::alloc::Global;

// How many are kept; then all are forgotten.
const MOST_KEPT: usize = 16;

/// Actors that were asked for lately. One of them is shared when it is asked for again, and not made anew. Contracts
/// see nothing of them.
#[derive(Drop)]
pub struct SharedActors {
    kept: Vec<ActorId>,
    // for each byte, where among those kept one that begins with it was found last: most that come have been asked for
    // before, and few begin with the same byte
    places: [u8; 256],
}

// The actor, if it has these bytes.
#[inline(always)]
fn same<'a>(actor: &'a ActorId, bytes: &[u8]) -> Option<&'a ActorId>
    ensures { IfSome result (λ found. found.now ≡ bytes.now) }
{
    if same_actor(actor.as_slice(), bytes) {
        Some(actor)
    } else {
        None
    }
}

// The place of the one with these bytes.
fn found(kept: &[ActorId], bytes: &[u8]) -> Option<usize> {
    for place in 0..kept.len() {
        if same_actor(kept[place].as_slice(), bytes) {
            return Some(place);
        }
    }
    None
}

impl SharedActors {
    /// None yet.
    pub fn new(alloc: Global) -> Self {
        SharedActors {
            kept: Vec::new(alloc),
            places: [0u8; 256],
        }
    }

    // The one with these bytes, where it stands at the place that is noted for its first byte.
    #[inline(always)]
    fn noted(&self, bytes: &[u8]) -> Option<&ActorId>
        ensures { IfSome result (λ actor. actor.now ≡ bytes.now) }
    {
        let first = bytes.first()?;
        let place = self.places[usize::from(*first)];
        let actor = self.kept.get(usize::from(place))?;
        same(actor, bytes)
    }

    // Notes the place for the first byte.
    fn note(&mut self, bytes: &[u8], place: usize) {
        if let Some(first) = bytes.first() {
            if place < MOST_KEPT {
                self.places[usize::from(*first)] = place as u8;
            }
        }
    }

    /// The actor with these bytes, as `ActorId::of` gives it.
    #[inline(always)]
    pub fn of(&mut self, alloc: Global, bytes: &[u8]) -> Result<ActorId, ActorFault>
        ensures ok { IfOk result (λ actor. actor ≡ bytes.now) }
        ensures allowed { IfOk result (λ actor. IsActor bytes.now) }
        ensures length { (result ≡ Err ActorFault.Length) ↔ ((length bytes.now ≡ 0) ⊎ (longest_actor < length bytes.now)) }
    {
        if let Some(actor) = self.noted(bytes) {
            // (its bytes are an actor's)
            let _bytes = actor.as_slice();
            let twin = actor.copy(alloc)?;
            return Ok(twin);
        }
        self.sought(alloc, bytes)
    }

    // The same, whatever is noted.
    #[inline(never)]
    fn sought(&mut self, alloc: Global, bytes: &[u8]) -> Result<ActorId, ActorFault>
        ensures ok { IfOk result (λ actor. actor ≡ bytes.now) }
        ensures allowed { IfOk result (λ actor. IsActor bytes.now) }
        ensures length { (result ≡ Err ActorFault.Length) ↔ ((length bytes.now ≡ 0) ⊎ (longest_actor < length bytes.now)) }
    {
        if let Some(place) = found(self.kept.as_slice(), bytes) {
            self.note(bytes, place);
            if let Some(actor) = self.noted(bytes) {
                // (its bytes are an actor's)
                let _bytes = actor.as_slice();
                let twin = actor.copy(alloc)?;
                return Ok(twin);
            }
        }
        let actor = ActorId::of(alloc, bytes)?;
        if self.kept.len() >= MOST_KEPT {
            self.kept.clear();
        }
        let twin = actor.copy(alloc)?;
        let place = self.kept.len();
        if self.kept.push(twin).is_err() {
            return Err(ActorFault::NoMemory);
        }
        self.note(bytes, place);
        Ok(actor)
    }
}
