//! What is covered, asked of many ids.
ghost use Rattle.std.specs.Prelude.{◌≡◌, ◌≤◌, true, None, Some};
ghost use Rattle.std.specs.List.{AllByRecursion};
ghost use Rattle.am_types.specs.declared.OpId.{OpId};
ghost use Rattle.am_types.specs.Views.{id_of};
ghost use Rattle.am_graph.specs.Clocks.{reach_of};
ghost use Rattle.am_fields.specs.Rising.{rising};
ghost use Rattle.am_view.specs.Seen.{seen_by};

use am_graph::Clock;
use am_types::{IdRef, same_actor};
use std::marker::Model;

/// A clock, or that every id is covered, and what the clock told of the actor that was asked for last, since the ids of rows
/// have few actors. A contract sees the clock, if there is one.
#[derive(Drop)]
pub struct Asked<'a> {
    clock: Option<&'a Clock>,
    /// The actor that was asked for last.
    actor: &'a [u8],
    /// The counter below which the clock covers the actor's ids.
    end: u64,
}

impl<'a> Model for Asked<'a> {
    ghost use Rattle.std.specs.Prelude.{ℕ, ◌≡◌, List, Option, IfSome, option_map};
    ghost use Rattle.am_graph.specs.declared.reach.Reach.{Reach};
    ghost use Rattle.am_graph.specs.Clocks.{reach_of};

    ghost Value = { Option (List (List ℕ × Reach)) };

    ghost view = { λ a. option_map (λ c. c.now) a.clock };

    ghost invariant = { λ a. IfSome a.clock (λ c. a.end ≡ (reach_of c.now a.actor.now).end) };
}

// The counter below which the clock covers the ids of an actor, where it is known for one that may be the same.
fn end_known(clock: &Clock, known: &[u8], end: u64, actor: &[u8]) -> u64
    requires { end ≡ (reach_of clock.now known.now).end }
    ensures { result ≡ (reach_of clock.now actor.now).end }
{
    if same_actor(actor, known) {
        return end;
    }
    clock.end(actor)
}

impl<'a> Asked<'a> {
    /// What the clock covers, which hasn't been asked yet.
    pub fn of(clock: &'a Clock) -> Self
        ensures { result ≡ Some clock.now }
    {
        let actor: &[u8] = &[];
        Asked {
            clock: Some(clock),
            actor,
            end: clock.end(actor),
        }
    }

    /// Every id.
    pub fn everything() -> Self
        ensures { result ≡ None }
    {
        Asked {
            clock: None,
            actor: &[],
            end: 0,
        }
    }

    /// Whether it is known that every id is covered.
    #[inline(always)]
    pub fn is_everything(&self) -> bool
        ensures { result ≡ true → (id : OpId) → seen_by self.now id ≡ true }
    {
        self.clock.is_none()
    }

    /// Whether the id is covered.
    #[inline(always)]
    pub fn covers(&mut self, id: IdRef<'a>) -> bool
        ensures same { self.new ≡ self.old }
        ensures covered { result ≡ seen_by self.old (id_of id.entry) }
    {
        match self.clock {
            None => true,
            Some(clock) => {
                if !same_actor(id.actor, self.actor) {
                    self.actor = id.actor;
                    self.end = clock.end(id.actor);
                }
                id.counter < self.end
            }
        }
    }

    /// How many of so many ids that rise from this one on are covered. They are the first of them.
    pub fn covered(&mut self, id: IdRef<'a>, count: u64) -> u64
        ensures same { self.new ≡ self.old }
        ensures few { result ≤ count }
        ensures covered { AllByRecursion (λ i. seen_by self.old i ≡ true) (rising (id_of id.entry) result) }
    {
        match self.clock {
            None => count,
            Some(clock) => {
                let end = end_known(clock, self.actor, self.end, id.actor);
                count.min(end.saturating_sub(id.counter))
            }
        }
    }
}
