//! Actors in a list that places name, and where one stands there.
ghost use Rattle.std.specs.Prelude.{◌≡◌, ◌≤◌, ◌↔◌, length, IsTrue};
ghost use Rattle.am_types.specs.Order.{bytes_cmp, Ascends};
ghost use Rattle.am_fields.specs.Actors.{OthersAscend};
ghost use Rattle.am_fields.specs.Columns.{place_of};

use am_types::{ActorId, List, compare_actors, same_actor};
use std::cmp::Ordering;
use std::marker::Model;

/// The actors that places name, in a list that is lent, with what is known of their order. All ascend in a document, and in
/// a change those behind the author do: there an actor is sought by halves. A contract sees the list.
#[derive(Drop)]
pub struct ListedActors<'a> {
    actors: &'a [ActorId],
    others_ascend: bool,
}

impl<'a> Model for ListedActors<'a> {
    ghost use Rattle.std.specs.Prelude.{List, ℕ, IsTrue};
    ghost use Rattle.am_fields.specs.Actors.{OthersAscend};

    ghost Value = { List (List ℕ) };

    ghost view = { λ l. l.actors.now };

    ghost invariant = { λ l. IsTrue l.others_ascend → OthersAscend l.actors.now };
}

// Whether each actor is below the next.
fn ascend(actors: &[ActorId]) -> bool
    ensures { IsTrue result ↔ Ascends bytes_cmp actors.now }
{
    for i in 1..actors.len() {
        if compare_actors(actors[i - 1].as_slice(), actors[i].as_slice()) != Ordering::Less {
            return false;
        }
    }
    true
}

// Whether those behind the first ascend.
fn others_ascend(actors: &[ActorId]) -> bool
    ensures { IsTrue result ↔ OthersAscend actors.now }
{
    match actors.split_first() {
        None => true,
        Some((_first, others)) => ascend(others),
    }
}

// Where an actor stands in a list, by a walk.
fn place_in(actors: &[ActorId], actor: &[u8]) -> u64
    ensures { result ≡ place_of actors.now actor.now }
{
    let mut i = 0;
    while i < actors.len() {
        if same_actor(actor, actors[i].as_slice()) {
            return i as u64;
        }
        i += 1;
    }
    i as u64
}

// Where an actor stands among ascending ones, by halves.
fn place_among(actors: &[ActorId], actor: &[u8]) -> u64
    requires { Ascends bytes_cmp actors.now }
    ensures { result ≡ place_of actors.now actor.now }
{
    let mut low = 0;
    let mut high = actors.len();
    while low < high {
        let middle = low + (high - low) / 2;
        match compare_actors(actor, actors[middle].as_slice()) {
            Ordering::Less => high = middle,
            Ordering::Equal => return middle as u64,
            Ordering::Greater => low = middle + 1,
        }
    }
    actors.len() as u64
}

impl<'a> ListedActors<'a> {
    /// The actors of this list, which is gone through once.
    pub fn of(actors: &'a [ActorId]) -> Self
        ensures { result ≡ actors.now }
    {
        ListedActors {
            actors,
            others_ascend: others_ascend(actors),
        }
    }

    // Where an actor stands behind the first.
    fn place_behind(&self, others: &[ActorId], actor: &[u8]) -> u64
        requires { OthersAscend self.now → Ascends bytes_cmp others.now }
        ensures place { result ≡ place_of others.now actor.now }
        ensures few { result ≤ length others.now }
    {
        if self.others_ascend {
            place_among(others, actor)
        } else {
            place_in(others, actor)
        }
    }

    /// Where an actor stands in the list, counted from 0, or the length of the list.
    pub fn place(&self, actor: &[u8]) -> u64
        ensures { result ≡ place_of self.now actor.now }
    {
        match self.actors.split_first() {
            None => 0,
            Some((first, others)) => {
                if same_actor(actor, first.as_slice()) {
                    return 0;
                }
                1 + self.place_behind(others, actor)
            }
        }
    }
}

/// The actors that places name, in a list that is owned, with what is known of their order. A contract sees the list.
#[derive(Drop)]
pub struct OwnedActors {
    actors: List<ActorId>,
    others_ascend: bool,
}

impl Model for OwnedActors {
    ghost use Rattle.std.specs.Prelude.{List, ℕ, IsTrue};
    ghost use Rattle.am_fields.specs.Actors.{OthersAscend};

    ghost Value = { List (List ℕ) };

    ghost view = { λ l. l.actors };

    ghost invariant = { λ l. IsTrue l.others_ascend → OthersAscend l.actors };
}

impl OwnedActors {
    /// The actors of this list, which is gone through once.
    pub fn of(actors: List<ActorId>) -> Self
        ensures { result ≡ actors }
    {
        let others_ascend = others_ascend(actors.as_slice());
        OwnedActors {
            actors,
            others_ascend,
        }
    }

    /// The list, lent.
    pub fn lend(&self) -> ListedActors<'_>
        ensures { result ≡ self.now }
    {
        ListedActors {
            actors: self.actors.as_slice(),
            others_ascend: self.others_ascend,
        }
    }
}
