//! Clocks: how far each actor's changes go among some changes.
ghost use Rattle.std.specs.Prelude.{◌≡◌, ◌↔◌, List, ℕ, All, Contains, IfOk, OnOk, IfErr, IsTrue, Some, true};
ghost use Rattle.std.specs.List.{zip};
ghost use Rattle.am_types.specs.Ancestors.{ancestors};
ghost use Rattle.am_types.specs.Members.{Member};
ghost use Rattle.am_types.specs.Operations.{Operation, operations};
ghost use Rattle.am_types.specs.ValidSets.{Valid};
ghost use Rattle.am_types.specs.Views.{id_of};
ghost use Rattle.am_types.specs.declared.Hash.{Hash};
ghost use Rattle.am_types.specs.Clocks.{covers as members_cover};
ghost use Rattle.am_graph.specs.Clocks.{IsClockOf, covers, reach_of};
ghost use Rattle.am_graph.specs.Graphs.{is_held, missing, ForSet, MatchFault};

use crate::fault::ClockFault;
use crate::graph::Graph;
use crate::numbered_texts::NumberedTexts;
use crate::reach::Reach;
use am_types::{Hash, IdRef, Twin};
use std::alloc::Global;
use std::marker::Model;

/// How far each actor's changes go among some changes. Contracts see it as the list of the actors, each beside how far
/// its changes go.
#[derive(Drop)]
pub struct Clock {
    authors: NumberedTexts,
    table: Vec<Reach>,
}

impl Model for Clock {
    ghost use Rattle.std.specs.Prelude.{List, ℕ};
    ghost use Rattle.std.specs.List.{zip};
    ghost use Rattle.am_graph.specs.declared.reach.Reach.{Reach};

    ghost Value = { List (List ℕ × Reach) };

    ghost view = { λ c. zip c.authors c.table.items };
}

/// A [`Clock`] over the actors of a graph, which are not copied.
#[derive(Drop)]
pub struct Reached<'a> {
    authors: &'a NumberedTexts,
    table: Vec<Reach>,
}

impl<'a> Model for Reached<'a> {
    ghost use Rattle.std.specs.Prelude.{List, ℕ};
    ghost use Rattle.std.specs.List.{zip};
    ghost use Rattle.am_graph.specs.declared.reach.Reach.{Reach};

    ghost Value = { List (List ℕ × Reach) };

    ghost view = { λ c. zip c.authors.now c.table.items };
}

impl Graph {
    /// How far each actor's changes go among the ancestors of these heads.
    pub fn clock(&self, alloc: Global, heads: &[Hash]) -> Result<Clock, ClockFault>
        ensures ok { IfOk result (λ clock. ForSet self.now (λ C. IsClockOf (ancestors C heads.now) clock)) }
        ensures held { OnOk result (All (λ h. is_held self.now h ≡ true) heads.now) }
        ensures unknown { IfErr result (λ fault. MatchFault fault (λ h. missing self.now heads.now ≡ Some h)) }
    {
        let table = self.parts.reaches(alloc, heads)?;
        let authors = self.parts.authors.copy(alloc)?;
        Ok(Clock { authors, table })
    }

    /// How far each actor's changes go among the ancestors of these heads, while the graph is lent.
    pub fn reached(&self, alloc: Global, heads: &[Hash]) -> Result<Reached<'_>, ClockFault>
        ensures ok { IfOk result (λ clock. ForSet self.now (λ C. IsClockOf (ancestors C heads.now) clock)) }
        ensures held { OnOk result (All (λ h. is_held self.now h ≡ true) heads.now) }
        ensures unknown { IfErr result (λ fault. MatchFault fault (λ h. missing self.now heads.now ≡ Some h)) }
    {
        let table = self.parts.reaches(alloc, heads)?;
        Ok(Reached {
            authors: &self.parts.authors,
            table,
        })
    }
}

impl Clock {
    /// Whether the actor of the id has a change, and the counter is at most the greatest of its changes' last counters.
    pub fn covers(&self, id: IdRef<'_>) -> bool
        ensures clock { result ≡ covers self.now (id_of id.entry) }
    {
        id.counter < reach_of(&self.authors, self.table.as_slice(), id.actor).end
    }

    /// The greatest seq of the actor's changes, or 0 where there is none.
    pub fn last_seq(&self, actor: &[u8]) -> u64
        ensures clock { result ≡ (reach_of self.now actor.now).seq }
    {
        reach_of(&self.authors, self.table.as_slice(), actor).seq
    }

    /// The counter below which the clock covers the ids of the actor, and from which on it covers none: 0 where the actor
    /// has no change. Who asks of many ids of one actor asks for this once.
    pub fn end(&self, actor: &[u8]) -> u64
        ensures clock { result ≡ (reach_of self.now actor.now).end }
    {
        reach_of(&self.authors, self.table.as_slice(), actor).end
    }
}

impl<'a> Reached<'a> {
    /// Whether the actor of the id has a change, and the counter is at most the greatest of its changes' last counters.
    pub fn covers(&self, id: IdRef<'_>) -> bool
        ensures clock { result ≡ covers self.now (id_of id.entry) }
    {
        id.counter < reach_of(self.authors, self.table.as_slice(), id.actor).end
    }

    /// The greatest seq of the actor's changes, or 0 where there is none.
    pub fn last_seq(&self, actor: &[u8]) -> u64
        ensures clock { result ≡ (reach_of self.now actor.now).seq }
    {
        reach_of(self.authors, self.table.as_slice(), actor).seq
    }

    /// The counter below which the clock covers the ids of the actor, and from which on it covers none: 0 where the actor
    /// has no change. Who asks of many ids of one actor asks for this once.
    pub fn end(&self, actor: &[u8]) -> u64
        ensures clock { result ≡ (reach_of self.now actor.now).end }
    {
        reach_of(self.authors, self.table.as_slice(), actor).end
    }
}

// How far the table goes for the actor.
fn reach_of(authors: &NumberedTexts, table: &[Reach], actor: &[u8]) -> Reach
    ensures { result ≡ reach_of (zip authors.now table.now) actor.now }
{
    if let Some(author) = authors.number_of(actor) {
        if author < table.len() {
            return table[author];
        }
    }
    Reach { seq: 0, end: 0 }
}

/// In a valid set the ancestors of some heads cover an operation's id exactly where its change is one of them.
pub fn covers_ancestors_alone()
    ensures { (C : List Member) → Valid C → (hs : List Hash) → (m : Member) → Contains C m → (x : Operation) → Contains (operations m.change) x → IsTrue (members_cover (ancestors C hs) x.id) ↔ Contains (ancestors C hs) m }
{}
