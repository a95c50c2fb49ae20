//! The operations of the ancestors of a change.
ghost use Rattle.std.specs.Prelude.{◌≡◌, ◌+◌, ◌%◌, ◌⊎◌, ℕ, List, All, Contains, cond, true, false, set, option_map, IfSome, IfNone};
ghost use Rattle.am_types.specs.Same.{same_bytes};
ghost use Rattle.am_types.specs.Views.{id_of};
ghost use Rattle.am_graph.specs.Clocks.{reach_of};
ghost use Rattle.am_graph.specs.Reaches.{number};
ghost use Rattle.am_graph.specs.declared.reach.Reach.{Reach};
ghost use Rattle.am_fits.specs.Past.{IsPast, AreRecent};
ghost use Rattle.am_fits.specs.declared.table.Table.{Table};
ghost use Rattle.am_fits.specs.Shown.{fact_shown};
ghost use Rattle.am_fits.specs.Told.{ancestor_fact};
ghost use Rattle.am_fits.specs.Words.{words_of};

use crate::index::OpIndex;
use crate::seen::Seen;
use crate::table::Table;
use am_graph::Reached;
use am_types::{IdRef, same_actor, same_id};
use std::marker::Model;

/// So many actors are kept, those who were found out last.
const OTHERS: usize = 6;

/// What was found out about an actor.
#[derive(Clone, Copy, Debug)]
pub(crate) struct Asked<'a> {
    /// The actor.
    pub actor: &'a [u8],
    /// The number of the actor, if it is an author.
    pub author: Option<usize>,
    /// The counter below which the ancestors cover the actor's ids, and from which on they cover none.
    pub end: u64,
}

/// What was found of an id.
#[derive(Clone, Copy, Debug)]
pub(crate) struct Found<'a> {
    pub id: IdRef<'a>,
    pub seen: Option<Seen<'a>>,
}

/// What was found out about the actors who were found out last, and about the one who was asked for last.
#[derive(Clone, Copy, Debug)]
pub(crate) struct Recent<'a> {
    pub last: Asked<'a>,
    pub others: [Asked<'a>; OTHERS],
    /// Which of them makes way for the next one.
    pub turn: usize,
}

/// The operations of the ancestors of a change. What was found out about some actors is kept, since the ids that a change
/// names have few actors, often by turns; and what two objects are, since operations that stand together are mostly of one
/// object, or of two by turns. Contracts see the clock of the ancestors and the facts of all operations.
#[derive(Drop)]
pub(crate) struct Ancestors<'a> {
    reached: Reached<'a>,
    table: &'a Table,
    recent: Recent<'a>,
    /// The object that was looked up last.
    object: Option<Found<'a>>,
    /// The object that was looked up before it.
    before: Option<Found<'a>>,
}

impl<'a> Model for Ancestors<'a> {
    ghost use Rattle.std.specs.Prelude.{IfSome};
    ghost use Rattle.am_fits.specs.Past.{Past, AreRecent, IsFound};
    ghost use Rattle.am_fits.specs.Tables.{facts_in};

    ghost Value = { Past };

    ghost view = { λ a. record { clock = a.reached; facts = facts_in a.table.now } };

    ghost invariant = { λ a. AreRecent a.reached a.table.now a.recent
        × IfSome a.object (IsFound a.reached (facts_in a.table.now)) × IfSome a.before (IsFound a.reached (facts_in a.table.now)) };
}

impl<'a> Ancestors<'a> {
    /// Those that go as far as this, of the operations of the index. The actor will be asked for first.
    pub fn new(reached: Reached<'a>, index: &'a OpIndex, actor: &'a [u8]) -> Ancestors<'a>
        ensures clock { result.clock ≡ reached.entry }
        ensures facts { result.facts ≡ index.now.facts }
    {
        let table = index.table();
        let asked = asked_of(&reached, table, actor);
        Ancestors {
            reached,
            table,
            recent: recent_of(asked),
            object: None,
            before: None,
        }
    }

    /// The ancestors' operation with the id of an object.
    #[inline(always)]
    pub fn find_object(&mut self, id: IdRef<'a>) -> Option<Seen<'a>>
        ensures same { self.new ≡ self.old }
        ensures found { option_map fact_shown result ≡ ancestor_fact self.old.clock self.old.facts (id_of id.entry) }
    {
        if let Some(found) = self.object {
            if same_id(found.id, id) {
                return found.seen;
            }
        }
        if let Some(found) = self.before {
            if same_id(found.id, id) {
                return found.seen;
            }
        }
        let seen = self.find(id);
        self.before = self.object;
        self.object = Some(Found { id, seen });
        seen
    }

    /// The ancestors' operation with the id.
    pub fn find(&mut self, id: IdRef<'a>) -> Option<Seen<'a>>
        ensures same { self.new ≡ self.old }
        ensures found { option_map fact_shown result ≡ ancestor_fact self.old.clock self.old.facts (id_of id.entry) }
    {
        let (asked, is_new) = ask(&self.recent, &self.reached, self.table, id.actor);
        keep(&mut self.recent, asked, is_new);
        if id.counter >= asked.end {
            return None;
        }
        self.table.at(asked.author, id.counter)
    }
}

// What is known of the actor, and whether that was not kept yet.
fn ask<'a>(
    recent: &Recent<'a>,
    reached: &Reached<'_>,
    table: &'a Table,
    actor: &'a [u8],
) -> (Asked<'a>, bool)
    requires recent { AreRecent reached.now table.now recent.now }
    ensures past { IsPast reached.now table.now result.0 }
    ensures actor { result.0.actor.now ≡ actor.now }
    ensures kept { result.1 ≡ false → (result.0 ≡ recent.now.last) ⊎ Contains recent.now.others result.0 }
    ensures not_last { result.1 ≡ true → same_bytes recent.now.last.actor.now actor.now ≡ false }
    ensures not_other { result.1 ≡ true → All (λ a. same_bytes a.actor.now actor.now ≡ false) recent.now.others }
{
    if same_actor(recent.last.actor, actor) {
        return (recent.last, false);
    }
    if let Some(kept) = known(&recent.others, actor) {
        return (kept, false);
    }
    (asked_of(reached, table, actor), true)
}

// What is kept of the actor.
fn known<'a>(others: &[Asked<'a>], actor: &[u8]) -> Option<Asked<'a>>
    ensures among { IfSome result (λ a. Contains others.now a) }
    ensures actor { IfSome result (λ a. a.actor.now ≡ actor.now) }
    ensures none { IfNone result (All (λ a. same_bytes a.actor.now actor.now ≡ false) others.now) }
{
    for other in others {
        if same_actor(other.actor, actor) {
            return Some(*other);
        }
    }
    None
}

// Nothing but this one.
fn recent_of<'a>(asked: Asked<'a>) -> Recent<'a>
    ensures { (clock : List (List ℕ × Reach)) (t : Table) → IsPast clock t asked.entry → AreRecent clock t result }
{
    Recent {
        last: asked,
        others: [asked; OTHERS],
        turn: 0,
    }
}

// Puts one in the place of the last and, if it is new, among the others.
fn keep<'a>(recent: &mut Recent<'a>, asked: Asked<'a>, is_new: bool)
    ensures last { recent.new.last ≡ asked.entry }
    ensures others { recent.new.others ≡ cond is_new (set recent.old.others (recent.old.turn % 6) asked.entry) recent.old.others }
    ensures turn { recent.new.turn ≡ cond is_new (recent.old.turn % 6 + 1) recent.old.turn }
    ensures recent { (clock : List (List ℕ × Reach)) (t : Table) → IsPast clock t asked.entry → AreRecent clock t recent.old → AreRecent clock t recent.new }
{
    recent.last = asked;
    if is_new {
        let turn = recent.turn % OTHERS;
        recent.others[turn] = asked;
        recent.turn = turn + 1;
    }
}

// What the clock and the table tell of an actor.
fn asked_of<'a>(reached: &Reached<'_>, table: &'a Table, actor: &'a [u8]) -> Asked<'a>
    ensures actor { result.actor.now ≡ actor.now }
    ensures author { result.author ≡ number (words_of table.now.texts).authors actor.now }
    ensures end { result.end ≡ (reach_of reached.now actor.now).end }
{
    Asked {
        actor,
        author: table.author(actor),
        end: reached.end(actor),
    }
}
