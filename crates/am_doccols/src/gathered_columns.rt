//! The columns of rows that are written by runs.
ghost use Rattle.std.specs.Prelude.{◌≡◌, ◌↔◌, Some, IsTrue, option_map};
ghost use Rattle.std.specs.Option.{option_copied};
ghost use Rattle.am_types.specs.Views.{object_of, key_of};
ghost use Rattle.am_fields.specs.Columns.{place_of};
ghost use Rattle.am_fields.specs.Layout.{object_actor as actor_of_object, object_counter as counter_of_object, key_actor as actor_of_key, key_string};

use crate::gathered::GatheredRow;
use crate::row_column::RowColumn;
use am_fields::{
    ListedActors, NumberWriter, TextWriter, key_name, key_place, object_counter, object_place,
    text_in,
};
use am_flags::FlagWriter;
use am_types::{KeyRef, ObjRef, Text, same_actor, same_bytes};
use std::alloc::AllocError;

// The actor of an object.
#[inline(always)]
fn object_actor<'a>(object: ObjRef<'a>) -> Option<&'a [u8]>
    ensures { option_copied result ≡ actor_of_object (object_of object.entry) }
{
    match object {
        ObjRef::Root => None,
        ObjRef::Made(id) => Some(id.actor),
    }
}

// The actor of a key.
#[inline(always)]
fn key_actor<'a>(key: KeyRef<'a>) -> Option<&'a [u8]>
    ensures { option_copied result ≡ actor_of_key (key_of key.entry) }
{
    match key {
        KeyRef::Name(_) => None,
        KeyRef::Head => None,
        KeyRef::Elem(id) => Some(id.actor),
    }
}

// Whether two actors, or none and none, are the same.
#[inline(always)]
fn same_actors(a: Option<&[u8]>, b: Option<&[u8]>) -> bool
    ensures { IsTrue result ↔ (option_copied a.entry ≡ option_copied b.entry) }
{
    match (a, b) {
        (None, None) => true,
        (Some(a), Some(b)) => same_actor(a, b),
        _ => false,
    }
}

// Whether two numbers, or none and none, are the same.
#[inline(always)]
fn same_numbers(a: Option<u64>, b: Option<u64>) -> bool
    ensures { IsTrue result ↔ (a ≡ b) }
{
    match (a, b) {
        (None, None) => true,
        (Some(a), Some(b)) => a == b,
        _ => false,
    }
}

// Whether two texts, or none and none, are the same.
#[inline(always)]
fn same_texts(a: Option<&str>, b: Option<&str>) -> bool
    ensures { IsTrue result ↔ (option_map (λ s. s.now) a.entry ≡ option_map (λ s. s.now) b.entry) }
{
    match (a, b) {
        (None, None) => true,
        (Some(a), Some(b)) => same_bytes(a.as_bytes(), b.as_bytes()),
        _ => false,
    }
}

/// The places of the actors of the objects.
pub struct ObjectPlaces;

impl RowColumn for ObjectPlaces {
    type Writer = NumberWriter;

    type Cell = Option<u64>;

    ghost held = { λ writer. writer };

    ghost cell = { λ actors row. option_map (place_of actors) (actor_of_object row.op.now.obj) };

    #[inline(always)]
    fn alike(a: &GatheredRow<'_>, b: &GatheredRow<'_>) -> bool {
        same_actors(object_actor(a.op.obj.lend()), object_actor(b.op.obj.lend()))
    }

    fn put(
        to: &mut NumberWriter,
        actors: &ListedActors<'_>,
        row: &GatheredRow<'_>,
        count: u64,
    ) -> Result<(), AllocError> {
        to.push_alike(object_place(actors, row.op.obj.lend()), count)
    }
}

/// The counters of the objects.
pub struct ObjectCounters;

impl RowColumn for ObjectCounters {
    type Writer = NumberWriter;

    type Cell = Option<u64>;

    ghost held = { λ writer. writer };

    ghost cell = { λ actors row. counter_of_object row.op.now.obj };

    #[inline(always)]
    fn alike(a: &GatheredRow<'_>, b: &GatheredRow<'_>) -> bool {
        same_numbers(
            object_counter(a.op.obj.lend()),
            object_counter(b.op.obj.lend()),
        )
    }

    fn put(
        to: &mut NumberWriter,
        _actors: &ListedActors<'_>,
        row: &GatheredRow<'_>,
        count: u64,
    ) -> Result<(), AllocError> {
        to.push_alike(object_counter(row.op.obj.lend()), count)
    }
}

/// The places of the actors of the keys.
pub struct KeyPlaces;

impl RowColumn for KeyPlaces {
    type Writer = NumberWriter;

    type Cell = Option<u64>;

    ghost held = { λ writer. writer };

    ghost cell = { λ actors row. option_map (place_of actors) (actor_of_key row.op.now.key) };

    #[inline(always)]
    fn alike(a: &GatheredRow<'_>, b: &GatheredRow<'_>) -> bool {
        same_actors(key_actor(a.op.key.lend()), key_actor(b.op.key.lend()))
    }

    fn put(
        to: &mut NumberWriter,
        actors: &ListedActors<'_>,
        row: &GatheredRow<'_>,
        count: u64,
    ) -> Result<(), AllocError> {
        to.push_alike(key_place(actors, row.op.key.lend()), count)
    }
}

/// The names of the keys.
pub struct KeyNames;

impl RowColumn for KeyNames {
    type Writer = TextWriter;

    type Cell = Option<Text>;

    ghost held = { λ writer. writer };

    ghost cell = { λ actors row. key_string row.op.now.key };

    #[inline(always)]
    fn alike(a: &GatheredRow<'_>, b: &GatheredRow<'_>) -> bool {
        same_texts(key_name(a.op.key.lend()), key_name(b.op.key.lend()))
    }

    fn put(
        to: &mut TextWriter,
        _actors: &ListedActors<'_>,
        row: &GatheredRow<'_>,
        count: u64,
    ) -> Result<(), AllocError> {
        to.push_alike(key_name(row.op.key.lend()), count)
    }
}

/// Whether the rows insert.
pub struct Inserts;

impl RowColumn for Inserts {
    type Writer = FlagWriter;

    type Cell = bool;

    ghost held = { λ writer. writer };

    ghost cell = { λ actors row. row.op.now.insert };

    #[inline(always)]
    fn alike(a: &GatheredRow<'_>, b: &GatheredRow<'_>) -> bool {
        a.op.insert == b.op.insert
    }

    fn put(
        to: &mut FlagWriter,
        _actors: &ListedActors<'_>,
        row: &GatheredRow<'_>,
        count: u64,
    ) -> Result<(), AllocError> {
        to.push_alike(row.op.insert, count)
    }
}

/// The actions.
pub struct Actions;

impl RowColumn for Actions {
    type Writer = NumberWriter;

    type Cell = Option<u64>;

    ghost held = { λ writer. writer };

    ghost cell = { λ actors row. Some row.op.now.action };

    #[inline(always)]
    fn alike(a: &GatheredRow<'_>, b: &GatheredRow<'_>) -> bool {
        a.op.action == b.op.action
    }

    fn put(
        to: &mut NumberWriter,
        _actors: &ListedActors<'_>,
        row: &GatheredRow<'_>,
        count: u64,
    ) -> Result<(), AllocError> {
        to.push_alike(Some(u64::from(row.op.action)), count)
    }
}

/// Whether marks expand.
pub struct Expands;

impl RowColumn for Expands {
    type Writer = FlagWriter;

    type Cell = bool;

    ghost held = { λ writer. writer };

    ghost cell = { λ actors row. row.op.now.expand };

    #[inline(always)]
    fn alike(a: &GatheredRow<'_>, b: &GatheredRow<'_>) -> bool {
        a.op.expand == b.op.expand
    }

    fn put(
        to: &mut FlagWriter,
        _actors: &ListedActors<'_>,
        row: &GatheredRow<'_>,
        count: u64,
    ) -> Result<(), AllocError> {
        to.push_alike(row.op.expand, count)
    }
}

/// The names of the marks.
pub struct Marks;

impl RowColumn for Marks {
    type Writer = TextWriter;

    type Cell = Option<Text>;

    ghost held = { λ writer. writer };

    ghost cell = { λ actors row. row.op.now.mark };

    #[inline(always)]
    fn alike(a: &GatheredRow<'_>, b: &GatheredRow<'_>) -> bool {
        same_texts(text_in(&a.op.mark), text_in(&b.op.mark))
    }

    fn put(
        to: &mut TextWriter,
        _actors: &ListedActors<'_>,
        row: &GatheredRow<'_>,
        count: u64,
    ) -> Result<(), AllocError> {
        to.push_alike(text_in(&row.op.mark), count)
    }
}

/// The places of the actors of the ids.
pub struct IdPlaces;

impl RowColumn for IdPlaces {
    type Writer = NumberWriter;

    type Cell = Option<u64>;

    ghost held = { λ writer. writer };

    ghost cell = { λ actors row. Some (place_of actors row.id.actor.now) };

    #[inline(always)]
    fn alike(a: &GatheredRow<'_>, b: &GatheredRow<'_>) -> bool {
        same_actor(a.id.actor, b.id.actor)
    }

    fn put(
        to: &mut NumberWriter,
        actors: &ListedActors<'_>,
        row: &GatheredRow<'_>,
        count: u64,
    ) -> Result<(), AllocError> {
        to.push_alike(Some(actors.place(row.id.actor)), count)
    }
}

/// How many successors the rows have.
pub struct SuccCounts;

impl RowColumn for SuccCounts {
    type Writer = NumberWriter;

    type Cell = Option<u64>;

    ghost held = { λ writer. writer };

    ghost cell = { λ actors row. Some row.succs };

    #[inline(always)]
    fn alike(a: &GatheredRow<'_>, b: &GatheredRow<'_>) -> bool {
        a.succs == b.succs
    }

    fn put(
        to: &mut NumberWriter,
        _actors: &ListedActors<'_>,
        row: &GatheredRow<'_>,
        count: u64,
    ) -> Result<(), AllocError> {
        to.push_alike(Some(row.succs), count)
    }
}
