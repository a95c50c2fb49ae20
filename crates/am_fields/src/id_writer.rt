//! Writing ids to a column of places and one of counters.
ghost use Rattle.std.specs.Prelude.{◌≡◌, ◌+◌, ◌<◌, ◌≤◌, ◌++◌, ◌∷◌, ◌^◌, [], List, Some, All, map, option_map, length, IfSome, OnOk};
ghost use Rattle.am_types.specs.Fine.{IsId};
ghost use Rattle.am_types.specs.Views.{id_of};
ghost use Rattle.am_fields.specs.Columns.{place_of};
ghost use Rattle.am_fields.specs.Layout.{id_actor, id_counter};

use crate::finishing::{finish_deltas, finish_items};
use crate::ids::IdColumns;
use crate::listed::ListedActors;
use crate::number_writer::NumberWriter;
use am_delta::DeltaWriter;
use am_types::{Bytes, IdRef, OpId};
use std::alloc::{AllocError, Global};

/// The writers of the two columns.
#[derive(Drop)]
pub struct IdWriter {
    pub places: NumberWriter,
    pub counters: DeltaWriter,
}

// Appends an id.
fn push_id(
    places: &mut NumberWriter,
    counters: &mut DeltaWriter,
    actors: &ListedActors<'_>,
    id: IdRef<'_>,
) -> Result<(), AllocError>
    requires places { IfSome places.old (λ xs. length xs < 2 ^ 32) }
    requires counters { IfSome counters.old (λ xs. length xs < 2 ^ 32) }
    requires id { IsId (id_of id) }
    ensures places { OnOk result (IfSome places.old (λ xs. places.new ≡ Some (xs ++ option_map (place_of actors.now) (id_actor (id_of id.entry)) ∷ []))) }
    ensures counters { OnOk result (IfSome counters.old (λ xs. counters.new ≡ Some (xs ++ id_counter (id_of id.entry) ∷ []))) }
{
    places.push(Some(actors.place(id.actor)))?;
    counters.push(Some(id.counter as i64))
}

// Appends ids.
fn push_ids(
    places: &mut NumberWriter,
    counters: &mut DeltaWriter,
    actors: &ListedActors<'_>,
    ids: &[OpId],
) -> Result<(), AllocError>
    requires places { IfSome places.old (λ xs. length xs + length ids.now ≤ 2 ^ 32) }
    requires counters { IfSome counters.old (λ xs. length xs + length ids.now ≤ 2 ^ 32) }
    requires ids { All IsId ids.now }
    ensures places { OnOk result (IfSome places.old (λ xs. places.new ≡ Some (xs ++ map (option_map (place_of actors.now)) (map id_actor ids.now)))) }
    ensures counters { OnOk result (IfSome counters.old (λ xs. counters.new ≡ Some (xs ++ map id_counter ids.now))) }
{
    for id in ids {
        places.push(Some(actors.place(id.actor.as_slice())))?;
        counters.push(Some(id.counter as i64))?;
    }
    Ok(())
}

impl IdWriter {
    ghost use Rattle.std.specs.Prelude.{◌≡◌, ◌+◌, ◌≤◌, ◌++◌, ◌∷◌, ◌^◌, [], Some, List, ℕ, All, length, take, drop, IfSome, IfNone, IsErr, OnOk};
    ghost use Rattle.am_types.specs.declared.OpId.{OpId};
    ghost use Rattle.am_types.specs.Fine.{IsId};
    ghost use Rattle.am_types.specs.Views.{id_of};
    ghost use Rattle.am_fields.specs.Held.{IdsHeld, IdsFit, IdsSpelled};
    ghost use Rattle.am_fields.specs.Rooms.{IsOpen, IsShort};

    /// No ids.
    pub fn new(alloc: Global) -> Self
        ensures { (actors : List (List ℕ)) → IdsHeld actors [] result }
    {
        IdWriter {
            places: NumberWriter::new(alloc),
            counters: DeltaWriter::new(alloc),
        }
    }

    /// Appends an id. The place of its actor is that among these actors. An error says that memory was wanted.
    pub fn push(&mut self, actors: &ListedActors<'_>, id: IdRef<'_>) -> Result<(), AllocError>
        requires places { IsOpen self.old.places }
        requires counters { IsOpen self.old.counters }
        requires id { IsId (id_of id) }
        ensures { OnOk result ((ids : List OpId) → IdsHeld actors.now ids self.old → IdsHeld actors.now (ids ++ id_of id.entry ∷ []) self.new) }
    {
        push_id(&mut self.places, &mut self.counters, actors, id)
    }

    /// Appends ids. An error says that memory was wanted.
    pub fn push_all(&mut self, actors: &ListedActors<'_>, ids: &[OpId]) -> Result<(), AllocError>
        requires places { IfSome self.old.places (λ xs. length xs + length ids.now ≤ 2 ^ 32) }
        requires counters { IfSome self.old.counters (λ xs. length xs + length ids.now ≤ 2 ^ 32) }
        requires ids { All IsId ids.now }
        ensures { OnOk result ((before : List OpId) → IdsHeld actors.now before self.old → IdsHeld actors.now (before ++ ids.now) self.new) }
    {
        push_ids(&mut self.places, &mut self.counters, actors, ids)
    }

    /// Takes the next n ids out of the columns, as that many pushes, by runs. The place of an actor is that among these
    /// actors. An error says that memory was wanted.
    pub fn take(
        &mut self,
        actors: &ListedActors<'_>,
        from: &mut IdColumns<'_>,
        n: u64,
    ) -> Result<(), AllocError>
        requires places { IfSome self.old.places (λ xs. length xs + n ≤ 2 ^ 32) }
        requires counters { IfSome self.old.counters (λ xs. length xs + n ≤ 2 ^ 32) }
        requires enough { n ≤ length from.old }
        ensures ids { OnOk result ((ids : List OpId) → IdsHeld actors.now ids self.old → IdsHeld actors.now (ids ++ take n from.old) self.new) }
        ensures behind { OnOk result (from.new ≡ drop n from.old) }
    {
        from.copy_to(&mut self.places, &mut self.counters, actors, n)
    }

    /// The column of places and that of counters, each in its one canonical spelling, into bytes that are there. An error
    /// says that memory was wanted, now or before by either writer; what writers and bytes have then isn't told. Else both
    /// are left with nothing pushed.
    pub fn finish(
        &mut self,
        alloc: Global,
        places: &mut Bytes,
        counters: &mut Bytes,
    ) -> Result<(), AllocError>
        requires { IsShort self.old.places }
        ensures failed_places { IfNone self.old.places (IsErr result) }
        ensures failed_counters { IfNone self.old.counters (IsErr result) }
        ensures ok { OnOk result ((actors : List (List ℕ)) (ids : List OpId) → IdsHeld actors ids self.old → IdsFit ids → IdsSpelled actors ids places.new counters.new) }
        ensures emptied { OnOk result ((self.new.places ≡ Some []) × (self.new.counters ≡ Some [])) }
    {
        finish_items(alloc, &mut self.places, places)?;
        finish_deltas(alloc, &mut self.counters, counters)?;
        Ok(())
    }
}
