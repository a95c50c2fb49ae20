//! Writing rows that are gathered: one column after another. Values, the counters of keys and of ids, and successors are
//! pushed one by one, all else by the rows that are alike.
ghost use Rattle.std.specs.Prelude.{◌≡◌, ◌+◌, ◌≤◌, ◌^◌, ◌++◌, List, Some, All, map, length, IfSome, OnOk};
ghost use Rattle.am_types.specs.declared.OpId.{OpId};
ghost use Rattle.am_types.specs.Fine.{IsId, IsKey};
ghost use Rattle.am_types.specs.Values.{Good};
ghost use Rattle.am_types.specs.Views.{id_of};
ghost use Rattle.am_fields.specs.Held.{FieldLists, FieldsHeld, IdsHeld};
ghost use Rattle.am_fields.specs.Layout.{id_counter, key_counter as counter_of_key};
ghost use Rattle.am_fields.specs.Rooms.{FieldsHaveRoomFor};
ghost use Rattle.am_doccols.specs.Front.{Takes, AreOpenFor};
ghost use Rattle.am_doccols.specs.Gathered.{AreGiven, rows_given, with_gathered};

use crate::gathered::GatheredRow;
use crate::gathered_columns::{
    Actions, Expands, IdPlaces, Inserts, KeyNames, KeyPlaces, Marks, ObjectCounters, ObjectPlaces,
    SuccCounts,
};
use crate::row_column::push_column;
use crate::row_writer::push_lent_ids;
use am_delta::DeltaWriter;
use am_fields::{FieldWriter, IdWriter, ListedActors, NumberWriter, key_counter};
use am_types::IdRef;
use am_values::ValueWriter;
use std::alloc::AllocError;

// Appends the counters of the keys.
fn push_key_counters(to: &mut DeltaWriter, rows: &[GatheredRow<'_>]) -> Result<(), AllocError>
    requires room { IfSome to.old (λ xs. length xs + length rows.now ≤ 2 ^ 32) }
    requires keys { All (λ g. IsKey g.op.now.key) rows.now }
    ensures { OnOk result (IfSome to.old (λ xs. to.new ≡ Some (xs ++ map (λ g. counter_of_key g.op.now.key) rows.now))) }
{
    for row in rows {
        to.push(key_counter(row.op.key.lend()))?;
    }
    Ok(())
}

// Appends the values.
fn push_values(to: &mut ValueWriter, rows: &[GatheredRow<'_>]) -> Result<(), AllocError>
    requires room { IfSome to.old (λ xs. length xs + length rows.now ≤ 2 ^ 32) }
    requires values { All (λ g. Good g.op.now.value) rows.now }
    ensures { OnOk result (IfSome to.old (λ xs. to.new ≡ Some (xs ++ map (λ g. g.op.now.value) rows.now))) }
{
    for row in rows {
        to.push(row.op.value.lend())?;
    }
    Ok(())
}

// Appends the counters of the ids.
fn push_id_counters(to: &mut DeltaWriter, rows: &[GatheredRow<'_>]) -> Result<(), AllocError>
    requires room { IfSome to.old (λ xs. length xs + length rows.now ≤ 2 ^ 32) }
    requires ids { All (λ g. IsId (id_of g.id)) rows.now }
    ensures { OnOk result (IfSome to.old (λ xs. to.new ≡ Some (xs ++ map (λ g. id_counter (id_of g.id)) rows.now))) }
{
    for row in rows {
        to.push(Some(row.id.counter as i64))?;
    }
    Ok(())
}

// Appends the common fields.
fn push_fields(
    fields: &mut FieldWriter,
    actors: &ListedActors<'_>,
    rows: &[GatheredRow<'_>],
) -> Result<(), AllocError>
    requires room { FieldsHaveRoomFor (length rows.now) fields.old }
    requires keys { All (λ g. IsKey g.op.now.key) rows.now }
    requires values { All (λ g. Good g.op.now.value) rows.now }
    ensures { OnOk result ((x : FieldLists) → FieldsHeld actors.now x fields.old → FieldsHeld actors.now (with_gathered x rows.now) fields.new) }
{
    push_column::<ObjectPlaces>(&mut fields.object_actor, actors, rows)?;
    push_column::<ObjectCounters>(&mut fields.object_counter, actors, rows)?;
    push_column::<KeyPlaces>(&mut fields.key_actor, actors, rows)?;
    push_key_counters(&mut fields.key_counter, rows)?;
    push_column::<KeyNames>(&mut fields.key_name, actors, rows)?;
    push_column::<Inserts>(&mut fields.insert, actors, rows)?;
    push_column::<Actions>(&mut fields.action, actors, rows)?;
    push_values(&mut fields.value, rows)?;
    push_column::<Expands>(&mut fields.expand, actors, rows)?;
    push_column::<Marks>(&mut fields.mark, actors, rows)?;
    Ok(())
}

// Appends the ids.
fn push_ids(
    ids: &mut IdWriter,
    actors: &ListedActors<'_>,
    rows: &[GatheredRow<'_>],
) -> Result<(), AllocError>
    requires places { IfSome ids.old.places (λ xs. length xs + length rows.now ≤ 2 ^ 32) }
    requires counters { IfSome ids.old.counters (λ xs. length xs + length rows.now ≤ 2 ^ 32) }
    requires ids { All (λ g. IsId (id_of g.id)) rows.now }
    ensures { OnOk result ((before : List OpId) → IdsHeld actors.now before ids.old → IdsHeld actors.now (before ++ map (λ g. id_of g.id) rows.now) ids.new) }
{
    push_column::<IdPlaces>(&mut ids.places, actors, rows)?;
    push_id_counters(&mut ids.counters, rows)?;
    Ok(())
}

/// Appends the rows, each with as many of the successors as it has, to the writers of their columns.
pub fn push_rows(
    fields: &mut FieldWriter,
    ids: &mut IdWriter,
    lengths: &mut NumberWriter,
    succs: &mut IdWriter,
    actors: &ListedActors<'_>,
    rows: &[GatheredRow<'_>],
    added: &[IdRef<'_>],
) -> Result<(), AllocError>
    requires given { AreGiven actors.now rows.now (map id_of added.now) }
    requires room { AreOpenFor (length rows.now) (length added.now) fields.old ids.old lengths.old succs.old }
    ensures { OnOk result (Takes actors.now (rows_given rows.now (map id_of added.now)) fields.old ids.old lengths.old succs.old fields.new ids.new lengths.new succs.new) }
{
    push_fields(fields, actors, rows)?;
    push_ids(ids, actors, rows)?;
    push_column::<SuccCounts>(lengths, actors, rows)?;
    push_lent_ids(&mut succs.places, &mut succs.counters, actors, added)?;
    Ok(())
}
