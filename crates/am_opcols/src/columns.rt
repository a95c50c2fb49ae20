//! The bytes of each column of operations.
ghost use Rattle.std.specs.Prelude.{◌≡◌, ◌≤◌, ◌++◌, All, length, map, option_map, IfOk, IfSome, OnOk};
ghost use Rattle.am_types.specs.Fine.{IsId, IsKey, FineOp, pred_count};
ghost use Rattle.am_types.specs.Views.{id_of, key_of};
ghost use Rattle.am_types.specs.Limits.{most_operations};
ghost use Rattle.am_delta.specs.Deltas.{IsMiddling, canonical_delta_bytes};
ghost use Rattle.am_flags.specs.Flags.{canonical_bytes as flag_bytes, canonical_maybe_bytes};
ghost use Rattle.am_values.specs.Columns.{joined};
ghost use Rattle.am_fields.specs.Columns.{numbers_bytes, place_of, texts_bytes};
ghost use Rattle.am_fields.specs.Layout.{id_actor, id_counter, key_counter as counter_of_key, key_string, flat};

use crate::cells::Cell;
use crate::counting::count_text;
use am_delta::DeltaList;
use am_fields::{ListedActors, TextWriter, key_name};
use am_flags::FlagWriter;
use am_runs::{UnsignedItem, push_list};
use am_types::{Bytes, IdRef, KeyRef, ReadOp};
use std::alloc::{AllocError, Global};

/// Appends the column of such numbers, which stand in the room until they are written.
pub fn push_numbers<C: Cell, O: ReadOp>(
    out: &mut Vec<u8>,
    room: &mut Vec<Option<u64>>,
    actors: &ListedActors<'_>,
    ops: &[O],
) -> Result<(), AllocError>
    requires fine { All FineOp (map O.op ops.now) }
    requires few { length ops.now ≤ most_operations }
    ensures { OnOk result (out.new.items ≡ out.old.items ++ numbers_bytes (map (C.cell actors.now) (map O.op ops.now))) }
{
    room.clear();
    for op in ops {
        room.push(C::of(actors, op))?;
    }
    push_list::<u64, UnsignedItem>(out, room.as_slice())
}

// The counter of an id.
fn counter_in(id: IdRef<'_>) -> Option<i64>
    requires { IsId (id_of id) }
    ensures value { result ≡ id_counter (id_of id.entry) }
    ensures small { IfSome result IsMiddling }
{
    Some(id.counter as i64)
}

// The counter of a key.
fn key_counter(key: KeyRef<'_>) -> Option<i64>
    requires { IsKey (key_of key) }
    ensures value { result ≡ counter_of_key (key_of key.entry) }
    ensures small { IfSome result IsMiddling }
{
    match key {
        KeyRef::Name(_) => None,
        KeyRef::Head => Some(0),
        KeyRef::Elem(id) => counter_in(id),
    }
}

/// Appends the column of the counters of keys, which stand in the room until they are written.
pub fn push_key_counters<O: ReadOp>(
    out: &mut Vec<u8>,
    room: &mut DeltaList,
    ops: &[O],
) -> Result<(), AllocError>
    requires fine { All FineOp (map O.op ops.now) }
    requires few { length ops.now ≤ most_operations }
    ensures { OnOk result (out.new.items ≡ out.old.items ++ canonical_delta_bytes (map (λ o. counter_of_key o.key) (map O.op ops.now))) }
{
    room.clear();
    for op in ops {
        room.push(key_counter(op.key()))?;
    }
    room.push_to(out)
}

/// The column of the names of keys.
pub fn key_names_in<O: ReadOp>(alloc: Global, ops: &[O]) -> Result<Bytes, AllocError>
    requires { length ops.now ≤ most_operations }
    ensures { IfOk result (λ bytes. bytes ≡ texts_bytes (map (λ o. key_string o.key) (map O.op ops.now))) }
{
    let mut writer = TextWriter::new(alloc);
    let mut nulls = 0;
    for op in ops {
        let name = key_name(op.key());
        count_text(&mut writer, &mut nulls, name)?;
    }
    writer.push_alike(None, nulls)?;
    writer.finish()
}

/// The column of the names of marks.
pub fn marks_in<O: ReadOp>(alloc: Global, ops: &[O]) -> Result<Bytes, AllocError>
    requires { length ops.now ≤ most_operations }
    ensures { IfOk result (λ bytes. bytes ≡ texts_bytes (map (λ o. o.mark) (map O.op ops.now))) }
{
    let mut writer = TextWriter::new(alloc);
    let mut nulls = 0;
    for op in ops {
        let mark = op.mark();
        count_text(&mut writer, &mut nulls, mark)?;
    }
    writer.push_alike(None, nulls)?;
    writer.finish()
}

/// The column that tells which operations insert.
pub fn inserts_in<O: ReadOp>(alloc: Global, ops: &[O]) -> Result<Bytes, AllocError>
    requires { length ops.now ≤ most_operations }
    ensures { IfOk result (λ bytes. bytes ≡ flag_bytes (map (λ o. o.insert) (map O.op ops.now))) }
{
    let mut writer = FlagWriter::new(alloc);
    for op in ops {
        writer.push(op.insert())?;
    }
    writer.finish_plain()
}

/// The column that tells which marks expand.
pub fn expands_in<O: ReadOp>(alloc: Global, ops: &[O]) -> Result<Bytes, AllocError>
    requires { length ops.now ≤ most_operations }
    ensures { IfOk result (λ bytes. bytes ≡ canonical_maybe_bytes (map (λ o. o.expand) (map O.op ops.now))) }
{
    let mut writer = FlagWriter::new(alloc);
    for op in ops {
        writer.push(op.expand())?;
    }
    writer.finish_maybe()
}

/// Appends the bytes of the values.
pub fn push_raw<O: ReadOp>(out: &mut Vec<u8>, ops: &[O]) -> Result<(), AllocError>
    ensures { OnOk result (out.new.items ≡ out.old.items ++ joined (map (λ o. o.value) (map O.op ops.now))) }
{
    for op in ops {
        out.extend_from_slice(op.value().raw)?;
    }
    Ok(())
}

// Puts the places of the actors of an operation's predecessors behind others.
fn push_places<O: ReadOp>(
    room: &mut Vec<Option<u64>>,
    actors: &ListedActors<'_>,
    op: &O,
) -> Result<(), AllocError>
    ensures { OnOk result (room.new.items ≡ room.old.items ++ map (option_map (place_of actors.now)) (map id_actor (O.op op.now).preds)) }
{
    for i in 0..op.pred_count() {
        room.push(Some(actors.place(op.pred(i).actor)))?;
    }
    Ok(())
}

// Puts the counters of an operation's predecessors behind others.
fn push_counters<O: ReadOp>(room: &mut DeltaList, op: &O) -> Result<(), AllocError>
    requires { FineOp (O.op op.now) }
    ensures { OnOk result (room.new ≡ room.old ++ map id_counter (O.op op.now).preds) }
{
    for i in 0..op.pred_count() {
        room.push(counter_in(op.pred(i)))?;
    }
    Ok(())
}

/// Appends the column of the actors of predecessors, whose places stand in the room until they are written.
pub fn push_pred_actors<O: ReadOp>(
    out: &mut Vec<u8>,
    room: &mut Vec<Option<u64>>,
    actors: &ListedActors<'_>,
    ops: &[O],
) -> Result<(), AllocError>
    requires few { pred_count (map O.op ops.now) ≤ most_operations }
    ensures { OnOk result (out.new.items ≡ out.old.items ++ numbers_bytes (map (option_map (place_of actors.now)) (map id_actor (flat (map (λ o. o.preds) (map O.op ops.now)))))) }
{
    room.clear();
    for op in ops {
        push_places(room, actors, op)?;
    }
    push_list::<u64, UnsignedItem>(out, room.as_slice())
}

/// Appends the column of the counters of predecessors, which stand in the room until they are written.
pub fn push_pred_counters<O: ReadOp>(
    out: &mut Vec<u8>,
    room: &mut DeltaList,
    ops: &[O],
) -> Result<(), AllocError>
    requires fine { All FineOp (map O.op ops.now) }
    requires few { pred_count (map O.op ops.now) ≤ most_operations }
    ensures { OnOk result (out.new.items ≡ out.old.items ++ canonical_delta_bytes (map id_counter (flat (map (λ o. o.preds) (map O.op ops.now))))) }
{
    room.clear();
    for op in ops {
        push_counters(room, op)?;
    }
    room.push_to(out)
}
