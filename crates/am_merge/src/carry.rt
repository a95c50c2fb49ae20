//! The rows of the larger set: written from the old rows and the stops of the walk over them.
ghost use Rattle.std.specs.Prelude.{◌≡◌, ◌≤◌, ◌<◌, ◌∷◌, ◌++◌, [], List, Some, drop, length, map, slice_range, true, IfOk, IfSome, OnOk};
ghost use Rattle.std.specs.Ordering.{is_gt};
ghost use Rattle.am_types.specs.declared.OpId.{OpId};
ghost use Rattle.am_types.specs.Order.{id_cmp};
ghost use Rattle.am_types.specs.Rows as document;
ghost use Rattle.am_types.specs.Views.{id_of};
ghost use Rattle.am_places.specs.Numbered.{operation_of};
ghost use Rattle.am_colmeta.specs.Metadata.{metadata, listing, body};
ghost use Rattle.am_doccols.specs.Columns.{written_rows};
ghost use Rattle.am_doccols.specs.Conditions.{HasRoom, IsRowFor};
ghost use Rattle.am_doccols.specs.Rows.{row_of};
ghost use Rattle.am_merge.specs.Carrying.{CanCarry, extended_by, ids_of, is_less_first, taking};
ghost use Rattle.am_merge.specs.Merge.{merge};
ghost use Rattle.am_merge.specs.Naming.{named_of};
ghost use Rattle.am_merge.specs.Plans.{Take, carried};
ghost use Rattle.am_merge.specs.Stops.{copies, event_of, events_of};

use crate::naming::Naming;
use crate::stops::Stop;
use am_doccols::{RowCursor, RowGatherer, RowRef, SuccCursor};
use am_places::Numbered;
use am_types::{ActorId, Bytes, IdRef, compare_ids};
use std::alloc::{AllocError, Global};

// The ids of the operations go behind the others.
fn push_ids<'a>(ids: &mut Vec<IdRef<'a>>, added: &[Naming<'a>]) -> Result<(), AllocError>
    ensures { OnOk result (map id_of ids.new.items ≡ map id_of ids.old.items ++ ids_of added.now) }
{
    for i in 0..added.len() {
        let n = added[i];
        ids.push(n.operation.id())?;
    }
    Ok(())
}

// The ids of the operations, in place of what is there.
fn set_ids<'a>(ids: &mut Vec<IdRef<'a>>, added: &[Naming<'a>]) -> Result<(), AllocError>
    ensures { OnOk result (map id_of ids.new.items ≡ ids_of added.now) }
{
    ids.clear();
    push_ids(ids, added)?;
    Ok(())
}

// Whether the operation comes before an old successor.
fn comes_before(n: &Naming<'_>, old: IdRef<'_>) -> bool
    ensures { result ≡ is_gt (id_cmp (id_of old.entry) (named_of n.now).operation.id) }
{
    compare_ids(old, n.operation.id()).is_gt()
}

// Whether there is an operation at this place, and comes before an old successor.
fn is_less(added: &[Naming<'_>], at: usize, old: IdRef<'_>) -> bool
    ensures within { result ≡ true → at < length added.now }
    ensures less { result ≡ is_less_first (ids_of (drop at added.now)) (id_of old.entry) }
{
    let count = added.len();
    if count <= at {
        return false;
    }
    let n = added[at];
    comes_before(&n, old)
}

// Those that come before an old successor; the result tells up to which place.
fn push_less<'a>(
    ids: &mut Vec<IdRef<'a>>,
    added: &[Naming<'a>],
    from: usize,
    old: IdRef<'_>,
) -> Result<usize, AllocError>
    requires { from ≤ length added.now }
    ensures bound { IfOk result (λ to. to ≤ length added.now) }
    ensures pushed { IfOk result (λ to. (rest : List OpId) → map id_of ids.old.items ++ merge id_cmp (id_of old.entry ∷ rest) (ids_of (drop from added.now)) ≡ map id_of ids.new.items ++ (id_of old.entry ∷ merge id_cmp rest (ids_of (drop to added.now)))) }
{
    let mut at = from;
    'less: while is_less(added, at, old) {
        let n = added[at];
        ids.push(n.operation.id())?;
        at += 1;
    }
    Ok(at)
}

// Old successors, merged with those that are added.
fn merged<'a>(
    alloc: Global,
    old: SuccCursor<'a>,
    added: &[Naming<'a>],
) -> Result<Vec<IdRef<'a>>, AllocError>
    ensures { IfOk result (λ ids. map id_of ids.items ≡ merge id_cmp old.entry (ids_of added.now)) }
{
    let mut ids = Vec::new(alloc);
    let mut rest = old;
    let mut at = 0;
    'old: while let Some(id) = rest.next() {
        at = push_less(&mut ids, added, at, id)?;
        ids.push(id)?;
    }
    push_ids(&mut ids, &added[at..])?;
    Ok(ids)
}

// The row of a new operation. The list is there for its room.
fn put_row<'a>(
    room: &mut Vec<IdRef<'a>>,
    writer: &mut RowGatherer<'a>,
    x: &Numbered<'a>,
    added: &[Naming<'a>],
) -> Result<(), AllocError>
    requires row { IsRowFor writer.old.0 (document.row_of (ids_of added.now) (operation_of x.now)) }
    requires room { IfSome writer.old.1 (λ rows. HasRoom rows (ids_of added.now)) }
    ensures actors { writer.new.0 ≡ writer.old.0 }
    ensures ok { OnOk result (IfSome writer.old.1 (λ rows. writer.new.1 ≡ Some (rows ++ document.row_of (ids_of added.now) (operation_of x.now) ∷ []))) }
{
    set_ids(room, added)?;
    writer.push_op(x.id(), x.op, room.as_slice())?;
    Ok(())
}

// An old row, with more successors.
fn push_extended(
    alloc: Global,
    writer: &mut RowGatherer<'_>,
    row: RowRef<'_>,
    added: &[Naming<'_>],
) -> Result<(), AllocError>
    requires row { IsRowFor writer.old.0 (extended_by (row_of row) (ids_of added.now)) }
    requires room { IfSome writer.old.1 (λ rows. HasRoom rows (merge id_cmp row.succs (ids_of added.now))) }
    ensures actors { writer.new.0 ≡ writer.old.0 }
    ensures ok { OnOk result (IfSome writer.old.1 (λ rows. writer.new.1 ≡ Some (rows ++ extended_by (row_of row.entry) (ids_of added.now) ∷ []))) }
{
    let fields = row.fields();
    let succs = merged(alloc, row.succs, added)?;
    writer.push_apart(fields, succs.as_slice())?;
    Ok(())
}

// The next old row, with more successors.
fn extend_row(
    alloc: Global,
    writer: &mut RowGatherer<'_>,
    from: &mut RowCursor<'_>,
    added: &[Naming<'_>],
) -> Result<(), AllocError>
    requires { CanCarry writer.old.0 writer.old.1 (Take (ids_of added.now) ∷ []) from.old }
    ensures actors { writer.new.0 ≡ writer.old.0 }
    ensures ok { OnOk result (IfSome writer.old.1 (λ rows. writer.new.1 ≡ Some (rows ++ carried (Take (ids_of added.now) ∷ []) from.old))) }
    ensures behind { OnOk result (from.new ≡ drop 1 from.old) }
{
    match from.next() {
        Some(row) => {
            push_extended(alloc, writer, row, added)?;
            Ok(())
        }
        None => Ok(()),
    }
}

// The lesser of the two.
fn at_most(a: usize, most: usize) -> usize
    ensures within { a ≤ most → result ≡ a }
    ensures beyond { most ≤ a → result ≡ most }
{
    a.min(most)
}

// The successors that a stop adds: its range, as far as the table goes.
fn added_at<'t, 'a>(named: &'t [Naming<'a>], stop: &Stop<'_>) -> &'t [Naming<'a>]
    ensures { result.now ≡ slice_range named.now stop.now.first stop.now.last }
{
    let last = at_most(stop.last, named.len());
    let first = at_most(stop.first, last);
    &named[first..last]
}

// What happens at a stop.
fn at_stop<'a>(
    alloc: Global,
    writer: &mut RowGatherer<'a>,
    from: &mut RowCursor<'_>,
    named: &[Naming<'a>],
    stop: &Stop<'a>,
) -> Result<(), AllocError>
    requires { CanCarry writer.old.0 writer.old.1 (event_of named.now stop.now ∷ []) from.old }
    ensures actors { writer.new.0 ≡ writer.old.0 }
    ensures ok { OnOk result (IfSome writer.old.1 (λ rows. writer.new.1 ≡ Some (rows ++ carried (event_of named.now stop.now ∷ []) from.old))) }
    ensures behind { OnOk result (from.new ≡ drop (taking (event_of named.now stop.now ∷ [])) from.old) }
{
    let added = added_at(named, stop);
    match stop.put {
        Some(x) => {
            let mut room = Vec::new(alloc);
            put_row(&mut room, writer, &x, added)?;
            Ok(())
        }
        None => {
            extend_row(alloc, writer, from, added)?;
            Ok(())
        }
    }
}

// So many rows are copied.
fn copy_rows(
    writer: &mut RowGatherer<'_>,
    from: &mut RowCursor<'_>,
    n: u64,
) -> Result<(), AllocError>
    requires { CanCarry writer.old.0 writer.old.1 (copies n) from.old }
    ensures actors { writer.new.0 ≡ writer.old.0 }
    ensures ok { OnOk result (IfSome writer.old.1 (λ rows. writer.new.1 ≡ Some (rows ++ carried (copies n) from.old))) }
    ensures behind { OnOk result (from.new ≡ drop (taking (copies n)) from.old) }
{
    if n == 0 {
        return Ok(());
    }
    writer.take(from, n)?;
    Ok(())
}

// The rows up to a stop, and what happens there.
fn carry_to<'a>(
    alloc: Global,
    writer: &mut RowGatherer<'a>,
    from: &mut RowCursor<'_>,
    named: &[Naming<'a>],
    stop: &Stop<'a>,
) -> Result<(), AllocError>
    requires { CanCarry writer.old.0 writer.old.1 (copies stop.now.skip ++ event_of named.now stop.now ∷ []) from.old }
    ensures actors { writer.new.0 ≡ writer.old.0 }
    ensures ok { OnOk result (IfSome writer.old.1 (λ rows. writer.new.1 ≡ Some (rows ++ carried (copies stop.now.skip ++ event_of named.now stop.now ∷ []) from.old))) }
    ensures behind { OnOk result (from.new ≡ drop (taking (copies stop.now.skip ++ event_of named.now stop.now ∷ [])) from.old) }
{
    copy_rows(writer, from, stop.skip)?;
    at_stop(alloc, writer, from, named, stop)?;
    Ok(())
}

// The rows that the stops make of those of the cursor are written; behind the last stop, so many rows are copied.
fn carry_all<'a>(
    alloc: Global,
    writer: &mut RowGatherer<'a>,
    from: &mut RowCursor<'_>,
    named: &[Naming<'a>],
    stops: &[Stop<'a>],
    rest: u64,
) -> Result<(), AllocError>
    requires start { writer.old.1 ≡ Some [] }
    requires can { CanCarry writer.old.0 writer.old.1 (events_of named.now stops.now ++ copies rest) from.old }
    ensures actors { OnOk result (writer.new.0 ≡ writer.old.0) }
    ensures rows { OnOk result (writer.new.1 ≡ Some (carried (events_of named.now stops.now ++ copies rest) from.old)) }
{
    for i in 0..stops.len() {
        let stop = stops[i];
        carry_to(alloc, writer, from, named, &stop)?;
    }
    copy_rows(writer, from, rest)?;
    Ok(())
}

/// The metadata and the body of the columns of the rows that the stops make of those of the cursor; behind the last stop, so
/// many rows are copied. Places name these actors.
pub fn carried_text<'a>(
    alloc: Global,
    actors: &[ActorId],
    rows: &RowCursor<'_>,
    named: &[Naming<'a>],
    stops: &[Stop<'a>],
    rest: u64,
) -> Result<(Bytes, Bytes), AllocError>
    requires { CanCarry actors.now (Some []) (events_of named.now stops.now ++ copies rest) rows.now }
    ensures metadata { IfOk result (λ text. text.0 ≡ metadata (listing (written_rows actors.now (carried (events_of named.now stops.now ++ copies rest) rows.now)))) }
    ensures body { IfOk result (λ text. text.1 ≡ body (written_rows actors.now (carried (events_of named.now stops.now ++ copies rest) rows.now))) }
{
    let mut writer = RowGatherer::new(alloc, actors)?;
    let mut from = rows.again();
    // (no way out lets go of the writer, whose proof would take long)
    let all = carry_all(alloc, &mut writer, &mut from, named, stops, rest);
    let text = writer.finish();
    match all {
        Ok(()) => text,
        Err(fault) => Err(fault),
    }
}
