//! Writing rows to their columns.
ghost use Rattle.std.specs.Prelude.{◌≡◌, All, ◌+◌, ◌≤◌, ◌^◌, ◌++◌, ◌∷◌, [], Some, None, map, option_map, length, take, drop, IfOk, IfSome, IfNone, OnOk, OnErr, IsErr};
ghost use Rattle.am_types.specs.Fine.{IsId};
ghost use Rattle.am_types.specs.Views.{id_of};
ghost use Rattle.am_fields.specs.Columns.{place_of};
ghost use Rattle.am_fields.specs.Layout.{id_actor, id_counter};
ghost use Rattle.am_colmeta.specs.Metadata.{metadata, listing, body};
ghost use Rattle.am_doccols.specs.Columns.{written_rows};
ghost use Rattle.am_doccols.specs.Conditions.{IsRowFor, HasRoom};
ghost use Rattle.am_doccols.specs.Front.{HasRoomFor};
ghost use Rattle.am_doccols.specs.Gathered.{AreGiven, rows_given};
ghost use Rattle.std.specs.List.{AllByRecursion};
ghost use Rattle.am_doccols.specs.Lent.{row_with};

use crate::finished::columns_in;
use crate::gathered::GatheredRow;
use crate::gathered_writing::push_rows;
use crate::lent::RowFields;
use crate::rows::RowCursor;
use am_delta::DeltaWriter;
use am_fields::{
    FieldWriter, Fields, IdWriter, ListedActors, NumberWriter, OwnedActors, columns_of,
};
use am_types::{ActorId, Bytes, IdRef, List, OpId, Twin};
use std::alloc::{AllocError, Global};
use std::marker::Model;

/// Writes rows to columns whose places name a list of actors. A contract sees the actors, and the rows that were pushed,
/// or None once memory was wanted: it is wanted from then on.
#[derive(Drop)]
pub struct RowWriter {
    actors: OwnedActors,
    fields: FieldWriter,
    ids: IdWriter,
    lengths: NumberWriter,
    succs: IdWriter,
    failed: bool,
    alloc: Global,
}

impl Model for RowWriter {
    ghost use Rattle.std.specs.Prelude.{List, ℕ, Option};
    ghost use Rattle.am_types.specs.declared.Row.{Row};

    ghost Value = { List (List ℕ) × Option (List Row) };

    ghost use Rattle.am_doccols.specs.Writing.{rows_written, IsWritingRows};

    ghost view = { λ w. (w.actors, rows_written w.failed w.actors w.fields w.ids w.lengths w.succs) };

    ghost invariant = { λ w. IsWritingRows w.failed w.actors w.fields w.ids w.lengths w.succs };
}

// Copies actors.
pub fn actors_in(alloc: Global, actors: &[ActorId]) -> Result<OwnedActors, AllocError>
    ensures { IfOk result (λ copied. copied ≡ actors.now) }
{
    let mut copied = List::new(alloc);
    for actor in actors {
        copied.push(actor.copy(alloc)?)?;
    }
    Ok(OwnedActors::of(copied))
}

/// Appends ids that are lent to the columns of places and of counters. An error says that memory was wanted.
pub fn push_lent_ids(
    places: &mut NumberWriter,
    counters: &mut DeltaWriter,
    actors: &ListedActors<'_>,
    ids: &[IdRef<'_>],
) -> Result<(), AllocError>
    requires places { IfSome places.old (λ xs. length xs + length ids.now ≤ 2 ^ 32) }
    requires counters { IfSome counters.old (λ xs. length xs + length ids.now ≤ 2 ^ 32) }
    requires ids { All (λ i. IsId (id_of i)) ids.now }
    ensures places { OnOk result (IfSome places.old (λ xs. places.new ≡ Some (xs ++ map (option_map (place_of actors.now)) (map (λ i. id_actor (id_of i)) ids.now)))) }
    ensures counters { OnOk result (IfSome counters.old (λ xs. counters.new ≡ Some (xs ++ map (λ i. id_counter (id_of i)) ids.now))) }
{
    for id in ids {
        places.push(Some(actors.place(id.actor)))?;
        counters.push(Some(id.counter as i64))?;
    }
    Ok(())
}

impl RowWriter {
    /// No rows, and the actors that the places name.
    pub fn new(alloc: Global, actors: &[ActorId]) -> Result<Self, AllocError>
        ensures actors { IfOk result (λ w. w.0 ≡ actors.now) }
        ensures rows { IfOk result (λ w. w.1 ≡ Some []) }
    {
        let actors = actors_in(alloc, actors)?;
        Ok(RowWriter {
            actors,
            fields: FieldWriter::new(alloc),
            ids: IdWriter::new(alloc),
            lengths: NumberWriter::new(alloc),
            succs: IdWriter::new(alloc),
            failed: false,
            alloc,
        })
    }

    /// Appends the row with these fields and successors.
    pub fn push(&mut self, row: RowFields<'_>, succs: &[OpId]) -> Result<(), AllocError>
        requires row { IsRowFor self.old.0 (row_with row succs.now) }
        requires room { IfSome self.old.1 (λ rows. HasRoom rows succs.now) }
        ensures actors { self.new.0 ≡ self.old.0 }
        ensures failed { IfNone self.old.1 ((self.new.1 ≡ None) × IsErr result) }
        ensures ok { OnOk result (IfSome self.old.1 (λ rows. self.new.1 ≡ Some (rows ++ row_with row.entry succs.now ∷ []))) }
        ensures err { OnErr result (self.new.1 ≡ None) }
    {
        if self.failed {
            return Err(AllocError);
        }
        self.failed = true;
        let actors = self.actors.lend();
        let fields = Fields {
            obj: row.obj,
            key: row.key,
            insert: row.insert,
            action: row.action,
            value: row.value,
            expand: row.expand,
            mark: row.mark,
        };
        self.fields.push(&actors, fields)?;
        self.ids.push(&actors, row.id)?;
        self.lengths.push(Some(succs.len() as u64))?;
        self.succs.push_all(&actors, succs)?;
        self.failed = false;
        Ok(())
    }

    /// Appends the row with these fields and successors, all lent.
    pub fn push_lent(&mut self, row: RowFields<'_>, succs: &[IdRef<'_>]) -> Result<(), AllocError>
        requires row { IsRowFor self.old.0 (row_with row (map id_of succs.now)) }
        requires room { IfSome self.old.1 (λ rows. HasRoom rows (map id_of succs.now)) }
        ensures actors { self.new.0 ≡ self.old.0 }
        ensures failed { IfNone self.old.1 ((self.new.1 ≡ None) × IsErr result) }
        ensures ok { OnOk result (IfSome self.old.1 (λ rows. self.new.1 ≡ Some (rows ++ row_with row.entry (map id_of succs.now) ∷ []))) }
        ensures err { OnErr result (self.new.1 ≡ None) }
    {
        if self.failed {
            return Err(AllocError);
        }
        self.failed = true;
        let actors = self.actors.lend();
        let fields = Fields {
            obj: row.obj,
            key: row.key,
            insert: row.insert,
            action: row.action,
            value: row.value,
            expand: row.expand,
            mark: row.mark,
        };
        self.fields.push(&actors, fields)?;
        self.ids.push(&actors, row.id)?;
        self.lengths.push(Some(succs.len() as u64))?;
        push_lent_ids(
            &mut self.succs.places,
            &mut self.succs.counters,
            &actors,
            succs,
        )?;
        self.failed = false;
        Ok(())
    }

    /// Appends the rows, each with as many of the ids as successors as it has, as that many pushes: one column after another,
    /// most of them by the rows that are alike there.
    pub(crate) fn push_all(
        &mut self,
        rows: &[GatheredRow<'_>],
        succs: &[IdRef<'_>],
    ) -> Result<(), AllocError>
        requires given { AreGiven self.old.0 rows.now (map id_of succs.now) }
        requires room { IfSome self.old.1 (λ written. HasRoomFor written (rows_given rows.now (map id_of succs.now))) }
        ensures actors { self.new.0 ≡ self.old.0 }
        ensures failed { IfNone self.old.1 ((self.new.1 ≡ None) × IsErr result) }
        ensures ok { OnOk result (IfSome self.old.1 (λ written. self.new.1 ≡ Some (written ++ rows_given rows.now (map id_of succs.now)))) }
        ensures err { OnErr result (self.new.1 ≡ None) }
    {
        if self.failed {
            return Err(AllocError);
        }
        self.failed = true;
        push_rows(
            &mut self.fields,
            &mut self.ids,
            &mut self.lengths,
            &mut self.succs,
            &self.actors.lend(),
            rows,
            succs,
        )?;
        self.failed = false;
        Ok(())
    }

    /// Takes the next n rows out of the cursor, as that many pushes, by runs: a long stretch of equal fields costs few
    /// steps.
    pub fn take(&mut self, from: &mut RowCursor<'_>, n: u64) -> Result<(), AllocError>
        requires enough { n ≤ length from.old }
        requires rows { AllByRecursion (IsRowFor self.old.0) (take n from.old) }
        requires room { IfSome self.old.1 (λ rows. HasRoomFor rows (take n from.old)) }
        ensures actors { self.new.0 ≡ self.old.0 }
        ensures failed { IfNone self.old.1 ((self.new.1 ≡ None) × IsErr result) }
        ensures ok { OnOk result (IfSome self.old.1 (λ rows. self.new.1 ≡ Some (rows ++ take n from.old))) }
        ensures behind { OnOk result (from.new ≡ drop n from.old) }
        ensures err { OnErr result (self.new.1 ≡ None) }
    {
        if self.failed {
            return Err(AllocError);
        }
        self.failed = true;
        from.copy_to(
            &mut self.fields,
            &mut self.ids,
            &mut self.lengths,
            &mut self.succs,
            &self.actors.lend(),
            n,
        )?;
        self.failed = false;
        Ok(())
    }

    /// The metadata and the body of the rows' columns, each in its one canonical spelling.
    pub fn finish(self) -> Result<(Bytes, Bytes), AllocError>
        ensures failed { IfNone self.1 (IsErr result) }
        ensures metadata { IfOk result (λ text. IfSome self.1 (λ rows. text.0 ≡ metadata (listing (written_rows self.0 rows)))) }
        ensures body { IfOk result (λ text. IfSome self.1 (λ rows. text.1 ≡ body (written_rows self.0 rows))) }
    {
        if self.failed {
            return Err(AllocError);
        }
        let alloc = self.alloc;
        let columns = columns_in(alloc, self.fields, self.ids, self.lengths, self.succs)?;
        columns_of(alloc, &columns)
    }
}
