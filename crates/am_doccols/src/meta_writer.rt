//! Writing change rows to their columns.
ghost use Rattle.std.specs.Prelude.{◌≡◌, ◌≤◌, ◌++◌, ◌∷◌, [], Some, None, length, take, drop, IfOk, IfSome, IfNone, OnOk, OnErr, IsErr};
ghost use Rattle.std.specs.List.{AllByRecursion};
ghost use Rattle.am_colmeta.specs.Metadata.{metadata, listing, body};
ghost use Rattle.am_doccols.specs.Columns.{written_metas};
ghost use Rattle.am_doccols.specs.Conditions.{IsMetaFor, HasMetaRoom};
ghost use Rattle.am_doccols.specs.Front.{HasMetaRoomFor};
ghost use Rattle.am_doccols.specs.Lent.{meta_with};
ghost use Rattle.am_doccols.specs.Metas.{meta_of};

use crate::lent::{MetaFields, meta_fields_of};
use crate::meta::MetaRef;
use crate::meta_columns::{MetaColumns, message_in, number_in, push_places, read_places, time_in};
use crate::meta_finished::meta_columns_in;
use crate::metas::MetaCursor;
use crate::row_writer::actors_in;
use am_delta::DeltaWriter;
use am_fields::{NumberWriter, OwnedActors, TextWriter, columns_of};
use am_types::{ActorId, Bytes, Meta, ValueRef, kinds};
use am_values::ValueWriter;
use std::alloc::{AllocError, Global};
use std::marker::Model;

/// Writes change rows to columns whose places name a list of actors. A contract sees the actors, and the change rows that
/// were pushed, or None once memory was wanted: it is wanted from then on.
#[derive(Drop)]
pub struct MetaWriter {
    actors: OwnedActors,
    columns: MetaColumns,
    failed: bool,
    alloc: Global,
}

impl Model for MetaWriter {
    ghost use Rattle.std.specs.Prelude.{List, ℕ, Option};
    ghost use Rattle.am_types.specs.declared.Meta.{Meta};

    ghost Value = { List (List ℕ) × Option (List Meta) };

    ghost use Rattle.am_doccols.specs.MetaWriting.{metas_written, IsWritingMetas};

    ghost view = { λ w. (w.actors, metas_written w.failed w.actors w.columns) };

    ghost invariant = { λ w. IsWritingMetas w.failed w.actors w.columns };
}

impl MetaWriter {
    /// No change rows, and the actors that the places name.
    pub fn new(alloc: Global, actors: &[ActorId]) -> Result<Self, AllocError>
        ensures actors { IfOk result (λ w. w.0 ≡ actors.now) }
        ensures metas { IfOk result (λ w. w.1 ≡ Some []) }
    {
        let actors = actors_in(alloc, actors)?;
        Ok(MetaWriter {
            actors,
            columns: MetaColumns {
                actor: NumberWriter::new(alloc),
                seq: DeltaWriter::new(alloc),
                max: DeltaWriter::new(alloc),
                time: DeltaWriter::new(alloc),
                message: TextWriter::new(alloc),
                lengths: NumberWriter::new(alloc),
                deps: DeltaWriter::new(alloc),
                extra: ValueWriter::new(alloc),
            },
            failed: false,
            alloc,
        })
    }

    /// Appends the change row.
    pub fn push(&mut self, meta: &Meta) -> Result<(), AllocError>
        requires meta { IsMetaFor self.old.0 meta.now }
        requires room { IfSome self.old.1 (λ metas. HasMetaRoom metas meta.now.deps) }
        ensures actors { self.new.0 ≡ self.old.0 }
        ensures failed { IfNone self.old.1 ((self.new.1 ≡ None) × IsErr result) }
        ensures ok { OnOk result (IfSome self.old.1 (λ metas. self.new.1 ≡ Some (metas ++ meta.now ∷ []))) }
        ensures err { OnErr result (self.new.1 ≡ None) }
    {
        self.push_lent(meta_fields_of(meta), meta.deps.as_slice())
    }

    /// Appends the change row with these fields and dependencies, all lent.
    pub fn push_lent(&mut self, meta: MetaFields<'_>, deps: &[u64]) -> Result<(), AllocError>
        requires meta { IsMetaFor self.old.0 (meta_with meta deps.now) }
        requires room { IfSome self.old.1 (λ metas. HasMetaRoom metas deps.now) }
        ensures actors { self.new.0 ≡ self.old.0 }
        ensures failed { IfNone self.old.1 ((self.new.1 ≡ None) × IsErr result) }
        ensures ok { OnOk result (IfSome self.old.1 (λ metas. self.new.1 ≡ Some (metas ++ meta_with meta.entry deps.now ∷ []))) }
        ensures err { OnErr result (self.new.1 ≡ None) }
    {
        if self.failed {
            return Err(AllocError);
        }
        self.failed = true;
        let place = self.actors.lend().place(meta.actor);
        let extra = ValueRef {
            kind: kinds::BYTES,
            raw: meta.extra,
        };
        self.columns.actor.push(Some(place))?;
        self.columns.seq.push(number_in(meta.seq))?;
        self.columns.max.push(number_in(meta.max))?;
        self.columns.time.push(time_in(meta))?;
        self.columns.message.push(message_in(meta.message))?;
        self.columns.lengths.push(Some(deps.len() as u64))?;
        push_places(&mut self.columns.deps, deps)?;
        self.columns.extra.push(extra)?;
        self.failed = false;
        Ok(())
    }

    // Appends the change row as a cursor lends it. The places of its dependencies go by way of the list.
    fn push_read(&mut self, meta: MetaRef<'_>, places: &mut Vec<u64>) -> Result<(), AllocError>
        requires meta { IsMetaFor self.old.0 (meta_of meta) }
        requires room { IfSome self.old.1 (λ metas. HasMetaRoom metas meta.deps) }
        ensures actors { self.new.0 ≡ self.old.0 }
        ensures failed { IfNone self.old.1 (self.new.1 ≡ None) }
        ensures ok { OnOk result (IfSome self.old.1 (λ metas. self.new.1 ≡ Some (metas ++ meta_of meta.entry ∷ []))) }
        ensures err { OnErr result (self.new.1 ≡ None) }
    {
        let fields = meta.fields();
        match read_places(places, meta.deps) {
            Ok(()) => self.push_lent(fields, places.as_slice()),
            Err(fault) => {
                self.failed = true;
                Err(fault)
            }
        }
    }

    // Takes the next n change rows out of the cursor, one by one.
    fn take_each(
        &mut self,
        from: &mut MetaCursor<'_>,
        n: u64,
        places: &mut Vec<u64>,
    ) -> Result<(), AllocError>
        requires enough { n ≤ length from.old }
        requires metas { AllByRecursion (IsMetaFor self.old.0) (take n from.old) }
        requires room { IfSome self.old.1 (λ metas. HasMetaRoomFor metas (take n from.old)) }
        ensures actors { self.new.0 ≡ self.old.0 }
        ensures failed { IfNone self.old.1 (self.new.1 ≡ None) }
        ensures ok { OnOk result (IfSome self.old.1 (λ metas. self.new.1 ≡ Some (metas ++ take n from.old))) }
        ensures behind { OnOk result (from.new ≡ drop n from.old) }
        ensures err { OnErr result (self.new.1 ≡ None) }
    {
        for _taken in 0..n {
            let Some(meta) = from.next() else {
                unreachable!();
            };
            self.push_read(meta, places)?;
        }
        Ok(())
    }

    /// Takes the next n change rows out of the cursor, as that many pushes. The places of their dependencies stay as they
    /// are.
    pub fn take(&mut self, from: &mut MetaCursor<'_>, n: u64) -> Result<(), AllocError>
        requires enough { n ≤ length from.old }
        requires metas { AllByRecursion (IsMetaFor self.old.0) (take n from.old) }
        requires room { IfSome self.old.1 (λ metas. HasMetaRoomFor metas (take n from.old)) }
        ensures actors { self.new.0 ≡ self.old.0 }
        ensures failed { IfNone self.old.1 ((self.new.1 ≡ None) × IsErr result) }
        ensures ok { OnOk result (IfSome self.old.1 (λ metas. self.new.1 ≡ Some (metas ++ take n from.old))) }
        ensures behind { OnOk result (from.new ≡ drop n from.old) }
        ensures err { OnErr result (self.new.1 ≡ None) }
    {
        if self.failed {
            return Err(AllocError);
        }
        let mut places = Vec::new(self.alloc);
        self.take_each(from, n, &mut places)
    }

    /// The metadata and the body of the change rows' columns, each in its one canonical spelling.
    pub fn finish(self) -> Result<(Bytes, Bytes), AllocError>
        ensures failed { IfNone self.1 (IsErr result) }
        ensures metadata { IfOk result (λ text. IfSome self.1 (λ metas. text.0 ≡ metadata (listing (written_metas self.0 metas)))) }
        ensures body { IfOk result (λ text. IfSome self.1 (λ metas. text.1 ≡ body (written_metas self.0 metas))) }
    {
        if self.failed {
            return Err(AllocError);
        }
        let alloc = self.alloc;
        let columns = meta_columns_in(alloc, self.columns)?;
        columns_of(alloc, &columns)
    }
}
