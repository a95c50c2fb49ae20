//! Writing the fields that operations and rows have in common.

use crate::field_columns::FieldColumns;
use crate::finishing::{finish_deltas, finish_items, finish_maybe, finish_plain, finish_values};
use crate::listed::ListedActors;
use crate::number_writer::NumberWriter;
use crate::places::{key_counter, key_name, key_place, object_counter, object_place};
use crate::text_writer::TextWriter;
use am_delta::DeltaWriter;
use am_flags::FlagWriter;
use am_types::{Bytes, KeyRef, ObjRef, ValueRef};
use am_values::ValueWriter;
use std::alloc::{AllocError, Global};

/// The fields that operations and rows have in common, lent.
#[derive(Clone, Copy)]
pub struct Fields<'a> {
    pub obj: ObjRef<'a>,
    pub key: KeyRef<'a>,
    pub insert: bool,
    /// 0 makeMap, 1 set, 2 makeList, 3 del, 4 makeText, 5 inc, 6 makeTable, 7 mark.
    pub action: u8,
    pub value: ValueRef<'a>,
    pub expand: bool,
    /// The mark's name, if there is one.
    pub mark: Option<&'a str>,
}

/// The writers of their columns.
#[derive(Drop)]
pub struct FieldWriter {
    pub object_actor: NumberWriter,
    pub object_counter: NumberWriter,
    pub key_actor: NumberWriter,
    pub key_counter: DeltaWriter,
    pub key_name: TextWriter,
    pub insert: FlagWriter,
    pub action: NumberWriter,
    pub value: ValueWriter,
    pub expand: FlagWriter,
    pub mark: TextWriter,
}

/// The bytes of their columns.
#[derive(Drop)]
pub struct FieldText {
    pub object_actor: Bytes,
    pub object_counter: Bytes,
    pub key_actor: Bytes,
    pub key_counter: Bytes,
    pub key_name: Bytes,
    pub insert: Bytes,
    pub action: Bytes,
    /// The kinds and lengths of the values.
    pub numbers: Bytes,
    /// Their bytes.
    pub raw: Bytes,
    pub expand: Bytes,
    pub mark: Bytes,
}

impl FieldText {
    // No bytes, each column still to come.
    fn new(alloc: Global) -> Self {
        FieldText {
            object_actor: Bytes::new(alloc),
            object_counter: Bytes::new(alloc),
            key_actor: Bytes::new(alloc),
            key_counter: Bytes::new(alloc),
            key_name: Bytes::new(alloc),
            insert: Bytes::new(alloc),
            action: Bytes::new(alloc),
            numbers: Bytes::new(alloc),
            raw: Bytes::new(alloc),
            expand: Bytes::new(alloc),
            mark: Bytes::new(alloc),
        }
    }
}

impl FieldWriter {
    ghost use Rattle.std.specs.Prelude.{[], ℕ, List, OnOk, IfOk};
    ghost use Rattle.am_types.specs.Fine.{IsKey};
    ghost use Rattle.am_types.specs.Values.{Good};
    ghost use Rattle.am_types.specs.Views.{key_of, value_of};
    ghost use Rattle.am_fields.specs.Held.{FieldLists, FieldsHeld, FieldsFit, FieldsSpelled, with_fields};
    ghost use Rattle.am_fields.specs.Front.{with_first, HaveFields, AreBehind};
    ghost use Rattle.am_fields.specs.Rooms.{FieldsHaveRoom, FieldsHaveRoomFor, AreHeld, AreShort};

    /// No fields.
    pub fn new(alloc: Global) -> Self
        ensures { (actors : List (List ℕ)) → FieldsHeld actors (record { objects = []; keys = []; inserts = []; actions = []; values = []; expands = []; marks = [] }) result }
    {
        FieldWriter {
            object_actor: NumberWriter::new(alloc),
            object_counter: NumberWriter::new(alloc),
            key_actor: NumberWriter::new(alloc),
            key_counter: DeltaWriter::new(alloc),
            key_name: TextWriter::new(alloc),
            insert: FlagWriter::new(alloc),
            action: NumberWriter::new(alloc),
            value: ValueWriter::new(alloc),
            expand: FlagWriter::new(alloc),
            mark: TextWriter::new(alloc),
        }
    }

    /// Appends the fields of one more. The places of actors are those among these actors. An error says that memory was
    /// wanted.
    pub fn push(&mut self, actors: &ListedActors<'_>, fields: Fields<'_>) -> Result<(), AllocError>
        requires room { FieldsHaveRoom self.old }
        requires key { IsKey (key_of fields.key) }
        requires value { Good (value_of fields.value) }
        ensures { OnOk result ((x : FieldLists) → FieldsHeld actors.now x self.old → FieldsHeld actors.now (with_fields x fields.entry) self.new) }
    {
        self.object_actor.push(object_place(actors, fields.obj))?;
        self.object_counter.push(object_counter(fields.obj))?;
        self.key_actor.push(key_place(actors, fields.key))?;
        self.key_counter.push(key_counter(fields.key))?;
        self.key_name.push(key_name(fields.key))?;
        self.insert.push(fields.insert)?;
        self.action.push(Some(u64::from(fields.action)))?;
        self.value.push(fields.value)?;
        self.expand.push(fields.expand)?;
        self.mark.push(fields.mark)
    }

    /// Takes the fields of the next n out of their columns, as that many pushes, by runs. The places of actors are those
    /// among these actors. An error says that memory was wanted.
    pub fn take(
        &mut self,
        actors: &ListedActors<'_>,
        from: &mut FieldColumns<'_>,
        n: u64,
    ) -> Result<(), AllocError>
        requires room { FieldsHaveRoomFor n self.old }
        requires enough { HaveFields n from.old }
        ensures fields { OnOk result ((x : FieldLists) → FieldsHeld actors.now x self.old → FieldsHeld actors.now (with_first x n from.old) self.new) }
        ensures behind { OnOk result (AreBehind n from.old from.new) }
    {
        from.objects.copy_to(&mut self.object_actor, &mut self.object_counter, actors, n)?;
        from.keys.copy_to(
            &mut self.key_actor,
            &mut self.key_counter,
            &mut self.key_name,
            actors,
            n,
        )?;
        from.inserts.copy_to(&mut self.insert, n)?;
        from.actions.copy_to(&mut self.action, n)?;
        from.values.copy_to(&mut self.value, n)?;
        from.expands.copy_to(&mut self.expand, n)?;
        self.mark.take(&mut from.marks, n)
    }

    // Finishes each column into its place.
    fn fill(&mut self, alloc: Global, text: &mut FieldText) -> Result<(), AllocError>
        requires { AreShort self.old }
        ensures failed { OnOk result (AreHeld self.old) }
        ensures ok { OnOk result ((actors : List (List ℕ)) (x : FieldLists) → FieldsHeld actors x self.old → FieldsFit x → FieldsSpelled actors x text.new) }
    {
        finish_items(alloc, &mut self.object_actor, &mut text.object_actor)?;
        finish_items(alloc, &mut self.object_counter, &mut text.object_counter)?;
        finish_items(alloc, &mut self.key_actor, &mut text.key_actor)?;
        finish_deltas(alloc, &mut self.key_counter, &mut text.key_counter)?;
        finish_items(alloc, &mut self.key_name, &mut text.key_name)?;
        finish_plain(alloc, &mut self.insert, &mut text.insert)?;
        finish_items(alloc, &mut self.action, &mut text.action)?;
        finish_values(alloc, &mut self.value, &mut text.numbers, &mut text.raw)?;
        finish_maybe(alloc, &mut self.expand, &mut text.expand)?;
        finish_items(alloc, &mut self.mark, &mut text.mark)?;
        Ok(())
    }

    /// The columns, each in its one canonical spelling: those of flags that are always listed with runs of both values,
    /// and those that are left out where all are false. An error says that memory was wanted, now or before by any of the
    /// writers.
    pub fn finish(self, alloc: Global) -> Result<FieldText, AllocError>
        requires { AreShort self }
        ensures failed { OnOk result (AreHeld self) }
        ensures ok { IfOk result (λ text. (actors : List (List ℕ)) (x : FieldLists) → FieldsHeld actors x self → FieldsFit x → FieldsSpelled actors x text) }
    {
        let mut writer = self;
        let mut text = FieldText::new(alloc);
        writer.fill(alloc, &mut text)?;
        Ok(text)
    }
}
