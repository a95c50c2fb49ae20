//! The rows of a document, of which only so much is read as tells what is shown.
ghost use Rattle.std.specs.Prelude.{◌≡◌, ◌<◌, ◌≤◌, ◌++◌, ◌∷◌, List, length, map, take, replicate, true, false, Some, IfSome, IfNone, pos, if◌then◌else◌};
ghost use Rattle.std.specs.List.{AllByRecursion};
ghost use Rattle.am_types.specs.Actions as document_actions;
ghost use Rattle.am_types.specs.declared.Key.{Key};
ghost use Rattle.am_types.specs.declared.Key.TheVariants.{Elem};
ghost use Rattle.am_types.specs.declared.OpId.{OpId};
ghost use Rattle.am_types.specs.declared.Row.{Row};
ghost use Rattle.am_types.specs.declared.Entry.{Entry};
ghost use Rattle.am_types.specs.Values.{amount};
ghost use Rattle.am_types.specs.Views.{entry_of, id_of, key_of, object_of, value_of};
ghost use Rattle.am_types.specs.Letters.{IsRun};
ghost use Rattle.am_types.specs.Limits.{most_operations};
ghost use Rattle.am_view.specs.Reads.{is_counter_row};
ghost use Rattle.am_view.specs.Seen.{seen_by};
ghost use Rattle.am_view.specs.Steps.{ahead, later, tally, walk};

use crate::ahead::Ahead;
use crate::asked::Asked;
use crate::deferred::Deferred;
use crate::objects::Objects;
use crate::tally::{is_counter, is_hidden, is_removed, tallied};
use am_doccols::{RowColumns, RowCursor, SuccCursor};
use am_fields::{
    ActionColumn, FlagColumn, GroupColumns, IdColumns, KeyColumns, LengthColumn, TextColumn,
    ValueColumns,
};
use am_types::{EntryRef, IdRef, KeyRef, ObjRef, ValueRef, actions, kinds, slice_known};
use am_values::amount_of;
use std::marker::Model;

/// The rows of a document, one after another. A contract sees those that are left. Of a row that isn't shown neither object
/// nor key is read, and its id only where nothing removes it; a counter is read for its slot before it is known whether
/// something removes it. Of an insertion that is shown no key is read.
#[derive(Drop)]
pub struct Scan<'a> {
    objects: Objects<'a>,
    keys: Deferred<KeyColumns<'a>>,
    ids: Deferred<IdColumns<'a>>,
    inserts: FlagColumn<'a>,
    actions: ActionColumn<'a>,
    values: ValueColumns<'a>,
    lengths: LengthColumn<'a>,
    succs: Deferred<GroupColumns<'a>>,
    expands: FlagColumn<'a>,
    marks: TextColumn<'a>,
}

impl<'a> Model for Scan<'a> {
    ghost use Rattle.std.specs.Prelude.{List, length, map, ◌≡◌, ◌≤◌};
    ghost use Rattle.am_types.specs.declared.Row.{Row};
    ghost use Rattle.am_types.specs.Limits.{most_operations};
    ghost use Rattle.am_fields.specs.Layout.{flat};
    ghost use Rattle.am_doccols.specs.Rows.{rows_from};

    ghost Value = { List Row };

    ghost view = { λ s. rows_from s.objects s.keys s.ids s.inserts s.actions s.values s.succs s.expands s.marks };

    ghost invariant = { λ s. (length s.objects ≡ length s.actions)
        × (length s.keys ≡ length s.actions)
        × (length s.ids ≡ length s.actions)
        × (length s.inserts ≡ length s.actions)
        × (length s.values ≡ length s.actions)
        × (length s.succs ≡ length s.actions)
        × (length s.expands ≡ length s.actions)
        × (length s.marks ≡ length s.actions)
        × (length (flat s.succs) ≤ most_operations)
        × (s.lengths ≡ map length s.succs) };
}

// Reads the successors of the next row, so many, into a cursor that is there.
#[inline(always)]
fn succs_at<'a>(column: &mut Deferred<GroupColumns<'a>>, count: u64, succs: &mut SuccCursor<'a>)
    requires some { 0 < length column.old }
    requires count { (ids : List OpId) (rest : List (List OpId)) → column.old ≡ ids ∷ rest → length ids ≡ count }
    ensures { column.old ≡ succs.new ∷ column.new }
{
    if count == 0 {
        column.pass();
        succs.clear();
    } else {
        column.next_into(succs);
    }
}

// The slot of the next row, whose key is only read where it tells it.
#[inline(always)]
fn slot_at<'a>(keys: &mut Deferred<KeyColumns<'a>>, insert: bool, id: IdRef<'a>) -> KeyRef<'a>
    requires { 0 < length keys.old }
    ensures { (key : Key) × (keys.old ≡ key ∷ keys.new) × (key_of result ≡ (if insert then Elem (id_of id.entry) else key)) }
{
    if insert {
        keys.pass();
        KeyRef::Elem(id)
    } else {
        keys.next()
    }
}

// How many of the next rows, at most so many, are known to be insertions without successors.
#[inline(always)]
fn insertions(inserts: &FlagColumn<'_>, lengths: &LengthColumn<'_>, most: u64) -> u64
    ensures few { result ≤ most }
    ensures inserts { take result inserts.now ≡ replicate result true }
    ensures lengths { take result lengths.now ≡ replicate result 0 }
{
    let (insert, inserted) = inserts.known_alike();
    let (length, equal) = lengths.known_alike();
    if !insert {
        return 0;
    }
    if length > 0 {
        return 0;
    }
    let both = inserted.min(equal);
    most.min(both)
}

// How many of the next actions, at most so many, are known to set values.
#[inline(always)]
fn settings(actions: &ActionColumn<'_>, most: u64) -> u64
    requires { most ≤ length actions.now }
    ensures few { result ≤ most }
    ensures set { take result actions.now ≡ replicate result document_actions.set }
{
    if most == 0 {
        return 0;
    }
    let (action, count) = actions.again().next_alike_within(most);
    if action != actions::SET {
        return 0;
    }
    count
}

// How many of the next ids, at most so many, are known to be covered.
fn covered_ids<'a>(clock: &mut Asked<'a>, ids: &mut Deferred<IdColumns<'a>>, most: u64) -> u64
    requires { most ≤ length ids.old }
    ensures same { clock.new ≡ clock.old }
    ensures ids { ids.new ≡ ids.old }
    ensures few { result ≤ most }
    ensures covered { AllByRecursion (λ i. seen_by clock.old i ≡ true) (take result ids.old) }
{
    if clock.is_everything() {
        return most;
    }
    if most == 0 {
        return 0;
    }
    let (id, count) = ids.columns().next_rising_within(most);
    clock.covered(id, count)
}

impl<'a> Scan<'a> {
    /// The rows of a cursor.
    pub fn over(rows: RowCursor<'a>) -> Self
        ensures { result ≡ rows.entry }
    {
        let columns = rows.columns();
        Scan {
            objects: Objects::of(columns.objects),
            keys: Deferred::of(columns.keys),
            ids: Deferred::of(columns.ids),
            inserts: columns.inserts,
            actions: columns.actions,
            values: columns.values,
            lengths: columns.succs.lengths(),
            succs: Deferred::of(columns.succs),
            expands: columns.expands,
            marks: columns.marks,
        }
    }

    /// How many rows are left.
    #[inline(always)]
    pub fn left(&self) -> u64
        ensures { result ≡ length self.now }
    {
        self.actions.left()
    }

    // A cursor over the rows that are left.
    fn rest(&mut self) -> RowCursor<'a>
        ensures rest { result ≡ self.old }
        ensures same { self.new ≡ self.old }
    {
        RowCursor::of(RowColumns {
            objects: self.objects.columns(),
            keys: self.keys.columns(),
            ids: self.ids.columns(),
            inserts: self.inserts.again(),
            actions: self.actions.again(),
            values: self.values.again(),
            succs: self.succs.columns(),
            expands: self.expands.again(),
            marks: self.marks.again(),
        })
    }

    // What a counter stands at in this slot, where the rows that are left stand behind it; None where something removes it.
    #[inline(never)]
    fn counted(
        &mut self,
        clock: &mut Asked<'a>,
        obj: ObjRef<'a>,
        slot: KeyRef<'a>,
        value: ValueRef<'a>,
        succs: &mut SuccCursor<'a>,
    ) -> Option<i128>
        requires few { length succs.old ≤ most_operations }
        ensures rows { self.new ≡ self.old }
        ensures clock { clock.new ≡ clock.old }
        ensures total { result ≡ tally (seen_by clock.old) (amount (value_of value.entry)) succs.old (map later (ahead (object_of obj.entry) (key_of slot.entry) self.old)) }
    {
        slice_known(value.raw);
        let mut ahead = Ahead::over(obj, slot, self.rest());
        tallied(clock, amount_of(value), succs, &mut ahead)
    }

    // What a row of this action and value stands at: 0 where it is no counter, of which it is known that nothing removed it;
    // None where something removes the counter.
    #[inline(always)]
    fn total(
        &mut self,
        clock: &mut Asked<'a>,
        obj: ObjRef<'a>,
        slot: KeyRef<'a>,
        action: u8,
        value: ValueRef<'a>,
        succs: &mut SuccCursor<'a>,
    ) -> Option<i128>
        requires few { length succs.old ≤ most_operations }
        ensures rows { self.new ≡ self.old }
        ensures clock { clock.new ≡ clock.old }
        ensures counter { (row : Row) → row.action ≡ action → row.value ≡ value_of value.entry → is_counter_row row ≡ true → result ≡ tally (seen_by clock.old) (amount (value_of value.entry)) succs.old (map later (ahead (object_of obj.entry) (key_of slot.entry) self.old)) }
        ensures other { (row : Row) → row.action ≡ action → row.value ≡ value_of value.entry → is_counter_row row ≡ false → result ≡ Some (pos 0) }
    {
        if is_counter(action, value) {
            return self.counted(clock, obj, slot, value, succs);
        }
        Some(0)
    }

    /// Passes the next row, and tells whether it is shown. Then its entry is put into one that is there, in place of what it
    /// had. Its successors are read into a cursor that is there. So nothing is moved.
    pub fn next_into(
        &mut self,
        clock: &mut Asked<'a>,
        succs: &mut SuccCursor<'a>,
        entry: &mut EntryRef<'a>,
    ) -> bool
        requires { 0 < length self.old }
        ensures same { clock.new ≡ clock.old }
        ensures fewer { length self.new < length self.old }
        ensures hidden { result ≡ false → walk (seen_by clock.old) self.old ≡ walk (seen_by clock.old) self.new }
        ensures shown { result ≡ true → walk (seen_by clock.old) self.old ≡ entry_of entry.new ∷ walk (seen_by clock.old) self.new }
    {
        let insert = self.inserts.next();
        let action = self.actions.next();
        let value = self.values.next();
        let count = self.lengths.next();
        let _expand = self.expands.next();
        let _mark = self.marks.next();
        if is_hidden(clock, action, value, count) {
            self.objects.pass();
            self.keys.pass();
            self.ids.pass();
            self.succs.pass();
            return false;
        }
        succs_at(&mut self.succs, count, succs);
        if is_removed(clock, action, value, succs) {
            self.objects.pass();
            self.keys.pass();
            self.ids.pass();
            return false;
        }
        let id = self.ids.next();
        if !clock.covers(id) {
            self.objects.pass();
            self.keys.pass();
            return false;
        }
        let obj = self.objects.next();
        let slot = slot_at(&mut self.keys, insert, id);
        let Some(total) = self.total(clock, obj, slot, action, value, succs) else {
            return false;
        };
        entry.obj = obj;
        entry.slot = slot;
        entry.id = id;
        entry.action = action;
        entry.value = value;
        entry.total = total;
        true
    }

    /// Passes rows that are known to be letters of inserted elements, as many as stand together, and hands out all but the
    /// last as bytes. The entry of the last is put into one that is there, in place of what it had. None, and nothing is
    /// passed, where fewer than two such rows are known to come next.
    pub fn next_letters(
        &mut self,
        clock: &mut Asked<'a>,
        entry: &mut EntryRef<'a>,
    ) -> Option<&'a [u8]>
        ensures same { clock.new ≡ clock.old }
        ensures none { IfNone result (self.new ≡ self.old) }
        ensures some { IfSome result (λ letters. (es : List Entry) × (walk (seen_by clock.old) self.old ≡ es ++ entry_of entry.new ∷ walk (seen_by clock.old) self.new) × IsRun es letters.now (entry_of entry.new)) }
    {
        let (obj, alike) = self.objects.known_alike();
        let inserted = insertions(&self.inserts, &self.lengths, alike);
        let set = settings(&self.actions, inserted);
        let letters = self.values.again().next_letters(set);
        let count = covered_ids(clock, &mut self.ids, letters.len() as u64);
        if count < 2 {
            return None;
        }
        let last = count - 1;
        self.objects.skip(count);
        self.keys.pass_many(count);
        self.ids.pass_many(last);
        let id = self.ids.next();
        self.inserts.skip(count);
        self.actions.skip(count);
        self.values.skip(count);
        self.lengths.skip(count);
        self.succs.pass_many(count);
        self.expands.skip(count);
        self.marks.skip(count);
        entry.obj = obj;
        entry.slot = KeyRef::Elem(id);
        entry.id = id;
        entry.action = actions::SET;
        entry.value = ValueRef {
            kind: kinds::TEXT,
            raw: &letters[last as usize..count as usize],
        };
        entry.total = 0;
        Some(&letters[..last as usize])
    }
}
