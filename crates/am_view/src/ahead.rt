//! The rows that stand behind a row in its slot.
ghost use Rattle.std.specs.Prelude.{◌≡◌, map};
ghost use Rattle.am_types.specs.Views.{id_of, object_of, key_of};
ghost use Rattle.am_view.specs.Borrowed.{with_first, coming};
ghost use Rattle.am_view.specs.Steps.{later, ahead, not_below, addend};
ghost use Rattle.am_view.specs.Totals.{IsWithin};

use crate::slots::slot_of;
use am_doccols::RowCursor;
use am_types::{
    IdRef, KeyRef, ObjRef, ValueRef, actions, compare_ids, same_id, same_key, same_object,
    slice_known,
};
use am_values::amount_of;

/// What a row is to those in front of it in its slot.
#[derive(Clone, Copy)]
pub struct LaterRef<'a> {
    pub id: IdRef<'a>,
    pub action: u8,
    pub value: ValueRef<'a>,
}

/// The rows that come next, as long as they stand in one slot.
#[derive(Drop)]
pub struct Ahead<'a> {
    obj: ObjRef<'a>,
    slot: KeyRef<'a>,
    first: Option<LaterRef<'a>>,
    rest: RowCursor<'a>,
}

// The next row, where it stands in the slot. Else nothing behind it is looked at again.
fn first_of<'a>(obj: ObjRef<'a>, slot: KeyRef<'a>, rest: &mut RowCursor<'a>) -> Option<LaterRef<'a>>
    ensures { map later (ahead (object_of obj.entry) (key_of slot.entry) rest.old) ≡ with_first result (map later (ahead (object_of obj.entry) (key_of slot.entry) rest.new)) }
{
    let row = rest.next()?;
    if same_object(row.obj, obj) && same_key(slot_of(row.insert, row.key, row.id), slot) {
        Some(LaterRef {
            id: row.id,
            action: row.action,
            value: row.value,
        })
    } else {
        None
    }
}

impl<'a> Ahead<'a> {
    /// The first of the rows, as long as they stand in the slot.
    pub fn over(obj: ObjRef<'a>, slot: KeyRef<'a>, rest: RowCursor<'a>) -> Self
        ensures { coming result ≡ map later (ahead (object_of obj.entry) (key_of slot.entry) rest.entry) }
    {
        let mut rest = rest;
        let first = first_of(obj, slot, &mut rest);
        Ahead {
            obj,
            slot,
            first,
            rest,
        }
    }

    /// Passes the rows whose ids are below.
    pub fn pass_below(&mut self, id: IdRef<'_>)
        ensures { coming self.new ≡ not_below (id_of id.entry) (coming self.old) }
    {
        while let Some(first) = self.first {
            if !compare_ids(first.id, id).is_lt() {
                break;
            }
            self.first = first_of(self.obj, self.slot, &mut self.rest);
        }
    }

    /// What the first of the rows adds to a counter, where it is the increment with this id.
    pub fn addend(&self, id: IdRef<'_>) -> Option<i128>
        ensures adds { result ≡ addend (id_of id.entry) (coming self.now) }
        ensures bounded { IsWithin 1 result }
    {
        match self.first {
            Some(first) if same_id(first.id, id) && first.action == actions::INCREMENT => {
                slice_known(first.value.raw);
                Some(amount_of(first.value))
            }
            _ => None,
        }
    }
}
