//! Borrowed forms of the plain data.
ghost use Rattle.std.specs.Prelude.{◌≡◌, ◌<◌, [], length, pos, slice_get, Some};
ghost use Rattle.am_types.specs.Order.{id_cmp};
ghost use Rattle.am_types.specs.Records.{Root, Head};
ghost use Rattle.am_types.specs.Views.{id_of, object_of, key_of, value_of, entry_of};

use crate::byte_strings::compare_actors;
use crate::document::{Document, Entry};
use crate::ids::{Key, ObjId, OpId};
use crate::value::RawValue;
use std::cmp::Ordering;

/// An [`OpId`] that is borrowed.
#[derive(Clone, Copy, Debug)]
pub struct IdRef<'a> {
    pub counter: u64,
    pub actor: &'a [u8],
}

/// An [`ObjId`] that is borrowed.
#[derive(Clone, Copy, Debug)]
pub enum ObjRef<'a> {
    Root,
    Made(IdRef<'a>),
}

/// A [`Key`] that is borrowed.
#[derive(Clone, Copy, Debug)]
pub enum KeyRef<'a> {
    Name(&'a str),
    Head,
    Elem(IdRef<'a>),
}

/// A [`RawValue`] that is borrowed.
#[derive(Clone, Copy, Debug)]
pub struct ValueRef<'a> {
    pub kind: u8,
    pub raw: &'a [u8],
}

/// An [`Entry`] that is borrowed.
#[derive(Clone, Copy, Debug)]
pub struct EntryRef<'a> {
    pub obj: ObjRef<'a>,
    pub slot: KeyRef<'a>,
    pub id: IdRef<'a>,
    pub action: u8,
    pub value: ValueRef<'a>,
    pub total: i128,
}

impl OpId {
    /// The same id, borrowed.
    pub fn lend(&self) -> IdRef<'_>
        ensures { id_of result ≡ self.now }
    {
        IdRef {
            counter: self.counter,
            actor: self.actor.as_slice(),
        }
    }
}

impl ObjId {
    /// The same object, borrowed.
    pub fn lend(&self) -> ObjRef<'_>
        ensures { object_of result ≡ self.now }
    {
        match self {
            ObjId::Root => ObjRef::Root,
            ObjId::Made(id) => ObjRef::Made(id.lend()),
        }
    }
}

impl Key {
    /// The same place, borrowed.
    pub fn lend(&self) -> KeyRef<'_>
        ensures { key_of result ≡ self.now }
    {
        match self {
            Key::Name(name) => KeyRef::Name(name.as_str()),
            Key::Head => KeyRef::Head,
            Key::Elem(id) => KeyRef::Elem(id.lend()),
        }
    }
}

impl RawValue {
    /// The same value, borrowed.
    pub fn lend(&self) -> ValueRef<'_>
        ensures { value_of result ≡ self.now }
    {
        ValueRef {
            kind: self.kind,
            raw: self.raw.as_slice(),
        }
    }
}

impl Entry {
    /// The same entry, borrowed.
    pub fn lend(&self) -> EntryRef<'_>
        ensures { entry_of result ≡ self.now }
    {
        EntryRef {
            obj: self.obj.lend(),
            slot: self.slot.lend(),
            id: self.id.lend(),
            action: self.action,
            value: self.value.lend(),
            total: self.total,
        }
    }
}

impl<'a> EntryRef<'a> {
    /// An entry that says nothing: a place to put entries into.
    pub fn blank() -> Self
        ensures { entry_of result ≡ record { obj = Root; slot = Head; id = record { counter = 0; actor = [] }; action = 0; value = record { kind = 0; raw = [] }; total = pos 0 } }
    {
        EntryRef {
            obj: ObjRef::Root,
            slot: KeyRef::Head,
            id: IdRef {
                counter: 0,
                actor: &[],
            },
            action: 0,
            value: ValueRef { kind: 0, raw: &[] },
            total: 0,
        }
    }
}

impl Document {
    /// The entry at this place, borrowed.
    pub fn entry(&self, i: usize) -> EntryRef<'_>
        requires { i < length self.now.entries }
        ensures { slice_get self.now.entries i ≡ Some (entry_of result) }
    {
        self.entries.as_slice()[i].lend()
    }
}

/// The order of ids: by counter, then by the bytes of the actor.
pub fn compare_ids(a: IdRef<'_>, b: IdRef<'_>) -> Ordering
    ensures { result ≡ id_cmp (id_of a.entry) (id_of b.entry) }
{
    match a.counter.cmp(&b.counter) {
        Ordering::Less => Ordering::Less,
        Ordering::Equal => compare_actors(a.actor, b.actor),
        Ordering::Greater => Ordering::Greater,
    }
}
