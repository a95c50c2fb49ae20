//! Copies of borrowed ids, objects, keys and values, which can want memory.
ghost use Rattle.std.specs.Prelude.{◌≡◌, IfOk};
ghost use Rattle.am_types.specs.Actors.{IsActor};
ghost use Rattle.am_types.specs.Views.{id_of, key_of, object_of, value_of};
ghost use Rattle.am_types.specs.Owned.{IsKeyAllowed, IsObjectAllowed};

use crate::actor::{ActorFault, ActorId};
use crate::bytes::Bytes;
use crate::ids::{Key, ObjId, OpId};
use crate::refs::{IdRef, KeyRef, ObjRef, ValueRef};
use crate::text::Text;
use crate::value::RawValue;
use std::alloc::{AllocError, Global};

impl<'a> IdRef<'a> {
    /// The same id, copied.
    pub fn to_owned(self, alloc: Global) -> Result<OpId, AllocError>
        requires actor { IsActor (id_of self).actor }
        ensures copy { IfOk result (λ id. id ≡ id_of self.entry) }
    {
        match ActorId::of(alloc, self.actor) {
            Ok(actor) => Ok(OpId {
                counter: self.counter,
                actor,
            }),
            Err(ActorFault::NoMemory) => Err(AllocError),
            Err(ActorFault::Length) => unreachable!(),
        }
    }
}

impl<'a> ObjRef<'a> {
    /// The same object, copied.
    pub fn to_owned(self, alloc: Global) -> Result<ObjId, AllocError>
        requires actor { IsObjectAllowed (object_of self) }
        ensures copy { IfOk result (λ object. object ≡ object_of self.entry) }
    {
        match self {
            ObjRef::Root => Ok(ObjId::Root),
            ObjRef::Made(id) => Ok(ObjId::Made(id.to_owned(alloc)?)),
        }
    }
}

impl<'a> KeyRef<'a> {
    /// The same place, copied.
    pub fn to_owned(self, alloc: Global) -> Result<Key, AllocError>
        requires actor { IsKeyAllowed (key_of self) }
        ensures copy { IfOk result (λ key. key ≡ key_of self.entry) }
    {
        match self {
            KeyRef::Name(name) => Ok(Key::Name(Text::copy_of(alloc, name)?)),
            KeyRef::Head => Ok(Key::Head),
            KeyRef::Elem(id) => Ok(Key::Elem(id.to_owned(alloc)?)),
        }
    }
}

impl<'a> ValueRef<'a> {
    /// The same value, copied.
    pub fn to_owned(self, alloc: Global) -> Result<RawValue, AllocError>
        ensures copy { IfOk result (λ value. value ≡ value_of self.entry) }
    {
        Ok(RawValue {
            kind: self.kind,
            raw: Bytes::copy_of(alloc, self.raw)?,
        })
    }
}
