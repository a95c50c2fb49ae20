//! The cells of a lent field, as columns hold them.
ghost use Rattle.std.specs.Prelude.{◌≡◌, IfSome, option_map};
ghost use Rattle.am_types.specs.Fine.{IsKey};
ghost use Rattle.am_types.specs.Views.{object_of, key_of};
ghost use Rattle.am_delta.specs.Deltas.{IsMiddling};
ghost use Rattle.am_fields.specs.Columns.{place_of};
ghost use Rattle.am_fields.specs.Layout.{object_actor, object_counter as counter_of_object, key_actor, key_counter as counter_of_key, key_string};

use crate::listed::ListedActors;
use am_types::{KeyRef, ObjRef};

/// The place of the actor of an object among these actors; none of the root.
pub fn object_place(actors: &ListedActors<'_>, object: ObjRef<'_>) -> Option<u64>
    ensures { result ≡ option_map (place_of actors.now) (object_actor (object_of object.entry)) }
{
    match object {
        ObjRef::Root => None,
        ObjRef::Made(id) => Some(actors.place(id.actor)),
    }
}

/// The counter of an object; none of the root.
pub fn object_counter(object: ObjRef<'_>) -> Option<u64>
    ensures { result ≡ counter_of_object (object_of object.entry) }
{
    match object {
        ObjRef::Root => None,
        ObjRef::Made(id) => Some(id.counter),
    }
}

/// The place of the actor of an element's key among these actors; none of another key.
pub fn key_place(actors: &ListedActors<'_>, key: KeyRef<'_>) -> Option<u64>
    ensures { result ≡ option_map (place_of actors.now) (key_actor (key_of key.entry)) }
{
    match key {
        KeyRef::Name(_) => None,
        KeyRef::Head => None,
        KeyRef::Elem(id) => Some(actors.place(id.actor)),
    }
}

/// The counter of an element's key, 0 at the front of a list, none at a name.
pub fn key_counter(key: KeyRef<'_>) -> Option<i64>
    requires { IsKey (key_of key) }
    ensures value { result ≡ counter_of_key (key_of key.entry) }
    ensures small { IfSome result IsMiddling }
{
    match key {
        KeyRef::Name(_) => None,
        KeyRef::Head => Some(0),
        KeyRef::Elem(id) => Some(id.counter as i64),
    }
}

/// The name of a key, if it is one.
pub fn key_name(key: KeyRef<'_>) -> Option<&str>
    ensures { option_map (λ s. s.now) result ≡ key_string (key_of key.entry) }
{
    match key {
        KeyRef::Name(name) => Some(name),
        KeyRef::Head => None,
        KeyRef::Elem(_) => None,
    }
}
