//! Orders and equality of borrowed ids, objects and keys.
ghost use Rattle.std.specs.Prelude.{◌≡◌};
ghost use Rattle.am_types.specs.Order.{object_cmp};
ghost use Rattle.am_types.specs.Same.{same_id, same_key, same_object};
ghost use Rattle.am_types.specs.Views.{id_of, key_of, object_of};

use crate::byte_strings::{same_actor, same_bytes};
use crate::refs::{IdRef, KeyRef, ObjRef, compare_ids};
use std::cmp::Ordering;

/// The order of objects: the root first, then by id.
pub fn compare_objects(a: ObjRef<'_>, b: ObjRef<'_>) -> Ordering
    ensures order { result ≡ object_cmp (object_of a.entry) (object_of b.entry) }
{
    match (a, b) {
        (ObjRef::Root, ObjRef::Root) => Ordering::Equal,
        (ObjRef::Root, ObjRef::Made(_)) => Ordering::Less,
        (ObjRef::Made(_), ObjRef::Root) => Ordering::Greater,
        (ObjRef::Made(a), ObjRef::Made(b)) => compare_ids(a, b),
    }
}

/// Whether the two are one id.
pub fn same_id(a: IdRef<'_>, b: IdRef<'_>) -> bool
    ensures same { result ≡ same_id (id_of a.entry) (id_of b.entry) }
{
    a.counter == b.counter && same_actor(a.actor, b.actor)
}

/// Whether the two are one object.
pub fn same_object(a: ObjRef<'_>, b: ObjRef<'_>) -> bool
    ensures same { result ≡ same_object (object_of a.entry) (object_of b.entry) }
{
    match (a, b) {
        (ObjRef::Root, ObjRef::Root) => true,
        (ObjRef::Made(a), ObjRef::Made(b)) => same_id(a, b),
        _ => false,
    }
}

/// Whether the two are one place within an object.
pub fn same_key(a: KeyRef<'_>, b: KeyRef<'_>) -> bool
    ensures same { result ≡ same_key (key_of a.entry) (key_of b.entry) }
{
    match (a, b) {
        (KeyRef::Name(a), KeyRef::Name(b)) => same_bytes(a.as_bytes(), b.as_bytes()),
        (KeyRef::Head, KeyRef::Head) => true,
        (KeyRef::Elem(a), KeyRef::Elem(b)) => same_id(a, b),
        _ => false,
    }
}
