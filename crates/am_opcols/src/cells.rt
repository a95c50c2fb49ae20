//! The numbers that operations have in columns, each kind a type.
ghost use Rattle.std.specs.Prelude.{◌≡◌, List, ℕ, Option};
ghost use Rattle.am_types.specs.declared.Op.{Op};
ghost use Rattle.am_types.specs.Fine.{FineOp};
ghost use Rattle.am_types.specs.Values.{Good};
ghost use Rattle.am_types.specs.Views.{value_of};
ghost use Rattle.am_values.specs.Columns.{metadata};

use am_fields::ListedActors;
use am_types::{KeyRef, ObjRef, ReadOp, ValueRef};

/// A kind of number that a column has of operations.
pub trait Cell {
    /// The number of an operation, if it has one. Places are those among these actors.
    ghost cell: { List (List ℕ) → Op → Option ℕ };

    fn of<O: ReadOp>(actors: &ListedActors<'_>, op: &O) -> Option<u64>
        requires { FineOp (O.op op.now) }
        ensures { result ≡ cell actors.now (O.op op.now) };
}

/// The place of the actor of the object.
pub struct ObjectPlace;

impl Cell for ObjectPlace {
    ghost use Rattle.std.specs.Prelude.{option_map};
    ghost use Rattle.am_fields.specs.Columns.{place_of};
    ghost use Rattle.am_fields.specs.Layout.{object_actor};

    ghost cell = { λ actors o. option_map (place_of actors) (object_actor o.obj) };

    fn of<O: ReadOp>(actors: &ListedActors<'_>, op: &O) -> Option<u64> {
        match op.obj() {
            ObjRef::Root => None,
            ObjRef::Made(id) => Some(actors.place(id.actor)),
        }
    }
}

/// The counter of the object.
pub struct ObjectCounter;

impl Cell for ObjectCounter {
    ghost use Rattle.am_fields.specs.Layout.{object_counter};

    ghost cell = { λ actors o. object_counter o.obj };

    fn of<O: ReadOp>(_actors: &ListedActors<'_>, op: &O) -> Option<u64> {
        match op.obj() {
            ObjRef::Root => None,
            ObjRef::Made(id) => Some(id.counter),
        }
    }
}

/// The place of the actor of the key.
pub struct KeyPlace;

impl Cell for KeyPlace {
    ghost use Rattle.std.specs.Prelude.{option_map};
    ghost use Rattle.am_fields.specs.Columns.{place_of};
    ghost use Rattle.am_fields.specs.Layout.{key_actor};

    ghost cell = { λ actors o. option_map (place_of actors) (key_actor o.key) };

    fn of<O: ReadOp>(actors: &ListedActors<'_>, op: &O) -> Option<u64> {
        match op.key() {
            KeyRef::Name(_) => None,
            KeyRef::Head => None,
            KeyRef::Elem(id) => Some(actors.place(id.actor)),
        }
    }
}

/// The action.
pub struct Action;

impl Cell for Action {
    ghost use Rattle.std.specs.Prelude.{Some};

    ghost cell = { λ actors o. Some o.action };

    fn of<O: ReadOp>(_actors: &ListedActors<'_>, op: &O) -> Option<u64> {
        Some(u64::from(op.action()))
    }
}

// The number that tells the kind and the length of a value.
fn metadata_of(value: ValueRef<'_>) -> u64
    requires { Good (value_of value) }
    ensures { result ≡ metadata (value_of value.entry) }
{
    u64::from(value.kind) + 16 * value.raw.len() as u64
}

/// The kind and the length of the value, in one number.
pub struct Metadata;

impl Cell for Metadata {
    ghost use Rattle.std.specs.Prelude.{Some};
    ghost use Rattle.am_values.specs.Columns.{metadata};

    ghost cell = { λ actors o. Some (metadata o.value) };

    fn of<O: ReadOp>(_actors: &ListedActors<'_>, op: &O) -> Option<u64> {
        Some(metadata_of(op.value()))
    }
}

/// How many predecessors there are.
pub struct PredCount;

impl Cell for PredCount {
    ghost use Rattle.std.specs.Prelude.{Some, length};

    ghost cell = { λ actors o. Some (length o.preds) };

    fn of<O: ReadOp>(_actors: &ListedActors<'_>, op: &O) -> Option<u64> {
        Some(op.pred_count() as u64)
    }
}
