//! What references ask of an operation, borrowed.
ghost use Rattle.std.specs.Prelude.{◌≡◌, ◌==◌, ◌||◌, not, option_map, true, false};
ghost use Rattle.std.specs.Option.{option_map_or};
ghost use Rattle.am_types.specs.Actions as actions;
ghost use Rattle.am_types.specs.Operations.{slot};
ghost use Rattle.am_types.specs.References.{takes};
ghost use Rattle.am_types.specs.Same.{same_key};
ghost use Rattle.am_types.specs.Views.{id_of, key_of, object_of};
ghost use Rattle.am_fits.specs.Facts.{Fact, fact_of};
ghost use Rattle.am_fits.specs.Shown.{slot_shown, fact_shown};
ghost use Rattle.am_fits.specs.Told.{inserts, gives_to};

use am_types::{IdRef, KeyRef, ObjRef, ReadOp, actions, same_bytes, same_id, same_object};

/// A slot, borrowed.
#[derive(Clone, Copy, Debug)]
pub(crate) enum SlotRef<'a> {
    Name(&'a [u8]),
    Head,
    Elem(IdRef<'a>),
}

/// What references ask of an operation.
#[derive(Clone, Copy, Debug)]
pub(crate) struct Seen<'a> {
    pub object: ObjRef<'a>,
    pub slot: SlotRef<'a>,
    pub action: u8,
    pub insert: bool,
}

/// What references ask of the operation with this id.
pub(crate) fn show<'a, O: ReadOp>(op: &'a O, id: IdRef<'a>) -> Seen<'a>
    ensures { fact_shown result ≡ fact_of (record { id = id_of id.entry; op = O.op op.now }) }
{
    Seen {
        object: op.obj(),
        slot: show_slot(op, id),
        action: op.action(),
        insert: op.insert(),
    }
}

/// What the operation with this id gives a value to.
pub(crate) fn show_slot<'a, O: ReadOp>(op: &'a O, id: IdRef<'a>) -> SlotRef<'a>
    ensures { slot_shown result ≡ slot (record { id = id_of id.entry; op = O.op op.now }) }
{
    if op.insert() {
        return SlotRef::Elem(id);
    }
    match op.key() {
        KeyRef::Name(name) => SlotRef::Name(name.as_bytes()),
        KeyRef::Head => SlotRef::Head,
        KeyRef::Elem(id) => SlotRef::Elem(id),
    }
}

/// Whether it makes an object that takes the key.
#[inline(always)]
pub(crate) fn makes(seen: Option<Seen<'_>>, key: KeyRef<'_>) -> bool
    ensures { result ≡ option_map_or (λ f. takes f.action (key_of key.entry)) (option_map fact_shown seen.entry) false }
{
    match seen {
        Some(seen) => takes(seen.action, key),
        None => false,
    }
}

/// Whether it inserts into the object.
#[inline(always)]
pub(crate) fn inserts(seen: Option<Seen<'_>>, object: ObjRef<'_>) -> bool
    ensures { result ≡ option_map_or (inserts (object_of object.entry)) (option_map fact_shown seen.entry) false }
{
    match seen {
        Some(seen) => seen.insert && same_object(seen.object, object),
        None => false,
    }
}

/// Whether it is no deletion, and is in the slot of the object.
#[inline(always)]
pub(crate) fn gives_to(seen: Option<Seen<'_>>, object: ObjRef<'_>, slot: SlotRef<'_>) -> bool
    ensures { result ≡ option_map_or (gives_to (object_of object.entry) (slot_shown slot.entry)) (option_map fact_shown seen.entry) false }
{
    match seen {
        Some(seen) => {
            seen.action != actions::DELETE
                && same_object(seen.object, object)
                && same_slot(seen.slot, slot)
        }
        None => false,
    }
}

/// Whether what the action makes takes such a key.
#[inline(always)]
pub(crate) fn takes(action: u8, key: KeyRef<'_>) -> bool
    ensures { result ≡ takes action (key_of key.entry) }
{
    match key {
        KeyRef::Name(_) => action == actions::MAKE_MAP || action == actions::MAKE_TABLE,
        KeyRef::Head => action == actions::MAKE_LIST || action == actions::MAKE_TEXT,
        KeyRef::Elem(_) => action == actions::MAKE_LIST || action == actions::MAKE_TEXT,
    }
}

fn same_slot(a: SlotRef<'_>, b: SlotRef<'_>) -> bool
    ensures { result ≡ same_key (slot_shown a.entry) (slot_shown b.entry) }
{
    match (a, b) {
        (SlotRef::Name(a), SlotRef::Name(b)) => same_bytes(a, b),
        (SlotRef::Head, SlotRef::Head) => true,
        (SlotRef::Elem(a), SlotRef::Elem(b)) => same_id(a, b),
        _ => false,
    }
}
