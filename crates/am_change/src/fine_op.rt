//! Whether an operation that is lent from its columns is fine.
ghost use Rattle.std.specs.Prelude.{◌≡◌, ◌↔◌, ◌≤◌, [], All, IsTrue, IsUtf8, IfSome, length};
ghost use Rattle.std.specs.Option.{option_map};
ghost use Rattle.std.specs.List.{AllByRecursion};
ghost use Rattle.am_types.specs.declared.Key.TheVariants as keys;
ghost use Rattle.am_types.specs.Order.{id_cmp, Ascends};
ghost use Rattle.am_types.specs.Fine.{IsId, IsObject, IsKey, IsListPlace, FineInsertion, FineDeletion, FineOp};
ghost use Rattle.am_types.specs.Views.{id_of, object_of, key_of};
ghost use Rattle.am_opcols.specs.Rows.{op_of};
ghost use Rattle.am_opcols.specs.Chains.{Chain};

use am_opcols::{OpRef, PredCursor};
use am_types::{
    GREATEST_COUNTER, IdRef, KeyRef, LONGEST_ACTOR, ObjRef, actions, compare_ids, kinds,
    slice_known, str_known,
};
use am_values::good_value;
use std::cmp::Ordering;

// Whether the counter and the actor are within their limits.
pub fn is_id(id: IdRef<'_>) -> bool
    ensures { IsTrue result ↔ IsId (id_of id.entry) }
{
    slice_known(id.actor);
    id.counter >= 1
        && id.counter <= GREATEST_COUNTER
        && !id.actor.is_empty()
        && id.actor.len() <= LONGEST_ACTOR
}

// Whether the object is the root or has an id within the limits.
pub fn is_object(obj: ObjRef<'_>) -> bool
    ensures { IsTrue result ↔ IsObject (object_of obj.entry) }
{
    match obj {
        ObjRef::Root => true,
        ObjRef::Made(id) => is_id(id),
    }
}

// Whether an element has an id within the limits. Names are texts, and so always are.
pub fn is_key(key: KeyRef<'_>) -> bool
    ensures { IsTrue result ↔ IsKey (key_of key.entry) }
{
    match key {
        KeyRef::Name(name) => {
            str_known(name);
            true
        }
        KeyRef::Head => true,
        KeyRef::Elem(id) => is_id(id),
    }
}

// Whether each id is within the limits.
fn all_ids(ids: PredCursor<'_>) -> bool
    ensures { IsTrue result ↔ AllByRecursion IsId ids.entry }
{
    let mut rest = ids;
    while let Some(id) = rest.next() {
        if !is_id(id) {
            return false;
        }
    }
    true
}

fn are_ids(ids: &PredCursor<'_>) -> bool
    ensures { IsTrue result ↔ All IsId ids.now }
{
    all_ids(ids.again())
}

// Whether each id is below the next.
fn ids_chain(ids: PredCursor<'_>) -> bool
    ensures { IsTrue result ↔ Chain id_cmp ids.entry }
{
    let mut rest = ids;
    let Some(first) = rest.next() else {
        return true;
    };
    let mut before = first;
    while let Some(id) = rest.next() {
        if compare_ids(before, id) != Ordering::Less {
            return false;
        }
        before = id;
    }
    true
}

fn ids_ascend(ids: &PredCursor<'_>) -> bool
    ensures { IsTrue result ↔ Ascends id_cmp ids.now }
{
    ids_chain(ids.again())
}

fn has_none(ids: &PredCursor<'_>) -> bool
    ensures { IsTrue result ↔ (ids.now ≡ []) }
{
    ids.again().next().is_none()
}

// Whether the place is in a list or a text.
pub fn is_list_place(key: KeyRef<'_>) -> bool
    ensures { IsTrue result ↔ IsListPlace (key_of key.entry) }
{
    match key {
        KeyRef::Name(_) => false,
        KeyRef::Head => true,
        KeyRef::Elem(_) => true,
    }
}

pub fn is_head(key: KeyRef<'_>) -> bool
    ensures { IsTrue result ↔ (key_of key.entry ≡ keys.Head) }
{
    match key {
        KeyRef::Name(_) => false,
        KeyRef::Head => true,
        KeyRef::Elem(_) => false,
    }
}

// A mark's name is text.
pub fn mark_known(mark: Option<&str>)
    ensures { IfSome (option_map (λ s. s.now) mark.entry) IsUtf8 }
{
    match mark {
        Some(name) => str_known(name),
        None => {}
    }
}

// Whether an insertion stands in a list or a text, makes an element there, and replaces nothing.
fn is_fine_insertion(op: &OpRef<'_>) -> bool
    ensures { IsTrue result ↔ FineInsertion (op_of op.now) }
{
    is_list_place(op.key)
        && op.action != actions::DELETE
        && op.action != actions::INCREMENT
        && has_none(&op.preds)
}

fn has_some(ids: &PredCursor<'_>) -> bool
    ensures { IsTrue result ↔ (1 ≤ length ids.now) }
{
    ids.again().next().is_some()
}

// Whether a deletion removes something, and says nothing else.
fn is_fine_deletion(op: &OpRef<'_>) -> bool
    ensures { IsTrue result ↔ FineDeletion (op_of op.now) }
{
    has_some(&op.preds)
        && op.value.kind == kinds::NULL
        && !op.insert
        && !op.expand
        && op.mark.is_none()
}

// Whether an operation is fine.
pub fn is_fine_op(op: &OpRef<'_>) -> bool
    ensures { IsTrue result ↔ FineOp (op_of op.now) }
{
    mark_known(op.mark);
    if op.action > actions::GREATEST || !is_object(op.obj) || !is_key(op.key) {
        return false;
    }
    if !good_value(op.value) {
        return false;
    }
    if !are_ids(&op.preds) || !ids_ascend(&op.preds) {
        return false;
    }
    if op.insert && !is_fine_insertion(op) {
        return false;
    }
    if !op.insert && (is_head(op.key) || op.action == actions::MARK) {
        return false;
    }
    op.action != actions::DELETE || is_fine_deletion(op)
}
