//! Whether the other actors that a change lists are just those that its operations name. It takes no memory.
ghost use Rattle.std.specs.Prelude.{◌≡◌, ◌↔◌, map, IsTrue};
ghost use Rattle.std.specs.List.{flat_map};
ghost use Rattle.std.specs.Option.{option_to_list};
ghost use Rattle.am_types.specs.Views.{object_of, key_of};
ghost use Rattle.am_fields.specs.Layout.{object_actor, key_actor};
ghost use Rattle.am_types.specs.Order.{bytes_cmp};
ghost use Rattle.am_fields.specs.Actors.{IsListed};
ghost use Rattle.am_opcols.specs.Others.{actors_of};
ghost use Rattle.am_opcols.specs.Rows.{op_of};
ghost use Rattle.am_opcols.specs.Chains.{Chain};
ghost use Rattle.am_opcols.specs.EachColumn.{AreNamed};

use crate::cursor::OpCursor;
use crate::op::OpRef;
use am_colmeta::ActorList;
use am_fields::IdCursor;
use am_types::{KeyRef, ObjRef, same_actor};
use std::cmp::Ordering;

// Whether the two are one actor.
pub fn is_same(a: &[u8], b: &[u8]) -> bool
    ensures { IsTrue result ↔ (a.now ≡ b.now) }
{
    same_actor(a, b)
}

fn object_names(object: ObjRef<'_>, actor: &[u8]) -> bool
    ensures { IsTrue result ↔ IsListed (option_to_list (object_actor (object_of object.entry))) actor.now }
{
    match object {
        ObjRef::Root => false,
        ObjRef::Made(id) => is_same(actor, id.actor),
    }
}

fn key_names(key: KeyRef<'_>, actor: &[u8]) -> bool
    ensures { IsTrue result ↔ IsListed (option_to_list (key_actor (key_of key.entry))) actor.now }
{
    match key {
        KeyRef::Name(_) => false,
        KeyRef::Head => false,
        KeyRef::Elem(id) => is_same(actor, id.actor),
    }
}

fn ids_name(ids: IdCursor<'_>, actor: &[u8]) -> bool
    ensures { IsTrue result ↔ IsListed (map (λ id. id.actor) ids.entry) actor.now }
{
    let mut rest = ids;
    while let Some(id) = rest.next() {
        if is_same(actor, id.actor) {
            return true;
        }
    }
    false
}

// Whether the operation names the actor.
fn op_names(op: OpRef<'_>, actor: &[u8]) -> bool
    ensures { IsTrue result ↔ IsListed (actors_of (op_of op.entry)) actor.now }
{
    object_names(op.obj, actor) || key_names(op.key, actor) || ids_name(op.preds, actor)
}

// Whether some operation names the actor. It goes as far as the first that does.
fn is_named(actor: &[u8], ops: &OpCursor<'_>) -> bool
    ensures { IsTrue result ↔ IsListed (flat_map actors_of ops.now) actor.now }
{
    let mut rest = ops.again();
    while let Some(op) = rest.next() {
        if op_names(op, actor) {
            return true;
        }
    }
    false
}

// Whether the operations name each of the actors.
pub fn are_named(actors: &ActorList<'_>, ops: &OpCursor<'_>) -> bool
    ensures { IsTrue result ↔ AreNamed actors.now ops.now }
{
    let mut rest = actors.again();
    while let Some(actor) = rest.next() {
        if !is_named(actor, ops) {
            return false;
        }
    }
    true
}

// Whether the actor is listed.
pub fn lists(actors: &ActorList<'_>, actor: &[u8]) -> bool
    ensures { IsTrue result ↔ IsListed actors.now actor.now }
{
    let mut rest = actors.again();
    while let Some(other) = rest.next() {
        if is_same(actor, other) {
            return true;
        }
    }
    false
}

// Whether each actor is above the one before it.
pub fn ascend(actors: &ActorList<'_>) -> bool
    ensures { IsTrue result ↔ Chain bytes_cmp actors.now }
{
    let mut rest = actors.again();
    let Some(first) = rest.next() else {
        return true;
    };
    let mut before = first;
    while let Some(actor) = rest.next() {
        if before.cmp(actor) != Ordering::Less {
            return false;
        }
        before = actor;
    }
    true
}
