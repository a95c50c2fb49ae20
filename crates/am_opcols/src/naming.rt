//! Whether the other actors that a change lists are all named by operations that are owned. It takes no memory.
ghost use Rattle.std.specs.Prelude.{◌≡◌, ◌↔◌, map, IsTrue};
ghost use Rattle.std.specs.List.{flat_map};
ghost use Rattle.std.specs.Option.{option_to_list};
ghost use Rattle.am_fields.specs.Layout.{object_actor, key_actor};
ghost use Rattle.am_fields.specs.Actors.{IsListed};
ghost use Rattle.am_opcols.specs.Others.{actors_of};
ghost use Rattle.am_opcols.specs.EachColumn.{AreNamed};

use crate::listed::is_same;
use am_colmeta::ActorList;
use am_types::{Key, ObjId, Op, OpId};

fn object_names(object: &ObjId, actor: &[u8]) -> bool
    ensures { IsTrue result ↔ IsListed (option_to_list (object_actor object.now)) actor.now }
{
    match object {
        ObjId::Root => false,
        ObjId::Made(id) => is_same(actor, id.actor.as_slice()),
    }
}

fn key_names(key: &Key, actor: &[u8]) -> bool
    ensures { IsTrue result ↔ IsListed (option_to_list (key_actor key.now)) actor.now }
{
    match key {
        Key::Name(_) => false,
        Key::Head => false,
        Key::Elem(id) => is_same(actor, id.actor.as_slice()),
    }
}

fn ids_name(ids: &[OpId], actor: &[u8]) -> bool
    ensures { IsTrue result ↔ IsListed (map (λ id. id.actor) ids.now) actor.now }
{
    let mut rest = ids;
    while let Some((id, more)) = rest.split_first() {
        if is_same(actor, id.actor.as_slice()) {
            return true;
        }
        rest = more;
    }
    false
}

// Whether the operation names the actor.
fn op_names(op: &Op, actor: &[u8]) -> bool
    ensures { IsTrue result ↔ IsListed (actors_of op.now) actor.now }
{
    object_names(&op.obj, actor)
        || key_names(&op.key, actor)
        || ids_name(op.preds.as_slice(), actor)
}

// Whether some operation names the actor. It goes as far as the first that does.
fn is_named(actor: &[u8], ops: &[Op]) -> bool
    ensures { IsTrue result ↔ IsListed (flat_map actors_of ops.now) actor.now }
{
    let mut rest = ops;
    while let Some((op, more)) = rest.split_first() {
        if op_names(op, actor) {
            return true;
        }
        rest = more;
    }
    false
}

// Whether the operations name each of the actors.
pub fn are_named_by(actors: &ActorList<'_>, ops: &[Op]) -> bool
    ensures { IsTrue result ↔ AreNamed actors.now ops.now }
{
    let mut rest = actors.again();
    while let Some(actor) = rest.next() {
        if !is_named(actor, ops) {
            return false;
        }
    }
    true
}
