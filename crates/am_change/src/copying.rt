//! Copying what is lent from the bytes of a change.
ghost use Rattle.std.specs.Prelude.{◌≡◌, ◌≤◌, ◌*◌, ◌++◌, ◌∷◌, [], length, option_map, IfOk, OnOk};
ghost use Rattle.std.specs.List.{AllByRecursion};
ghost use Rattle.am_types.specs.Views.{id_of, object_of, key_of, value_of};
ghost use Rattle.am_types.specs.Limits.{longest_actor};
ghost use Rattle.am_fields.specs.Limits.{IsWithin, IsObjectWithin, IsKeyWithin};
ghost use Rattle.am_opcols.specs.Rows.{head_with};
ghost use Rattle.am_change.specs.Building.{hash_with, hashes_in, front_of, change_with, IsOpWithin};

use crate::front::FrontRef;
use am_opcols::{OpCursor, OpHead, PredCursor};
use am_types::{
    ActorFault, ActorId, Bytes, Change, Hash, IdRef, Key, KeyRef, List, ObjId, ObjRef, Op, OpId,
    RawValue, SharedActors, Text, ValueRef,
};
use std::alloc::{AllocError, Global};

// The bytes, owned.
fn bytes_in(alloc: Global, bytes: &[u8]) -> Result<Bytes, AllocError>
    ensures { IfOk result (λ copy. copy ≡ bytes.now) }
{
    Bytes::copy_of(alloc, bytes)
}

// The text, owned.
fn text_in(alloc: Global, text: &str) -> Result<Text, AllocError>
    ensures { IfOk result (λ copy. copy ≡ text.now) }
{
    Text::copy_of(alloc, text)
}

// The hash of these bytes.
pub fn hash_in(bytes: &[u8]) -> Hash
    requires { length bytes.now ≡ 32 }
    ensures { result ≡ hash_with bytes.now }
{
    let mut hash = [0u8; 32];
    hash.copy_from_slice(bytes);
    Hash(hash)
}

// The hashes that stand one after another, owned.
fn hashes_of(alloc: Global, bytes: &[u8], count: u64) -> Result<List<Hash>, AllocError>
    requires { length bytes.now ≡ 32 * count }
    ensures { IfOk result (λ hashes. hashes ≡ hashes_in count bytes.now) }
{
    let mut hashes = Vec::with_capacity(alloc, count as usize)?;
    let mut rest = bytes;
    let mut left = count;
    while left > 0 {
        let (first, more) = rest.split_at(32);
        hashes.push(hash_in(first))?;
        rest = more;
        left -= 1;
    }
    Ok(List::from(hashes))
}

// The actor, owned, which shares its bytes with those that came before.
fn shared_in(alloc: Global, actors: &mut SharedActors, bytes: &[u8]) -> Result<ActorId, AllocError>
    requires some { 1 ≤ length bytes.now }
    requires few { length bytes.now ≤ longest_actor }
    ensures { IfOk result (λ actor. actor ≡ bytes.now) }
{
    match actors.of(alloc, bytes) {
        Ok(actor) => Ok(actor),
        Err(ActorFault::NoMemory) => Err(AllocError),
        Err(ActorFault::Length) => unreachable!(),
    }
}

fn id_in(alloc: Global, actors: &mut SharedActors, id: IdRef<'_>) -> Result<OpId, AllocError>
    requires { IsWithin (id_of id) }
    ensures { IfOk result (λ copy. copy ≡ id_of id.entry) }
{
    Ok(OpId {
        counter: id.counter,
        actor: shared_in(alloc, actors, id.actor)?,
    })
}

fn object_in(
    alloc: Global,
    actors: &mut SharedActors,
    object: ObjRef<'_>,
) -> Result<ObjId, AllocError>
    requires { IsObjectWithin (object_of object) }
    ensures { IfOk result (λ copy. copy ≡ object_of object.entry) }
{
    match object {
        ObjRef::Root => Ok(ObjId::Root),
        ObjRef::Made(id) => Ok(ObjId::Made(id_in(alloc, actors, id)?)),
    }
}

fn key_in(alloc: Global, actors: &mut SharedActors, key: KeyRef<'_>) -> Result<Key, AllocError>
    requires { IsKeyWithin (key_of key) }
    ensures { IfOk result (λ copy. copy ≡ key_of key.entry) }
{
    match key {
        KeyRef::Name(name) => Ok(Key::Name(text_in(alloc, name)?)),
        KeyRef::Head => Ok(Key::Head),
        KeyRef::Elem(id) => Ok(Key::Elem(id_in(alloc, actors, id)?)),
    }
}

fn value_in(alloc: Global, value: ValueRef<'_>) -> Result<RawValue, AllocError>
    ensures { IfOk result (λ copy. copy ≡ value_of value.entry) }
{
    Ok(RawValue {
        kind: value.kind,
        raw: bytes_in(alloc, value.raw)?,
    })
}

fn mark_in(alloc: Global, mark: Option<&str>) -> Result<Option<Text>, AllocError>
    ensures { IfOk result (λ copy. copy ≡ option_map (λ s. s.now) mark.entry) }
{
    match mark {
        None => Ok(None),
        Some(name) => Ok(Some(text_in(alloc, name)?)),
    }
}

fn preds_in(
    alloc: Global,
    actors: &mut SharedActors,
    preds: &mut PredCursor<'_>,
) -> Result<List<OpId>, AllocError>
    requires { AllByRecursion IsWithin preds.old }
    ensures { IfOk result (λ copy. copy ≡ preds.old) }
{
    // (most operations have one at most, and what grows has room for four)
    let Some(first) = preds.next() else {
        return Ok(List::new(alloc));
    };
    let mut copy = Vec::with_capacity(alloc, 1)?;
    copy.push(id_in(alloc, actors, first)?)?;
    while let Some(id) = preds.next() {
        copy.push(id_in(alloc, actors, id)?)?;
    }
    Ok(List::from(copy))
}

// Appends an operation, owned. It is made where it is appended, since to hand it on costs as much as to copy its fields.
fn push_op(
    to: &mut Vec<Op>,
    alloc: Global,
    actors: &mut SharedActors,
    op: OpHead<'_>,
    preds: &mut PredCursor<'_>,
) -> Result<(), AllocError>
    requires { IsOpWithin (head_with op preds.old) }
    ensures { OnOk result (to.new.items ≡ to.old.items ++ head_with op.entry preds.old ∷ []) }
{
    let copy = Op {
        obj: object_in(alloc, actors, op.obj)?,
        key: key_in(alloc, actors, op.key)?,
        insert: op.insert,
        action: op.action,
        value: value_in(alloc, op.value)?,
        preds: preds_in(alloc, actors, preds)?,
        expand: op.expand,
        mark: mark_in(alloc, op.mark)?,
    };
    to.push(copy)?;
    Ok(())
}

// The operations, owned. The cursor, which is large, isn't moved.
fn ops_in(
    alloc: Global,
    actors: &mut SharedActors,
    ops: &mut OpCursor<'_>,
) -> Result<List<Op>, AllocError>
    requires { AllByRecursion IsOpWithin ops.old }
    ensures { IfOk result (λ copy. copy ≡ ops.old) }
{
    let mut copy = Vec::with_capacity(alloc, ops.left() as usize)?;
    let mut preds = PredCursor::none();
    while let Some(op) = ops.next_into(&mut preds) {
        push_op(&mut copy, alloc, actors, op, &mut preds)?;
    }
    Ok(List::from(copy))
}

// The change of these parts, owned, whose actors share their bytes with those that came before. It needn't be fine.
pub fn change_in(
    alloc: Global,
    actors: &mut SharedActors,
    front: &FrontRef<'_>,
    message: &str,
    ops: &mut OpCursor<'_>,
    extra: &[u8],
) -> Result<Change, AllocError>
    requires hashes { length front.now.hashes.now ≡ 32 * front.now.count }
    requires message { message.now ≡ front.now.message.now }
    requires some { 1 ≤ length front.now.actor.now }
    requires few { length front.now.actor.now ≤ longest_actor }
    requires within { AllByRecursion IsOpWithin ops.old }
    ensures { IfOk result (λ c. c ≡ change_with (front_of front.now) ops.old extra.now) }
{
    Ok(Change {
        deps: hashes_of(alloc, front.hashes, front.count)?,
        actor: shared_in(alloc, actors, front.actor)?,
        seq: front.seq,
        start: front.start,
        time: front.time,
        message: text_in(alloc, message)?,
        ops: ops_in(alloc, actors, ops)?,
        extra: bytes_in(alloc, extra)?,
    })
}
