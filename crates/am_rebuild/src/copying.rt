//! Copying what is lent from a document: actors, change rows, and the fields of rows.
ghost use Rattle.std.specs.Prelude.{◌≡◌, option_map, IfOk};
ghost use Rattle.std.specs.List.{AllByRecursion};
ghost use Rattle.am_types.specs.Views.{id_of, object_of, key_of, value_of};
ghost use Rattle.am_fields.specs.Limits.{IsShortActor};
ghost use Rattle.am_doccols.specs.Metas.{meta_of};
ghost use Rattle.am_rebuild.specs.Copied.{IsObjectShort, IsKeyShort};

use am_colmeta::ActorList;
use am_doccols::{IndexCursor, MetaCursor, MetaRef};
use am_types::{
    ActorFault, ActorId, Bytes, IdRef, Key, KeyRef, List, Meta, ObjId, ObjRef, OpId, RawValue,
    SharedActors, Text, ValueRef,
};
use std::alloc::{AllocError, Global};

// The actor, owned, which shares its bytes with those that came before.
fn actor_in(alloc: Global, known: &mut SharedActors, bytes: &[u8]) -> Result<ActorId, AllocError>
    requires { IsShortActor bytes.now }
    ensures { IfOk result (λ actor. actor ≡ bytes.now) }
{
    match known.of(alloc, bytes) {
        Ok(actor) => Ok(actor),
        Err(ActorFault::NoMemory) => Err(AllocError),
        Err(ActorFault::Length) => unreachable!(),
    }
}

/// The actors, owned.
pub(crate) fn actors_in(alloc: Global, actors: ActorList<'_>) -> Result<List<ActorId>, AllocError>
    requires { AllByRecursion IsShortActor actors }
    ensures { IfOk result (λ copy. copy ≡ actors.entry) }
{
    let mut known = SharedActors::new(alloc);
    let mut copy = List::new(alloc);
    let mut rest = actors;
    while let Some(actor) = rest.next() {
        copy.push(actor_in(alloc, &mut known, actor)?)?;
    }
    Ok(copy)
}

/// The id, owned.
pub(crate) fn id_in(
    alloc: Global,
    known: &mut SharedActors,
    id: IdRef<'_>,
) -> Result<OpId, AllocError>
    requires { IsShortActor (id_of id).actor }
    ensures { IfOk result (λ copy. copy ≡ id_of id.entry) }
{
    Ok(OpId {
        counter: id.counter,
        actor: actor_in(alloc, known, id.actor)?,
    })
}

/// The object, owned.
pub(crate) fn object_in(
    alloc: Global,
    known: &mut SharedActors,
    object: ObjRef<'_>,
) -> Result<ObjId, AllocError>
    requires { IsObjectShort (object_of object) }
    ensures { IfOk result (λ copy. copy ≡ object_of object.entry) }
{
    match object {
        ObjRef::Root => Ok(ObjId::Root),
        ObjRef::Made(id) => Ok(ObjId::Made(id_in(alloc, known, id)?)),
    }
}

/// The place within the object, owned.
pub(crate) fn key_in(
    alloc: Global,
    known: &mut SharedActors,
    key: KeyRef<'_>,
) -> Result<Key, AllocError>
    requires { IsKeyShort (key_of key) }
    ensures { IfOk result (λ copy. copy ≡ key_of key.entry) }
{
    match key {
        KeyRef::Name(name) => Ok(Key::Name(Text::copy_of(alloc, name)?)),
        KeyRef::Head => Ok(Key::Head),
        KeyRef::Elem(id) => Ok(Key::Elem(id_in(alloc, known, id)?)),
    }
}

/// The value, owned.
pub(crate) fn value_in(alloc: Global, value: ValueRef<'_>) -> Result<RawValue, AllocError>
    ensures { IfOk result (λ copy. copy ≡ value_of value.entry) }
{
    Ok(RawValue {
        kind: value.kind,
        raw: Bytes::copy_of(alloc, value.raw)?,
    })
}

/// The name of a mark, owned.
pub(crate) fn mark_in(alloc: Global, mark: Option<&str>) -> Result<Option<Text>, AllocError>
    ensures { IfOk result (λ copy. copy ≡ option_map (λ s. s.now) mark.entry) }
{
    match mark {
        None => Ok(None),
        Some(name) => Ok(Some(Text::copy_of(alloc, name)?)),
    }
}

fn deps_in(alloc: Global, deps: IndexCursor<'_>) -> Result<List<u64>, AllocError>
    ensures { IfOk result (λ copy. copy ≡ deps.entry) }
{
    let mut copy = List::new(alloc);
    let mut rest = deps;
    while let Some(place) = rest.next() {
        copy.push(place)?;
    }
    Ok(copy)
}

fn meta_in(alloc: Global, known: &mut SharedActors, meta: MetaRef<'_>) -> Result<Meta, AllocError>
    requires { IsShortActor (meta_of meta).actor }
    ensures { IfOk result (λ copy. copy ≡ meta_of meta.entry) }
{
    Ok(Meta {
        actor: actor_in(alloc, known, meta.actor)?,
        seq: meta.seq,
        max: meta.max,
        time: meta.time,
        message: Text::copy_of(alloc, meta.message)?,
        deps: deps_in(alloc, meta.deps)?,
        extra: Bytes::copy_of(alloc, meta.extra)?,
    })
}

/// The change rows, owned.
pub(crate) fn metas_in(alloc: Global, metas: MetaCursor<'_>) -> Result<List<Meta>, AllocError>
    requires { AllByRecursion (λ m. IsShortActor m.actor) metas }
    ensures { IfOk result (λ copy. copy ≡ metas.entry) }
{
    let mut known = SharedActors::new(alloc);
    let mut copy = List::new(alloc);
    let mut rest = metas;
    while let Some(meta) = rest.next() {
        copy.push(meta_in(alloc, &mut known, meta)?)?;
    }
    Ok(copy)
}
