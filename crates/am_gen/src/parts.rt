//! Parts of generated operations.
ghost use Rattle.std.specs.Prelude.{◌≡◌, ◌≤◌, ◌<◌, ◌∷◌, [], IfOk, map};
ghost use Rattle.am_leb.specs.Leb.{uleb};
ghost use Rattle.am_types.specs.declared.Key.TheVariants.{Name};
ghost use Rattle.am_gen.specs.Made.{actor, id, value, the_text, set_in, last};

use am_leb::push_u;
use am_types::{
    ActorFault, ActorId, Bytes, Key, List, ObjId, OpId, RawValue, SharedActors, Text, kinds,
};
use std::alloc::{AllocError, Global};

/// The actor of this number. It is one of the actors that come again.
pub fn actor(alloc: Global, actors: &mut SharedActors, number: u64) -> Result<ActorId, AllocError>
    ensures { IfOk result (λ a. a ≡ actor number) }
{
    let byte = if number == 0 {
        0xa1
    } else if number == 1 {
        0xb2
    } else {
        0xc3
    };
    match actors.of(alloc, &[byte]) {
        Ok(actor) => Ok(actor),
        Err(ActorFault::NoMemory) => Err(AllocError),
        Err(ActorFault::Length) => unreachable!(),
    }
}

/// An id of this actor.
pub fn id(
    alloc: Global,
    actors: &mut SharedActors,
    counter: u64,
    number: u64,
) -> Result<OpId, AllocError>
    ensures { IfOk result (λ i. i ≡ id counter number) }
{
    let actor = actor(alloc, actors, number)?;
    Ok(OpId { counter, actor })
}

/// The text that all write.
pub fn the_text(alloc: Global, actors: &mut SharedActors) -> Result<ObjId, AllocError>
    ensures { IfOk result (λ object. object ≡ the_text) }
{
    Ok(ObjId::Made(id(alloc, actors, 1, 0)?))
}

/// A key of a map.
pub fn key(alloc: Global, name: &str) -> Result<Key, AllocError>
    ensures { IfOk result (λ key. key ≡ Name name.now) }
{
    Ok(Key::Name(Text::copy_of(alloc, name)?))
}

/// A value.
pub fn value(alloc: Global, kind: u8, bytes: &[u8]) -> Result<RawValue, AllocError>
    ensures { IfOk result (λ v. v ≡ value kind bytes.now) }
{
    Ok(RawValue {
        kind,
        raw: Bytes::copy_of(alloc, bytes)?,
    })
}

/// An unsigned number.
pub fn number(alloc: Global, n: u64) -> Result<RawValue, AllocError>
    ensures { IfOk result (λ v. v ≡ value 3 (uleb n)) }
{
    let mut bytes = Vec::new(alloc);
    push_u(&mut bytes, n)?;
    value(alloc, kinds::UNSIGNED, &bytes)
}

/// No ids.
pub fn none(alloc: Global) -> List<OpId>
    ensures { result ≡ [] }
{
    List::new(alloc)
}

/// One id.
pub fn one(alloc: Global, id: OpId) -> Result<List<OpId>, AllocError>
    ensures { IfOk result (λ ids. ids ≡ id ∷ []) }
{
    let mut ids = List::new(alloc);
    ids.push(id)?;
    Ok(ids)
}

/// What the three changes of a round set the key k to.
pub fn set_in(
    alloc: Global,
    actors: &mut SharedActors,
    round: u64,
) -> Result<List<OpId>, AllocError>
    requires { round ≤ 100000 }
    ensures { IfOk result (λ ids. ids ≡ set_in round) }
{
    let counter = 3 * round + 2;
    let mut ids = List::new(alloc);
    ids.push(id(alloc, actors, counter, 0)?)?;
    ids.push(id(alloc, actors, counter, 1)?)?;
    ids.push(id(alloc, actors, counter, 2)?)?;
    Ok(ids)
}

/// The element that the actor inserted in the round before.
pub fn last(
    alloc: Global,
    actors: &mut SharedActors,
    round: u64,
    number: u64,
) -> Result<OpId, AllocError>
    requires some { 1 ≤ round }
    requires few { round ≤ 100000 }
    ensures { IfOk result (λ i. i ≡ last round number) }
{
    id(alloc, actors, 3 * round - 3, number)
}
