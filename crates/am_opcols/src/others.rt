//! The actors that operations name beside the author.
ghost use Rattle.std.specs.Prelude.{◌≡◌, ◌↔◌, ◌∷◌, [], List, ℕ, map, IfOk, OnOk};
ghost use Rattle.std.specs.List.{flat_map, AllByRecursion};
ghost use Rattle.std.specs.Option.{option_to_list};
ghost use Rattle.am_types.specs.Order.{bytes_cmp};
ghost use Rattle.am_types.specs.Same.{same_bytes};
ghost use Rattle.am_types.specs.Views.{object_of, key_of};
ghost use Rattle.am_fields.specs.Actors.{IsListed};
ghost use Rattle.am_fields.specs.Layout.{object_actor, key_actor};
ghost use Rattle.am_fields.specs.Limits.{IsShortActor};
ghost use Rattle.am_opcols.specs.Chains.{Chain};
ghost use Rattle.am_opcols.specs.Columns.{AreOpsWithin};
ghost use Rattle.am_opcols.specs.Noted.{Notes};
ghost use Rattle.am_opcols.specs.Others.{actors_of, others};

use crate::listed::is_same;
use am_types::{ActorFault, ActorId, KeyRef, ObjRef, ReadOp, compare_actors, same_actor};
use std::alloc::{AllocError, Global};
use std::cmp::Ordering;

// Notes an actor, unless it is the author or the one that was noted last.
fn note<'a>(noted: &mut Vec<&'a [u8]>, author: &[u8], actor: &'a [u8]) -> Result<(), AllocError>
    ensures { OnOk result (Notes author.now (actor.now ∷ []) (map (λ a. a.now) noted.old.items) (map (λ a. a.now) noted.new.items)) }
{
    if is_same(actor, author) {
        return Ok(());
    }
    let count = noted.len();
    if count > 0 && is_same(actor, noted[count - 1]) {
        return Ok(());
    }
    noted.push(actor)?;
    Ok(())
}

// Notes the actor of an object, if it has one.
fn note_object<'a>(
    noted: &mut Vec<&'a [u8]>,
    author: &[u8],
    object: ObjRef<'a>,
) -> Result<(), AllocError>
    ensures { OnOk result (Notes author.now (option_to_list (object_actor (object_of object.entry))) (map (λ a. a.now) noted.old.items) (map (λ a. a.now) noted.new.items)) }
{
    match object {
        ObjRef::Root => Ok(()),
        ObjRef::Made(id) => note(noted, author, id.actor),
    }
}

// Notes the actor of a key, if it has one.
fn note_key<'a>(noted: &mut Vec<&'a [u8]>, author: &[u8], key: KeyRef<'a>) -> Result<(), AllocError>
    ensures { OnOk result (Notes author.now (option_to_list (key_actor (key_of key.entry))) (map (λ a. a.now) noted.old.items) (map (λ a. a.now) noted.new.items)) }
{
    match key {
        KeyRef::Name(_) => Ok(()),
        KeyRef::Head => Ok(()),
        KeyRef::Elem(id) => note(noted, author, id.actor),
    }
}

// Notes the actors of an operation's predecessors.
fn note_preds<'a, O: ReadOp>(
    noted: &mut Vec<&'a [u8]>,
    author: &[u8],
    op: &'a O,
) -> Result<(), AllocError>
    ensures { OnOk result (Notes author.now (map (λ id. id.actor) (O.op op.now).preds) (map (λ a. a.now) noted.old.items) (map (λ a. a.now) noted.new.items)) }
{
    for i in 0..op.pred_count() {
        note(noted, author, op.pred(i).actor)?;
    }
    Ok(())
}

// Notes the actors that an operation names.
fn note_op<'a, O: ReadOp>(
    noted: &mut Vec<&'a [u8]>,
    author: &[u8],
    op: &'a O,
) -> Result<(), AllocError>
    ensures { OnOk result (Notes author.now (actors_of (O.op op.now)) (map (λ a. a.now) noted.old.items) (map (λ a. a.now) noted.new.items)) }
{
    note_object(noted, author, op.obj())?;
    note_key(noted, author, op.key())?;
    note_preds(noted, author, op)
}

// The actors that operations name, without the author, as they come.
fn noted_in<'a, O: ReadOp>(
    alloc: Global,
    author: &[u8],
    ops: &'a [O],
) -> Result<Vec<&'a [u8]>, AllocError>
    ensures { IfOk result (λ noted. Notes author.now (flat_map actors_of (map O.op ops.now)) [] (map (λ a. a.now) noted.items)) }
{
    let mut noted = Vec::new(alloc);
    for op in ops {
        note_op(&mut noted, author, op)?;
    }
    Ok(noted)
}

// Sorts actors, and leaves each once.
fn sort_once(actors: &mut Vec<&[u8]>) -> Result<(), AllocError>
    ensures up { OnOk result (Chain bytes_cmp (map (λ a. a.now) actors.new.items)) }
    ensures members { OnOk result ((a : List ℕ) → IsListed (map (λ a. a.now) actors.new.items) a ↔ IsListed (map (λ a. a.now) actors.old.items) a) }
{
    actors.sort_by(
        |a: &&[u8], b: &&[u8]| -> Ordering
            ensures { result ≡ bytes_cmp a.now.now b.now.now }
        { compare_actors(a, b) },
    )?;
    actors.dedup_by(
        |a: &mut &[u8], b: &mut &[u8]| -> bool
            ensures same { result ≡ same_bytes a.old.now b.old.now }
            ensures left { a.new ≡ a.old }
            ensures right { b.new ≡ b.old }
        { same_actor(a, b) },
    );
    Ok(())
}

// The actor, owned.
fn actor_in(alloc: Global, bytes: &[u8]) -> Result<ActorId, AllocError>
    requires { IsShortActor bytes.now }
    ensures { IfOk result (λ actor. actor ≡ bytes.now) }
{
    match ActorId::of(alloc, bytes) {
        Ok(actor) => Ok(actor),
        Err(ActorFault::NoMemory) => Err(AllocError),
        Err(ActorFault::Length) => unreachable!(),
    }
}

// The actors, owned.
fn copies_of(alloc: Global, actors: &[&[u8]]) -> Result<Vec<ActorId>, AllocError>
    requires { AllByRecursion IsShortActor (map (λ a. a.now) actors.now) }
    ensures { IfOk result (λ copies. copies.items ≡ map (λ a. a.now) actors.now) }
{
    let mut copies = Vec::with_capacity(alloc, actors.len())?;
    for i in 0..actors.len() {
        let actor = actor_in(alloc, actors[i])?;
        copies.push(actor)?;
    }
    Ok(copies)
}

// The actors that operations name, without the author, ascending.
pub fn others_in<'a, O: ReadOp>(
    alloc: Global,
    ops: &'a [O],
    author: &[u8],
) -> Result<Vec<&'a [u8]>, AllocError>
    ensures { IfOk result (λ named. map (λ a. a.now) named.items ≡ others author.now (map O.op ops.now)) }
{
    let mut noted = noted_in(alloc, author, ops)?;
    sort_once(&mut noted)?;
    Ok(noted)
}

// The same, owned.
pub fn others_of<O: ReadOp>(
    alloc: Global,
    ops: &[O],
    author: &[u8],
) -> Result<Vec<ActorId>, AllocError>
    requires { AreOpsWithin (map O.op ops.now) }
    ensures { IfOk result (λ known. known.items ≡ others author.now (map O.op ops.now)) }
{
    let named = others_in(alloc, ops, author)?;
    copies_of(alloc, &named)
}
