//! The actors of a larger set.
ghost use Rattle.std.specs.Prelude.{◌≡◌, ◌++◌, All, IfOk, OnOk, map};
ghost use Rattle.std.specs.List.{dedup};
ghost use Rattle.am_types.specs.Order.{bytes_cmp, sorted_by};
ghost use Rattle.am_types.specs.Same.{same_bytes};
ghost use Rattle.am_fields.specs.Limits.{IsShortActor};

use am_colmeta::ActorList;
use am_doc::{DocRef, spelled_tables_are_sound};
use am_types::{ActorFault, ActorId, Change, List};
use std::alloc::{AllocError, Global};

// The bytes of the actors of a list.
fn listed<'a>(alloc: Global, old: ActorList<'a>) -> Result<Vec<&'a [u8]>, AllocError>
    ensures { IfOk result (λ names. map (λ a. a.now) names.items ≡ old.entry) }
{
    let mut names = Vec::new(alloc);
    let mut rest = old;
    while let Some(actor) = rest.next() {
        names.push(actor)?;
    }
    Ok(names)
}

// Appends the bytes of each change's author.
fn push_authors<'a>(names: &mut Vec<&'a [u8]>, added: &[&'a Change]) -> Result<(), AllocError>
    ensures names { OnOk result (map (λ a. a.now) names.new.items ≡ map (λ a. a.now) names.old.items ++ map (λ c. c.now.actor) added.now) }
    ensures short { OnOk result (All (λ c. IsShortActor c.now.actor) added.now) }
{
    for i in 0..added.len() {
        names.push(added[i].actor.as_slice())?;
    }
    Ok(())
}

// The actor with these bytes.
fn actor_of(alloc: Global, bytes: &[u8]) -> Result<ActorId, AllocError>
    requires { IsShortActor bytes.now }
    ensures { IfOk result (λ actor. actor ≡ bytes.now) }
{
    match ActorId::of(alloc, bytes) {
        Ok(actor) => Ok(actor),
        Err(ActorFault::NoMemory) => Err(AllocError),
        Err(ActorFault::Length) => unreachable!(),
    }
}

// The actors with these bytes.
fn actors_of(alloc: Global, all: &[&[u8]]) -> Result<List<ActorId>, AllocError>
    requires { All (λ a. IsShortActor a.now) all.now }
    ensures { IfOk result (λ actors. actors ≡ map (λ a. a.now) all.now) }
{
    let mut actors = List::new(alloc);
    for i in 0..all.len() {
        let actor = actor_of(alloc, all[i])?;
        actors.push(actor)?;
    }
    Ok(actors)
}

// The actors with these bytes, ascending, each once.
fn once(alloc: Global, all: Vec<&[u8]>) -> Result<List<ActorId>, AllocError>
    requires { All (λ a. IsShortActor a.now) all.items }
    ensures { IfOk result (λ actors. actors ≡ dedup same_bytes (sorted_by bytes_cmp (map (λ a. a.now) all.entry.items))) }
{
    let mut names = all;
    names.sort_unstable();
    names.dedup();
    actors_of(alloc, names.as_slice())
}

/// The actors of a document and the authors of the changes, ascending, each once.
pub fn actors_once(
    alloc: Global,
    doc: &DocRef<'_>,
    added: &[&Change],
) -> Result<List<ActorId>, AllocError>
    ensures { IfOk result (λ actors. actors ≡ dedup same_bytes (sorted_by bytes_cmp (doc.now.actors ++ map (λ c. c.now.actor) added.now))) }
{
    doc.is_spelled();
    spelled_tables_are_sound();
    let mut names = listed(alloc, doc.actors())?;
    push_authors(&mut names, added)?;
    once(alloc, names)
}

/// The authors of the changes, ascending, each once.
pub fn authors_once(alloc: Global, changes: &[&Change]) -> Result<List<ActorId>, AllocError>
    ensures { IfOk result (λ actors. actors ≡ dedup same_bytes (sorted_by bytes_cmp (map (λ c. c.now.actor) changes.now))) }
{
    let mut names = Vec::new(alloc);
    push_authors(&mut names, changes)?;
    once(alloc, names)
}
