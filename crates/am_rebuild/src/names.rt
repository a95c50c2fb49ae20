//! The names of actors, ascending, and the place of each.
ghost use Rattle.std.specs.Prelude.{◌≡◌, Contains, IsTrue, IfOk};
ghost use Rattle.std.specs.List.Sorted.{IsStrictlySortedBy};
ghost use Rattle.std.specs.Ordering.{is_lt};
ghost use Rattle.am_types.specs.Order.{bytes_cmp};
ghost use Rattle.am_rebuild.specs.Names.{names_of, IsPlaceOf};

use am_types::{ActorId, compare_actors, same_actor};
use std::alloc::{AllocError, Global};
use std::cmp::Ordering;

/// The bytes of these actors.
pub(crate) fn names_in(alloc: Global, actors: &[ActorId]) -> Result<Vec<&[u8]>, AllocError>
    ensures { IfOk result (λ names. names_of names.items ≡ actors.now) }
{
    let mut names = Vec::new(alloc);
    for actor in actors {
        names.push(actor.as_slice())?;
    }
    Ok(names)
}

// Whether the actor stands at the place.
fn is_at(names: &[&[u8]], place: usize, actor: &[u8]) -> bool
    ensures { IsTrue result → IsPlaceOf (names_of names.now) actor.now place }
{
    match names.get(place) {
        None => false,
        Some(name) => same_actor(*name, actor),
    }
}

/// The place of an actor, which is often that of the last one.
pub(crate) fn place_of(names: &[&[u8]], last: usize, actor: &[u8]) -> usize
    requires sorted { IsStrictlySortedBy bytes_cmp (names_of names.now) }
    requires named { Contains (names_of names.now) actor.now }
    ensures { IsPlaceOf (names_of names.now) actor.now result }
{
    if is_at(names, last, actor) {
        return last;
    }
    names.partition_point(
        |name: &&[u8]| -> bool
            ensures { result ≡ is_lt (bytes_cmp name.now.now actor.entry.now) }
        { compare_actors(*name, actor) == Ordering::Less },
    )
}
