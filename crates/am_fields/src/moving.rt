//! Places that name one list of actors, written as places that name another.
ghost use Rattle.std.specs.Prelude.{◌≡◌, ◌+◌, ◌≤◌, ◌^◌, ◌++◌, Some, None, length, map, take, drop, IfSome, IfNone, OnOk, OnErr};
ghost use Rattle.am_fields.specs.Moving.{moved};

use crate::actors::Actors;
use crate::listed::ListedActors;
use crate::number_writer::NumberWriter;
use crate::numbers::NumberColumn;
use std::alloc::AllocError;

// Where the actor at a place of the known ones stands among the actors.
fn moved_place(known: &mut Actors<'_>, actors: &ListedActors<'_>, place: Option<u64>) -> Option<u64>
    ensures same { known.new ≡ known.old }
    ensures place { result ≡ moved known.old actors.now place }
{
    match place {
        None => None,
        Some(place) => match known.get(place) {
            None => None,
            Some(actor) => Some(actors.place(actor)),
        },
    }
}

/// Appends the next n places of the column, each as the place that its actor has among these. An actor is sought once for
/// each run.
pub fn move_places(
    places: &mut NumberWriter,
    from: &mut NumberColumn<'_>,
    known: &mut Actors<'_>,
    actors: &ListedActors<'_>,
    n: u64,
) -> Result<(), AllocError>
    requires room { IfSome places.old (λ items. length items + n ≤ 2 ^ 32) }
    requires enough { n ≤ length from.old }
    ensures same { known.new ≡ known.old }
    ensures failed { IfNone places.old (places.new ≡ None) }
    ensures ok { OnOk result (IfSome places.old (λ items. places.new ≡ Some (items ++ take n (map (moved known.old actors.now) from.old)))) }
    ensures behind { OnOk result (from.new ≡ drop n from.old) }
    ensures err { OnErr result (places.new ≡ None) }
{
    let mut left = n;
    while left > 0 {
        let (place, count) = from.next_alike_within(left);
        places.push_alike(moved_place(known, actors, place), count)?;
        left -= count;
    }
    Ok(())
}
