//! Where rows and new operations go in the walk over rows.
ghost use Rattle.std.specs.Prelude.{◌≡◌};
ghost use Rattle.std.specs.Ordering.{ordering_then};
ghost use Rattle.am_types.specs.Order.{bytes_cmp};
ghost use Rattle.am_types.specs.Views.{id_of, key_of};
ghost use Rattle.am_places.specs.Numbered.{operation_of};
ghost use Rattle.am_merge.specs.Spots.{spot_in};
ghost use Rattle.am_merge.specs.Starts.{turn_cmp};
ghost use Rattle.am_merge.specs.Walk.{falling_id, id_turn_cmp, lane_cmp, lane_of, name_in, rising_id, spot_cmp, spot_of};

use am_places::Numbered;
use am_types::{IdRef, KeyRef, ObjRef, compare_ids, compare_objects};
use std::cmp::Ordering;

/// What the walk compares of a row or of an operation, lent.
#[derive(Clone, Copy)]
pub struct SpotRef<'a> {
    pub obj: ObjRef<'a>,
    pub insert: bool,
    pub key: KeyRef<'a>,
    pub id: IdRef<'a>,
}

// What stands at names comes first, insertions come last.
fn lane(spot: &SpotRef<'_>) -> u8
    ensures { result ≡ lane_of spot.now.insert (key_of spot.now.key) }
{
    if spot.insert {
        return 2;
    }
    match spot.key {
        KeyRef::Name(_) => 0,
        KeyRef::Head => 1,
        KeyRef::Elem(_) => 1,
    }
}

fn name<'a>(spot: &SpotRef<'a>) -> &'a str
    ensures { result.now ≡ name_in (key_of spot.now.key) }
{
    match spot.key {
        KeyRef::Name(name) => name,
        KeyRef::Head => "",
        KeyRef::Elem(_) => "",
    }
}

fn rising<'a>(spot: &SpotRef<'a>) -> IdRef<'a>
    ensures { id_of result ≡ rising_id spot.now.insert (id_of spot.now.id) }
{
    if spot.insert {
        IdRef {
            counter: 0,
            actor: &[],
        }
    } else {
        spot.id
    }
}

fn falling<'a>(spot: &SpotRef<'a>) -> IdRef<'a>
    ensures { id_of result ≡ falling_id spot.now.insert (id_of spot.now.id) }
{
    if spot.insert {
        spot.id
    } else {
        IdRef {
            counter: 0,
            actor: &[],
        }
    }
}

// By the id: the least first, but of insertions the greatest.
fn compare_turns(a: &SpotRef<'_>, b: &SpotRef<'_>) -> Ordering
    ensures { result ≡ id_turn_cmp (spot_in a.now) (spot_in b.now) }
{
    match compare_ids(rising(a), rising(b)) {
        Ordering::Less => Ordering::Less,
        Ordering::Equal => compare_ids(falling(b), falling(a)),
        Ordering::Greater => Ordering::Greater,
    }
}

// Within one lane.
fn compare_names(a: &SpotRef<'_>, b: &SpotRef<'_>) -> Ordering
    ensures { result ≡ ordering_then (bytes_cmp (name_in (key_of a.now.key)) (name_in (key_of b.now.key))) (id_turn_cmp (spot_in a.now) (spot_in b.now)) }
{
    match name(a).cmp(name(b)) {
        Ordering::Less => Ordering::Less,
        Ordering::Equal => compare_turns(a, b),
        Ordering::Greater => Ordering::Greater,
    }
}

// Within one object.
fn compare_lanes(a: &SpotRef<'_>, b: &SpotRef<'_>) -> Ordering
    ensures { result ≡ lane_cmp (spot_in a.now) (spot_in b.now) }
{
    match lane(a).cmp(&lane(b)) {
        Ordering::Less => Ordering::Less,
        Ordering::Equal => compare_names(a, b),
        Ordering::Greater => Ordering::Greater,
    }
}

/// The order of the walk.
pub fn compare_spots(a: &SpotRef<'_>, b: &SpotRef<'_>) -> Ordering
    ensures { result ≡ spot_cmp (spot_in a.now) (spot_in b.now) }
{
    match compare_objects(a.obj, b.obj) {
        Ordering::Less => Ordering::Less,
        Ordering::Equal => compare_lanes(a, b),
        Ordering::Greater => Ordering::Greater,
    }
}

/// The spot of an operation.
pub fn spot<'a>(x: &Numbered<'a>) -> SpotRef<'a>
    ensures { spot_in result ≡ spot_of (operation_of x.now) }
{
    SpotRef {
        obj: x.op.obj.lend(),
        insert: x.op.insert,
        key: x.op.key.lend(),
        id: x.id(),
    }
}

/// The turns of two operations compared, of which most are no insertions: only those of insertions count.
pub fn compare_turns_of(a: &Numbered<'_>, b: &Numbered<'_>) -> Ordering
    ensures { result ≡ turn_cmp (spot_of (operation_of a.now)) (spot_of (operation_of b.now)) }
{
    if a.op.insert || b.op.insert {
        return compare_ids(falling(&spot(b)), falling(&spot(a)));
    }
    Ordering::Equal
}
