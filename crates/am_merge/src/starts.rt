//! The operations that wait when the walk begins, in its order.
ghost use Rattle.std.specs.Prelude.{◌≡◌, ◌+◌, ◌*◌, ◌/◌, ◌^◌, ◌≤◌, OnOk, length, min};
ghost use Rattle.std.specs.Ordering.{nat_cmp, ordering_then};
ghost use Rattle.am_types.specs.Bytes.{IsBytes};
ghost use Rattle.am_types.specs.Order.{bytes_cmp, object_cmp, sorted_by};
ghost use Rattle.am_types.specs.Limits.{most_operations};
ghost use Rattle.am_places.specs.Numbered.{operation_of};
ghost use Rattle.am_merge.specs.Fronts.{front_at, is_root};
ghost use Rattle.am_merge.specs.Starts.{actor_in, by_placed, by_start, key_at, start_key, start_lane_cmp, turn_cmp};
ghost use Rattle.am_merge.specs.Walk.{lane_of, name_in, spot_of};

use crate::front::{compare_behind, front};
use crate::spot::compare_turns_of;
use am_places::Numbered;
use am_types::{Key, ObjId, compare_objects, same_actor, slice_known};
use std::alloc::AllocError;
use std::cmp::Ordering;
use std::marker::Model;
use std::mem::size_of;

// How many bytes of a name its front has.
const WIDTH: u8 = 16;

// The lane of insertions, the last one.
const INSERTIONS: u8 = 2;

// A front falls into two halves of 8 bytes.
const HALF: u128 = 1 << 64;

// What a key leaves out of a front, all but its first 62 bits.
const LEFT_OUT: u128 = 1 << 66;

// One lane of the root has so many keys.
const LANE: u64 = 1 << 62;

// Greater counters have one key, so that keys have room in 64 bits. No fine change has such a counter.
const LAST_COUNTER: u64 = 1 << 61;

// The key of all these.
const GREATEST_KEY: u64 = 3 * LANE + LAST_COUNTER;

/// An operation, lent, beside what mostly decides where it starts, so that mostly nothing is read of it. There is one for each
/// that starts, so it is to stay small. Contracts see the operation beside its place.
#[derive(Drop)]
pub struct Start<'t, 'a> {
    operation: &'t Numbered<'a>,
    /// What mostly decides alone.
    key: u64,
    /// The front of the name at which it stands, in two halves: as one number it would stand on multiples of 16 bytes.
    front_high: u64,
    front_low: u64,
    /// The actor of the object; the root has none.
    object_actor: &'a [u8],
    /// Where the operation stands.
    place: u32,
    in_root: bool,
    /// Names come first, and insertions last.
    lane: u8,
    /// How many bytes that name has, at most one more than its front; 0 where it stands at none.
    bytes: u8,
}

const _: () = prove!(size_of::<Start<'static, 'static>>() <= 56);

impl<'t, 'a> Model for Start<'t, 'a> {
    ghost use Rattle.std.specs.Prelude.{◌≡◌, ◌/◌, ◌%◌, ◌^◌, length, min};
    ghost use Rattle.am_types.specs.Bytes.{IsBytes};
    ghost use Rattle.am_places.specs.Numbered.{operation_of};
    ghost use Rattle.am_merge.specs.Fronts.{front_at, is_root};
    ghost use Rattle.am_merge.specs.Starts.{Placed, actor_in, key_at};
    ghost use Rattle.am_merge.specs.Walk.{lane_of, name_in};

    ghost Value = { Placed };

    ghost view = { λ s. record { operation = operation_of s.operation.now; place = s.place } };

    ghost invariant = { λ s. (s.key ≡ key_at (operation_of s.operation.now))
        × (s.front_high ≡ front_at (operation_of s.operation.now) / 2 ^ 64)
        × (s.front_low ≡ front_at (operation_of s.operation.now) % 2 ^ 64)
        × IsBytes (name_in (operation_of s.operation.now).op.key)
        × (s.lane ≡ lane_of (operation_of s.operation.now).op.insert (operation_of s.operation.now).op.key)
        × (s.in_root ≡ is_root (operation_of s.operation.now).op.obj)
        × (s.bytes ≡ min (length (name_in (operation_of s.operation.now).op.key)) 17)
        × (s.object_actor.now ≡ actor_in (operation_of s.operation.now).op.obj) };
}

// The name at which it stands.
fn name_of<'a>(x: &Numbered<'a>) -> &'a str
    ensures { result.now ≡ name_in (operation_of x.now).op.key }
{
    match &x.op.key {
        Key::Name(name) => name.as_str(),
        Key::Head => "",
        Key::Elem(_) => "",
    }
}

// How many bytes a name has, at most one more than its front.
fn bytes_of(name: &[u8]) -> u8
    ensures { result ≡ min (length name.now) 17 }
{
    name.len().min(17) as u8
}

// Names come first, and insertions last.
fn lane(x: &Numbered<'_>) -> u8
    ensures { result ≡ lane_of (operation_of x.now).op.insert (operation_of x.now).op.key }
{
    if x.op.insert {
        return INSERTIONS;
    }
    match &x.op.key {
        Key::Name(_) => 0,
        Key::Head => 1,
        Key::Elem(_) => 1,
    }
}

// Whether its object is the root.
fn is_in_root(x: &Numbered<'_>) -> bool
    ensures { result ≡ is_root (operation_of x.now).op.obj }
{
    match &x.op.obj {
        ObjId::Root => true,
        ObjId::Made(_) => false,
    }
}

// The actor of its object; the root has none.
fn object_actor<'a>(x: &Numbered<'a>) -> &'a [u8]
    ensures { result.now ≡ actor_in (operation_of x.now).op.obj }
{
    match &x.op.obj {
        ObjId::Root => &[],
        ObjId::Made(id) => id.actor.as_slice(),
    }
}

// In the root: the lane, and how the name begins.
fn key_in_root(lane: u8, front: u128) -> u64
    requires { lane ≤ 2 }
    ensures { result ≡ lane * 2 ^ 62 + front / 2 ^ 66 }
{
    lane as u64 * LANE + (front / LEFT_OUT) as u64
}

// In another object, which has this counter: behind the three lanes of the root.
fn key_in_object(counter: u64) -> u64
    ensures { result ≡ 3 * 2 ^ 62 + min counter (2 ^ 61) }
{
    3 * LANE + counter.min(LAST_COUNTER)
}

// What mostly decides alone.
fn key(obj: &ObjId, lane: u8, front: u128) -> u64
    requires { lane ≤ 2 }
    ensures { result ≡ start_key obj.now lane front }
{
    match obj {
        ObjId::Root => key_in_root(lane, front),
        ObjId::Made(id) => key_in_object(id.counter),
    }
}

// By the fronts of names, which are bytes.
fn compare_fronts(a: &Start<'_, '_>, b: &Start<'_, '_>) -> Ordering
    ensures order { result ≡ nat_cmp (front_at a.now.operation) (front_at b.now.operation) }
    ensures bytes { IsBytes (name_in a.now.operation.op.key) × IsBytes (name_in b.now.operation.op.key) }
{
    match a.front_high.cmp(&b.front_high) {
        Ordering::Less => Ordering::Less,
        Ordering::Equal => a.front_low.cmp(&b.front_low),
        Ordering::Greater => Ordering::Greater,
    }
}

// By name, where both names have one front.
fn compare_ends(a: &Start<'_, '_>, b: &Start<'_, '_>) -> Ordering
    requires { front_at a.now.operation ≡ front_at b.now.operation }
    ensures { result ≡ bytes_cmp (name_in a.now.operation.op.key) (name_in b.now.operation.op.key) }
{
    if a.bytes <= WIDTH && b.bytes <= WIDTH {
        return a.bytes.cmp(&b.bytes);
    }
    compare_behind(name_of(a.operation), name_of(b.operation))
}

// By name.
fn compare_names(a: &Start<'_, '_>, b: &Start<'_, '_>) -> Ordering
    ensures { result ≡ bytes_cmp (name_in a.now.operation.op.key) (name_in b.now.operation.op.key) }
{
    match compare_fronts(a, b) {
        Ordering::Less => Ordering::Less,
        Ordering::Equal => compare_ends(a, b),
        Ordering::Greater => Ordering::Greater,
    }
}

// By the turns of insertions, which alone are in the last lane.
fn compare_turns(a: &Start<'_, '_>, b: &Start<'_, '_>) -> Ordering
    ensures { result ≡ turn_cmp (spot_of a.now.operation) (spot_of b.now.operation) }
{
    if a.lane < INSERTIONS && b.lane < INSERTIONS {
        return Ordering::Equal;
    }
    compare_turns_of(a.operation, b.operation)
}

// Within one lane.
fn compare_in_lane(a: &Start<'_, '_>, b: &Start<'_, '_>) -> Ordering
    ensures { result ≡ ordering_then (bytes_cmp (name_in a.now.operation.op.key) (name_in b.now.operation.op.key)) (turn_cmp (spot_of a.now.operation) (spot_of b.now.operation)) }
{
    match compare_names(a, b) {
        Ordering::Less => Ordering::Less,
        Ordering::Equal => compare_turns(a, b),
        Ordering::Greater => Ordering::Greater,
    }
}

// By lane.
fn compare_lanes(a: &Start<'_, '_>, b: &Start<'_, '_>) -> Ordering
    ensures { result ≡ nat_cmp (lane_of a.now.operation.op.insert a.now.operation.op.key) (lane_of b.now.operation.op.insert b.now.operation.op.key) }
{
    a.lane.cmp(&b.lane)
}

// Within one object.
fn compare_in_object(a: &Start<'_, '_>, b: &Start<'_, '_>) -> Ordering
    ensures { result ≡ start_lane_cmp (spot_of a.now.operation) (spot_of b.now.operation) }
{
    match compare_lanes(a, b) {
        Ordering::Less => Ordering::Less,
        Ordering::Equal => compare_in_lane(a, b),
        Ordering::Greater => Ordering::Greater,
    }
}

// By object. A key below the greatest tells the counter: where the actors are the same too, neither operation is read.
fn compare_objects_of(a: &Start<'_, '_>, b: &Start<'_, '_>) -> Ordering
    requires { key_at a.now.operation ≡ key_at b.now.operation }
    ensures { result ≡ object_cmp a.now.operation.op.obj b.now.operation.op.obj }
{
    if a.in_root && b.in_root {
        return Ordering::Equal;
    }
    if !a.in_root
        && !b.in_root
        && a.key < GREATEST_KEY
        && same_actor(a.object_actor, b.object_actor)
    {
        return Ordering::Equal;
    }
    compare_objects(a.operation.op.obj.lend(), b.operation.op.obj.lend())
}

// Part by part.
fn compare_parts(a: &Start<'_, '_>, b: &Start<'_, '_>) -> Ordering
    requires { key_at a.now.operation ≡ key_at b.now.operation }
    ensures { result ≡ by_start a.now.operation b.now.operation }
{
    match compare_objects_of(a, b) {
        Ordering::Less => Ordering::Less,
        Ordering::Equal => compare_in_object(a, b),
        Ordering::Greater => Ordering::Greater,
    }
}

// Two with one key: in the root they are in one lane. It is kept apart, so that what the keys decide takes few steps.
#[inline(never)]
fn compare_tied(a: &Start<'_, '_>, b: &Start<'_, '_>) -> Ordering
    requires key { key_at a.now.operation ≡ key_at b.now.operation }
    requires bytes { IsBytes (name_in a.now.operation.op.key) × IsBytes (name_in b.now.operation.op.key) }
    ensures { result ≡ by_start a.now.operation b.now.operation }
{
    if a.in_root {
        return compare_in_lane(a, b);
    }
    compare_parts(a, b)
}

// The order of the walk, where what stands at one name is given in order: mostly by the keys alone.
fn compare_starts(a: &Start<'_, '_>, b: &Start<'_, '_>) -> Ordering
    ensures { result ≡ by_start a.now.operation b.now.operation }
{
    if a.key < b.key {
        return Ordering::Less;
    }
    if b.key < a.key {
        return Ordering::Greater;
    }
    compare_tied(a, b)
}

impl<'t, 'a> Start<'t, 'a> {
    /// The operation at a place, beside what decides.
    pub fn of(x: &'t Numbered<'a>, place: usize) -> Start<'t, 'a>
        requires { place ≤ most_operations }
        ensures { result ≡ record { operation = operation_of x.now; place = place } }
    {
        let name = name_of(x).as_bytes();
        slice_known(name);
        let lane = lane(x);
        let front = front(name);
        Start {
            operation: x,
            place: place as u32,
            key: key(&x.op.obj, lane, front),
            front_high: (front / HALF) as u64,
            front_low: (front % HALF) as u64,
            object_actor: object_actor(x),
            in_root: is_in_root(x),
            lane,
            bytes: bytes_of(name),
        }
    }

    /// Where it stands.
    pub fn place(&self) -> u32
        ensures { result ≡ self.now.place }
    {
        self.place
    }

    /// The operation.
    pub fn operation(&self) -> Numbered<'a>
        ensures { operation_of result ≡ self.now.operation }
    {
        *self.operation
    }
}

/// Sorts them by where they start. What ties stays in order: so those given in ascending id stand in the order of the walk.
pub fn sort_starts(all: &mut Vec<Start<'_, '_>>) -> Result<(), AllocError>
    ensures { OnOk result (all.new.items ≡ sorted_by by_placed all.old.items) }
{
    all.sort_by(
        |a: &Start<'_, '_>, b: &Start<'_, '_>| -> Ordering
            ensures { result ≡ by_placed a.now b.now }
        { compare_starts(a, b) },
    )?;
    Ok(())
}
