//! What added operations name, in tables that are searched by it.
ghost use Rattle.std.specs.Prelude.{◌≡◌, ◌≤◌, ◌<◌, List, false, filter, length, map, slice_index_or, slice_range, true, IfSome};
ghost use Rattle.std.specs.List.{AllWithin};
ghost use Rattle.std.specs.Ordering.{is_le, is_lt, ordering_then};
ghost use Rattle.am_types.specs.Order.{bytes_cmp, object_cmp, sorted_by};
ghost use Rattle.am_types.specs.Views.{id_of, object_of};
ghost use Rattle.am_merge.specs.Naming.{IsSeam, Named, is_named, key_cmp, named_cmp, named_key, named_of, predecessors};
ghost use Rattle.am_merge.specs.Walk.{hanging};
ghost use Rattle.am_merge.specs.declared.naming.Naming.{Naming as ANaming};

use crate::guide::Guide;
use am_places::Numbered;
use am_types::{IdRef, ObjRef, compare_actors, compare_objects};
use std::cmp::Ordering;
use std::mem::size_of;

/// An added operation beside what it names: an element of an object, or a predecessor. There is one for nearly each operation,
/// so it is to stay small.
#[derive(Clone, Copy)]
pub struct Naming<'a> {
    /// Whether it is an element, of the operation's object; a predecessor is looked up by its id alone, as if in the root.
    pub hangs: bool,
    pub id: IdRef<'a>,
    pub operation: Numbered<'a>,
}

const _: () = prove!(size_of::<Naming<'static>>() <= 56);

/// Added operations by their predecessors, and those that name elements by these; and where to look for what.
#[derive(Drop)]
pub struct Tables<'a> {
    pub named: Vec<Naming<'a>>,
    pub hanging: Vec<Naming<'a>>,
    pub named_guide: Guide,
    pub hanging_guide: Guide,
}

// How far past a guess a place is sought before it is sought in a whole table.
const REACH: usize = 12;

// The object of the element, or the root.
fn object_named<'a>(n: &Naming<'a>) -> ObjRef<'a>
    ensures { object_of result ≡ (named_of n.now).obj }
{
    if n.hangs {
        return n.operation.op.obj.lend();
    }
    ObjRef::Root
}

// By the actor of the id, then by object. (Counters tell mostly, and are compared in place: this stays apart.)
#[inline(never)]
fn compare_rest(n: &Naming<'_>, obj: ObjRef<'_>, id: IdRef<'_>) -> Ordering
    ensures { result ≡ ordering_then (bytes_cmp (named_of n.now).id.actor (id_of id.entry).actor) (object_cmp (named_of n.now).obj (object_of obj.entry)) }
{
    match compare_actors(n.id.actor, id.actor) {
        Ordering::Less => Ordering::Less,
        Ordering::Equal => compare_objects(object_named(n), obj),
        Ordering::Greater => Ordering::Greater,
    }
}

// By the id that is named, then by object. Counters tell most.
#[inline(always)]
fn compare_named(n: &Naming<'_>, obj: ObjRef<'_>, id: IdRef<'_>) -> Ordering
    ensures { result ≡ key_cmp (named_key (named_of n.now)) (object_of obj.entry, id_of id.entry) }
{
    match n.id.counter.cmp(&id.counter) {
        Ordering::Less => Ordering::Less,
        Ordering::Equal => compare_rest(n, obj, id),
        Ordering::Greater => Ordering::Greater,
    }
}

/// By what is named.
#[inline(always)]
pub fn compare_namings(a: &Naming<'_>, b: &Naming<'_>) -> Ordering
    ensures { result ≡ named_cmp (named_of a.now) (named_of b.now) }
{
    compare_named(a, object_named(b), b.id)
}

// What names a lesser id, or this one in an object before.
#[inline(always)]
fn names_less(n: &Naming<'_>, obj: ObjRef<'_>, id: IdRef<'_>) -> bool
    ensures { result ≡ is_lt (key_cmp (named_key (named_of n.now)) (object_of obj.entry, id_of id.entry)) }
{
    compare_named(n, obj, id).is_lt()
}

// What names this id, or what is before it.
#[inline(always)]
fn names_up_to(n: &Naming<'_>, obj: ObjRef<'_>, id: IdRef<'_>) -> bool
    ensures { result ≡ is_le (key_cmp (named_key (named_of n.now)) (object_of obj.entry, id_of id.entry)) }
{
    compare_named(n, obj, id).is_le()
}

// Where what names less ends, if that is a few steps behind a place, and whether the id is named there.
#[inline(always)]
fn seam_near(
    table: &[Naming<'_>],
    near: usize,
    obj: ObjRef<'_>,
    id: IdRef<'_>,
) -> Option<(usize, bool)>
    ensures seam { IfSome result (λ r. IsSeam (λ n. is_lt (key_cmp (named_key (named_of n)) (object_of obj.entry, id_of id.entry))) table.now r.0) }
    ensures none { IfSome result (λ r. r.1 ≡ false → (d : ANaming) → r.0 < length table.now → is_le (key_cmp (named_key (named_of (slice_index_or table.now r.0 d))) (object_of obj.entry, id_of id.entry)) ≡ false) }
    ensures within { IfSome result (λ r. r.1 ≡ true → r.0 < length table.now) }
    ensures there { IfSome result (λ r. r.1 ≡ true → (d : ANaming) → is_le (key_cmp (named_key (named_of (slice_index_or table.now r.0 d))) (object_of obj.entry, id_of id.entry)) ≡ true) }
{
    if near > table.len() {
        return None;
    }
    if near > 0 && !names_less(&table[near - 1], obj, id) {
        return None;
    }
    let mut at = near;
    let mut steps = 0;
    while steps < REACH {
        if at == table.len() {
            return Some((at, false));
        }
        match compare_named(&table[at], obj, id) {
            Ordering::Less => at += 1,
            Ordering::Equal => return Some((at, true)),
            Ordering::Greater => return Some((at, false)),
        }
        steps += 1;
    }
    None
}

// Up to where a table names this id, from its first place on: each place that does is looked at.
#[inline(always)]
fn end_from(table: &[Naming<'_>], first: usize, obj: ObjRef<'_>, id: IdRef<'_>) -> usize
    requires { first ≤ length table.now }
    ensures order { first ≤ result }
    ensures bound { result ≤ length table.now }
    ensures within { AllWithin (λ n. is_le (key_cmp (named_key (named_of n)) (object_of obj.entry, id_of id.entry)) ≡ true) table.now first result }
    ensures behind { (d : ANaming) → result < length table.now → is_le (key_cmp (named_key (named_of (slice_index_or table.now result d))) (object_of obj.entry, id_of id.entry)) ≡ false }
{
    let mut last = first;
    while last < table.len() && names_up_to(&table[last], obj, id) {
        last += 1;
    }
    last
}

// From where to where a sorted table names this id in this object, sought in all of it.
fn range_in(table: &[Naming<'_>], obj: ObjRef<'_>, id: IdRef<'_>) -> (usize, usize)
    ensures order { result.0 ≤ result.1 }
    ensures bound { result.1 ≤ length table.now }
    ensures named { (xs : List Named) → map named_of table.now ≡ sorted_by named_cmp xs → map named_of (slice_range table.now result.0 result.1) ≡ filter (is_named (object_of obj.entry) (id_of id.entry)) xs }
{
    let first = table.partition_point(|n| names_less(n, obj, id));
    let last = end_from(table, first, obj, id);
    (first, last)
}

/// From where to where a sorted table names this id in this object. A place behind which it may be is looked at before it is
/// sought.
pub fn range_of(table: &[Naming<'_>], near: usize, obj: ObjRef<'_>, id: IdRef<'_>) -> (usize, usize)
    ensures order { result.0 ≤ result.1 }
    ensures bound { result.1 ≤ length table.now }
    ensures named { (xs : List Named) → map named_of table.now ≡ sorted_by named_cmp xs → map named_of (slice_range table.now result.0 result.1) ≡ filter (is_named (object_of obj.entry) (id_of id.entry)) xs }
{
    let Some((first, is_there)) = seam_near(table, near, obj, id) else {
        return range_in(table, obj, id);
    };
    if is_there {
        let last = end_from(table, first + 1, obj, id);
        return (first, last);
    }
    (first, first)
}

/// What a sorted table has of those that name this id in this object, sought near a place first.
pub fn named_in<'t, 'a>(
    table: &'t [Naming<'a>],
    near: usize,
    obj: ObjRef<'_>,
    id: IdRef<'_>,
) -> &'t [Naming<'a>]
    ensures { (xs : List Named) → map named_of table.now ≡ sorted_by named_cmp xs → map named_of result.now ≡ filter (is_named (object_of obj.entry) (id_of id.entry)) xs }
{
    let range = range_of(table, near, obj, id);
    &table[range.0..range.1]
}
