//! Operations beside the places of their slots.
ghost use Rattle.std.specs.Prelude.{◌≡◌, List, length, map, OnOk, Contains};
ghost use Rattle.am_types.specs.Operations.{Operation, slot};
ghost use Rattle.am_types.specs.Order.{sorted_by};
ghost use Rattle.am_places.specs.Line.{IsLine, IsSlotHeld, line};
ghost use Rattle.am_places.specs.Numbered.{operation_of};
ghost use Rattle.am_places.specs.Placed.{IsPlaced, key_rank, placed_cmp, rank_cmp, slot_rank};
ghost use Rattle.am_places.specs.Rising.{Rise};
ghost use Rattle.am_places.specs.Sound.{Sound};

use crate::line::{Line, place_in};
use crate::numbered::Numbered;
use am_types::{Key, compare_ids, compare_objects};
use std::alloc::AllocError;
use std::cmp::Ordering;

/// A slot; of an element only its place in the line.
#[derive(Clone, Copy)]
pub enum Slot<'a> {
    Name(&'a str),
    Head,
    Element(u64),
}

/// An operation, and its slot.
#[derive(Clone, Copy)]
pub struct Placed<'a> {
    pub operation: Numbered<'a>,
    pub slot: Slot<'a>,
}

// What the operation gives a value to.
fn slot_of<'a>(places: &Line<'_>, x: Numbered<'a>, guess: usize) -> Slot<'a>
    requires rise { Rise (map operation_of places.now.elements.items) }
    requires count { length places.now.places.items ≡ length places.now.elements.items }
    requires held { IsSlotHeld (map operation_of places.now.elements.items) (slot (operation_of x)) }
    ensures { (A : List Operation) → IsLine A places.now → slot_rank result ≡ key_rank (line A) (slot (operation_of x.entry)) }
{
    if x.op.insert {
        return Slot::Element(place_in(places, x.id(), guess));
    }
    match &x.op.key {
        Key::Name(name) => Slot::Name(name.as_str()),
        Key::Head => Slot::Head,
        Key::Elem(id) => Slot::Element(place_in(places, id.lend(), guess)),
    }
}

/// One of the operations, beside the place of its slot. The guess is where the element of the slot may be among the
/// elements: near it that is found in constant time.
pub fn placed_near<'a>(
    operations: &[Numbered<'_>],
    places: &Line<'_>,
    x: Numbered<'a>,
    guess: usize,
) -> Placed<'a>
    requires sound { Sound (map operation_of operations.now) }
    requires line { IsLine (map operation_of operations.now) places.now }
    requires among { Contains (map operation_of operations.now) (operation_of x) }
    ensures placed { IsPlaced (map operation_of operations.now) result }
    ensures same { operation_of result.operation ≡ operation_of x.entry }
{
    let _count = operations.len();
    Placed {
        operation: x,
        slot: slot_of(places, x, guess),
    }
}

/// One of the operations, beside the place of its slot.
pub fn placed_in<'a>(operations: &[Numbered<'_>], places: &Line<'_>, x: Numbered<'a>) -> Placed<'a>
    requires sound { Sound (map operation_of operations.now) }
    requires line { IsLine (map operation_of operations.now) places.now }
    requires among { Contains (map operation_of operations.now) (operation_of x) }
    ensures placed { IsPlaced (map operation_of operations.now) result }
    ensures same { operation_of result.operation ≡ operation_of x.entry }
{
    placed_near(operations, places, x, places.elements.len())
}

/// The order of slots within one object.
#[tactic(auto, using(crate::proofs::PlaceOrder::then_equal))]
pub fn compare_slots(a: Slot<'_>, b: Slot<'_>) -> Ordering
    ensures { result ≡ rank_cmp (slot_rank a.entry) (slot_rank b.entry) }
{
    match (a, b) {
        (Slot::Name(x), Slot::Name(y)) => x.cmp(y),
        (Slot::Name(_), _) => Ordering::Less,
        (_, Slot::Name(_)) => Ordering::Greater,
        (Slot::Head, Slot::Head) => Ordering::Equal,
        (Slot::Head, Slot::Element(_)) => Ordering::Less,
        (Slot::Element(_), Slot::Head) => Ordering::Greater,
        (Slot::Element(i), Slot::Element(j)) => i.cmp(&j),
    }
}

/// The order of a document: by object, the root first, then by slot, then by id.
pub fn compare_placed(p: &Placed<'_>, q: &Placed<'_>) -> Ordering
    ensures { result ≡ placed_cmp p.now q.now }
{
    compare_objects(p.operation.op.obj.lend(), q.operation.op.obj.lend())
        .then(compare_slots(p.slot, q.slot))
        .then(compare_ids(p.operation.id(), q.operation.id()))
}

/// In the order of a document.
pub fn sort_placed(placed: &mut Vec<Placed<'_>>) -> Result<(), AllocError>
    ensures { OnOk result (placed.new.items ≡ sorted_by placed_cmp placed.old.items) }
{
    placed.sort_by(
        |p: &Placed<'_>, q: &Placed<'_>| -> Ordering
            ensures { result ≡ placed_cmp p.now q.now }
        { compare_placed(p, q) },
    )?;
    Ok(())
}
