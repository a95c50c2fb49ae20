//! The elements of all lists and texts in one line, and where each stands in it.
ghost use Rattle.std.specs.Prelude.{ℕ, ◌≡◌, ◌≤◌, ◌<◌, ◌++◌, ◌∷◌, [], List, filter, fold, length, map, IfOk};
ghost use Rattle.std.specs.List.{position_or_len};
ghost use Rattle.am_types.specs.Operations.{Operation};
ghost use Rattle.am_types.specs.declared.OpId.{OpId};
ghost use Rattle.am_types.specs.Same.{same_id};
ghost use Rattle.am_types.specs.Views.{id_of};
ghost use Rattle.am_types.specs.Limits.{most_operations};
ghost use Rattle.am_chain.specs.Sequences.{IsStanding, key_of_node};
ghost use Rattle.am_places.specs.Line.{AreAnchored, IsAnchoredIn, IsHeld, IsLine, is_insertion, line, places_of, put};
ghost use Rattle.am_places.specs.Numbered.{ids_of, operation_of};
ghost use Rattle.am_places.specs.Rising.{Rise};

use crate::numbered::{Numbered, find_near};
use am_chain::Chain;
use am_types::{IdRef, Key};
use std::alloc::{AllocError, Global};

/// The insertions in ascending id, the place of each in the line, and how long the line is.
#[derive(Drop)]
pub struct Line<'a> {
    pub elements: Vec<Numbered<'a>>,
    pub places: Vec<Option<u64>>,
    pub count: u64,
}

// The insertions among the operations.
fn insertions<'a>(
    alloc: Global,
    operations: &[Numbered<'a>],
) -> Result<Vec<Numbered<'a>>, AllocError>
    ensures { IfOk result (λ found. map operation_of found.items ≡ filter is_insertion (map operation_of operations.now)) }
{
    let mut found = Vec::new(alloc);
    for x in operations {
        if x.op.insert {
            found.push(*x)?;
        }
    }
    Ok(found)
}

// The node behind which the insertion goes.
fn reference(before: &[Numbered<'_>], x: &Numbered<'_>) -> Option<u32>
    requires rise { Rise (map operation_of before.now) }
    requires anchored { IsAnchoredIn (map operation_of before.now) (operation_of x.now).op.key }
    requires few { length before.now < most_operations }
    ensures key { key_of_node (ids_of before.now) result ≡ (operation_of x.now).op.key }
    ensures standing { IsStanding (length before.now) result }
{
    match &x.op.key {
        Key::Head => None,
        Key::Name(_) => unreachable!(),
        Key::Elem(id) => match find_near(before, id.lend(), before.len().saturating_sub(1)) {
            Some(at) => Some(at as u32),
            None => unreachable!(),
        },
    }
}

// A chain of the insertions of all objects: what comes first in an object comes first of all.
fn put_all(alloc: Global, elements: &[Numbered<'_>]) -> Result<Chain, AllocError>
    requires rise { Rise (map operation_of elements.now) }
    requires anchored { AreAnchored (map operation_of elements.now) }
    requires few { length elements.now ≤ most_operations }
    ensures { IfOk result (λ chain. chain.walk ≡ fold put [] (map operation_of elements.now)) }
{
    let mut chain = Chain::new(alloc);
    for i in 0..elements.len() {
        let x = &elements[i];
        let behind = reference(&elements[..i], x);
        chain.put_behind(behind, x.own_id(alloc)?)?;
    }
    Ok(chain)
}

// Notes the place of the element with this id, if none was noted, and tells where it stands among the elements; the guess
// is where it may be.
fn note(
    elements: &[Numbered<'_>],
    places: &mut Vec<Option<u64>>,
    id: IdRef<'_>,
    place: u64,
    guess: usize,
) -> usize
    requires rise { Rise (map operation_of elements.now) }
    requires count { length places.old.items ≡ length elements.now }
    ensures count { length places.new.items ≡ length places.old.items }
    ensures places { (W : List OpId) → length W ≡ place → places.old.items ≡ places_of W elements.now → places.new.items ≡ places_of (W ++ id_of id.entry ∷ []) elements.now }
{
    let Some(at) = find_near(elements, id, guess) else {
        return guess;
    };
    if places[at].is_none() {
        places[at] = Some(place);
    }
    at
}

// The place of each element on the way along the chain, and how many there are.
fn number(
    alloc: Global,
    elements: &[Numbered<'_>],
    chain: &Chain,
) -> Result<(Vec<Option<u64>>, u64), AllocError>
    requires rise { Rise (map operation_of elements.now) }
    requires few { length chain.now.walk ≤ most_operations }
    ensures places { IfOk result (λ r. r.0.items ≡ places_of chain.now.walk elements.now) }
    ensures count { IfOk result (λ r. r.1 ≡ length chain.now.walk) }
{
    let mut places = vec![in alloc; None; elements.len()]?;
    let mut count = 0;
    let mut at = 0;
    let mut walk = chain.walk();
    while let Some(id) = walk.next() {
        at = note(elements, &mut places, id, count, at);
        count += 1;
    }
    Ok((places, count))
}

/// The insertions among the operations, and their places.
pub fn line_of<'a>(alloc: Global, operations: &[Numbered<'a>]) -> Result<Line<'a>, AllocError>
    requires rise { Rise (map operation_of operations.now) }
    requires anchored { AreAnchored (filter is_insertion (map operation_of operations.now)) }
    requires few { length operations.now ≤ most_operations }
    ensures { IfOk result (IsLine (map operation_of operations.now)) }
{
    let elements = insertions(alloc, operations)?;
    let chain = put_all(alloc, elements.as_slice())?;
    let (places, count) = number(alloc, elements.as_slice(), &chain)?;
    Ok(Line {
        elements,
        places,
        count,
    })
}

/// The place of an element in the line; the guess is where it may be among the elements.
pub fn place_in(places: &Line<'_>, id: IdRef<'_>, guess: usize) -> u64
    requires rise { Rise (map operation_of places.now.elements.items) }
    requires count { length places.now.places.items ≡ length places.now.elements.items }
    requires held { IsHeld (map operation_of places.now.elements.items) (id_of id) }
    ensures { (A : List Operation) → IsLine A places.now → result ≡ position_or_len (same_id (id_of id.entry)) (line A) }
{
    match find_near(places.elements.as_slice(), id, guess) {
        Some(at) => places.places[at].unwrap_or(places.count),
        None => unreachable!(),
    }
}
