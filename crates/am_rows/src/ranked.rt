//! Sorting by numbers: of the object, of the place of the slot, and of the operation.
ghost use Rattle.std.specs.Prelude.{◌≡◌, All, IfOk, IfSome, OnOk, map, vec_items};
ghost use Rattle.am_types.specs.Order.{sorted_by};
ghost use Rattle.am_places.specs.Numbered.{operation_of};
ghost use Rattle.am_places.specs.Placed.{placed_cmp};
ghost use Rattle.am_places.specs.Rising.{Rise};
ghost use Rattle.am_rows.specs.Ranked.{IsNumber, IsRanked, ranked_cmp};

use crate::kept::{Kept, sort_kept};
use am_places::{Numbered, compare_slots, find_near};
use am_types::ObjId;
use std::alloc::{AllocError, Global};
use std::cmp::Ordering;

/// An operation that has a row, beside the number of its object: 0 for the root, else one more than the place of the
/// operation that made it.
#[derive(Clone, Copy)]
pub struct Ranked<'a> {
    pub kept: Kept<'a>,
    pub object: usize,
}

// The number of an object, unless none of the operations made it. The guess is another object's number.
fn number_of(operations: &[Numbered<'_>], object: &ObjId, guess: usize) -> Option<usize>
    requires { Rise (map operation_of operations.now) }
    ensures { IfSome result (IsNumber (map operation_of operations.now) object.now) }
{
    match object {
        ObjId::Root => Some(0),
        ObjId::Made(id) => match find_near(operations, id.lend(), guess.saturating_sub(1)) {
            Some(at) => Some(at + 1),
            None => None,
        },
    }
}

// The operation beside the number of its object, if that is known and the operation stands where it should.
fn ranked_in<'a>(operations: &[Numbered<'_>], kept: Kept<'a>, guess: usize) -> Option<Ranked<'a>>
    requires { Rise (map operation_of operations.now) }
    ensures { IfSome result (λ r. (r.kept ≡ kept.entry) × IsRanked (map operation_of operations.now) r) }
{
    let x = kept.placed.operation;
    let object = number_of(operations, &x.op.obj, guess)?;
    match find_near(operations, x.id(), kept.at) {
        Some(at) => {
            if at == kept.at {
                Some(Ranked { kept, object })
            } else {
                None
            }
        }
        None => None,
    }
}

// Each beside the number of its object, if all are known.
fn all_ranked<'a>(
    alloc: Global,
    operations: &[Numbered<'_>],
    kept: &[Kept<'a>],
) -> Result<Option<Vec<Ranked<'a>>>, AllocError>
    requires { Rise (map operation_of operations.now) }
    ensures { IfOk result (λ found. IfSome found (λ ranked. (map (λ r. r.kept) ranked.items ≡ kept.now) × All (IsRanked (map operation_of operations.now)) ranked.items)) }
{
    let mut ranked: Vec<Ranked<'a>> = Vec::new(alloc);
    let mut guess = 0;
    for i in 0..kept.len() {
        let Some(next) = ranked_in(operations, kept[i], guess) else {
            return Ok(None);
        };
        guess = next.object;
        ranked.push(next)?;
    }
    Ok(Some(ranked))
}

fn compare_ranked(p: &Ranked<'_>, q: &Ranked<'_>) -> Ordering
    ensures { result ≡ ranked_cmp p.now q.now }
{
    p.object
        .cmp(&q.object)
        .then(compare_slots(p.kept.placed.slot, q.kept.placed.slot))
        .then(p.kept.at.cmp(&q.kept.at))
}

fn sort_ranked(ranked: &mut Vec<Ranked<'_>>) -> Result<(), AllocError>
    ensures { OnOk result (ranked.new.items ≡ sorted_by ranked_cmp ranked.old.items) }
{
    ranked.sort_by(
        |p: &Ranked<'_>, q: &Ranked<'_>| -> Ordering
            ensures { result ≡ ranked_cmp p.now q.now }
        { compare_ranked(p, q) },
    )?;
    Ok(())
}

// Without the numbers.
fn kept_of<'a>(alloc: Global, ranked: &[Ranked<'a>]) -> Result<Vec<Kept<'a>>, AllocError>
    ensures { IfOk result (λ kept. kept.items ≡ map (λ r. r.kept) ranked.now) }
{
    let mut kept = Vec::new(alloc);
    for i in 0..ranked.len() {
        kept.push(ranked[i].kept)?;
    }
    Ok(kept)
}

/// In the order of a document.
pub fn in_order<'a>(
    alloc: Global,
    operations: &[Numbered<'_>],
    mut kept: Vec<Kept<'a>>,
) -> Result<Vec<Kept<'a>>, AllocError>
    requires { Rise (map operation_of operations.now) }
    ensures { IfOk result (λ sorted. map (λ k. k.placed) sorted.items ≡ sorted_by placed_cmp (map (λ k. k.placed) (vec_items kept.entry))) }
{
    match all_ranked(alloc, operations, kept.as_slice())? {
        Some(mut ranked) => {
            sort_ranked(&mut ranked)?;
            kept_of(alloc, ranked.as_slice())
        }
        None => {
            sort_kept(&mut kept)?;
            Ok(kept)
        }
    }
}
