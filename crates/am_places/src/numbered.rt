//! The operations of changes, beside their ids.
ghost use Rattle.std.specs.Prelude.{◌≡◌, ◌++◌, All, IfOk, OnOk, true, map};
ghost use Rattle.am_types.specs.Operations.{operations, all_operations, ascending};
ghost use Rattle.am_types.specs.Order.{id_cmp};
ghost use Rattle.am_types.specs.ValidSets.{IsValidSet};
ghost use Rattle.am_types.specs.Views.{id_of};
ghost use Rattle.am_places.specs.Numbered.{operation_of, by_id};
ghost use Rattle.am_places.specs.Rising.{Rise, HasAt, IsFound};
ghost use Rattle.am_places.specs.Sound.{HasRoom, Sound};

use am_types::{ActorId, Change, IdRef, Op, OpId, Twin, compare_ids, same_id};
use std::alloc::{AllocError, Global};
use std::cmp::Ordering;

// How far from a guess an operation is sought before it is sought among all.
const REACH: usize = 12;

/// An operation beside its id.
#[derive(Clone, Copy)]
pub struct Numbered<'a> {
    pub counter: u64,
    pub actor: &'a ActorId,
    pub op: &'a Op,
}

impl<'a> Numbered<'a> {
    /// The id of the operation.
    pub fn id(&self) -> IdRef<'a>
        ensures { id_of result ≡ (operation_of self.now).id }
    {
        IdRef {
            counter: self.counter,
            actor: self.actor.as_slice(),
        }
    }

    /// The id of the operation, copied.
    pub fn own_id(&self, alloc: Global) -> Result<OpId, AllocError>
        ensures { IfOk result (λ id. id ≡ (operation_of self.now).id) }
    {
        let actor = self.actor.copy(alloc)?;
        Ok(OpId {
            counter: self.counter,
            actor,
        })
    }
}

// The operations of a change go up by one from its start.
fn push_operations<'a>(all: &mut Vec<Numbered<'a>>, change: &'a Change) -> Result<(), AllocError>
    requires room { HasRoom change.now }
    ensures { OnOk result (map operation_of all.new.items ≡ map operation_of all.old.items ++ operations change.now) }
{
    let mut counter = change.start;
    for op in change.ops.as_slice() {
        all.push(Numbered {
            counter,
            actor: &change.actor,
            op,
        })?;
        counter += 1;
    }
    Ok(())
}

// The operations of each of the changes.
fn gather<'a>(alloc: Global, changes: &'a [Change]) -> Result<Vec<Numbered<'a>>, AllocError>
    requires room { All HasRoom changes.now }
    ensures { IfOk result (λ all. map operation_of all.items ≡ all_operations changes.now) }
{
    let mut all = Vec::new(alloc);
    for change in changes {
        push_operations(&mut all, change)?;
    }
    Ok(all)
}

// The same of changes that are lent.
fn gather_lent<'a>(alloc: Global, changes: &[&'a Change]) -> Result<Vec<Numbered<'a>>, AllocError>
    requires room { All HasRoom (map (λ c. c.now) changes.now) }
    ensures { IfOk result (λ all. map operation_of all.items ≡ all_operations (map (λ c. c.now) changes.now)) }
{
    let mut all = Vec::new(alloc);
    for i in 0..changes.len() {
        push_operations(&mut all, changes[i])?;
    }
    Ok(all)
}

// In ascending id.
fn sort_operations(all: &mut Vec<Numbered<'_>>) -> Result<(), AllocError>
    ensures { OnOk result (map operation_of all.new.items ≡ ascending (map operation_of all.old.items)) }
{
    all.sort_by(
        |a: &Numbered<'_>, b: &Numbered<'_>| -> Ordering
            ensures { result ≡ by_id a.now b.now }
        { compare_ids(a.id(), b.id()) },
    )?;
    Ok(())
}

/// The operations of a valid set of changes, listed in any order, in ascending id. It takes time in n log n, of n
/// operations.
pub fn ascending_operations<'a>(
    alloc: Global,
    changes: &'a [Change],
) -> Result<Vec<Numbered<'a>>, AllocError>
    requires valid { IsValidSet changes.now }
    ensures operations { IfOk result (λ all. map operation_of all.items ≡ ascending (all_operations changes.now)) }
    ensures sound { IfOk result (λ all. Sound (map operation_of all.items)) }
{
    let mut all = gather(alloc, changes)?;
    sort_operations(&mut all)?;
    Ok(all)
}

/// The same of changes that are lent.
pub fn ascending_lent<'a>(
    alloc: Global,
    changes: &[&'a Change],
) -> Result<Vec<Numbered<'a>>, AllocError>
    requires valid { IsValidSet (map (λ c. c.now) changes.now) }
    ensures operations { IfOk result (λ all. map operation_of all.items ≡ ascending (all_operations (map (λ c. c.now) changes.now))) }
    ensures sound { IfOk result (λ all. Sound (map operation_of all.items)) }
{
    let mut all = gather_lent(alloc, changes)?;
    sort_operations(&mut all)?;
    Ok(all)
}

// It is there, and has this id.
fn is_at(operations: &[Numbered<'_>], id: IdRef<'_>, at: usize) -> bool
    ensures { result ≡ true → HasAt (map operation_of operations.now) (id_of id.entry) at }
{
    at < operations.len() && same_id(operations[at].id(), id)
}

/// The place of the operation with this id. It takes constant time where that is near the guess.
pub fn find_near(operations: &[Numbered<'_>], id: IdRef<'_>, guess: usize) -> Option<usize>
    requires rise { Rise (map operation_of operations.now) }
    ensures { IsFound (map operation_of operations.now) (id_of id.entry) result }
{
    if guess < operations.len() {
        for step in 0..REACH {
            if is_at(operations, id, guess + step) {
                return Some(guess + step);
            }
            if step <= guess && is_at(operations, id, guess - step) {
                return Some(guess - step);
            }
        }
    }
    find(operations, id)
}

/// The place of the operation with this id.
pub fn find(operations: &[Numbered<'_>], id: IdRef<'_>) -> Option<usize>
    requires rise { Rise (map operation_of operations.now) }
    ensures { IsFound (map operation_of operations.now) (id_of id.entry) result }
{
    let found = operations.binary_search_by(
        |x: &Numbered<'_>| -> Ordering
            ensures { result ≡ id_cmp (operation_of x.now).id (id_of id.entry) }
        { compare_ids(x.id(), id) },
    );
    match found {
        Ok(at) => Some(at),
        Err(_) => None,
    }
}
