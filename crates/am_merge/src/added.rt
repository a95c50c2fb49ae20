//! The operations of added changes, and what the walk over rows takes of them.
ghost use Rattle.std.specs.Prelude.{◌≡◌, ◌≤◌, ◌<◌, ◌∷◌, ◌++◌, [], All, List, IfOk, OnOk, filter, length, map};
ghost use Rattle.am_types.specs.Operations.{Operation, operations, all_operations, ascending};
ghost use Rattle.am_types.specs.Limits.{most_operations};
ghost use Rattle.am_places.specs.Numbered.{operation_of};
ghost use Rattle.am_places.specs.Sound.{HasRoom};
ghost use Rattle.am_merge.specs.Aims.{one_at, stacked_at};
ghost use Rattle.am_merge.specs.Starts.{Stands};
ghost use Rattle.am_merge.specs.Walk.{beginning, starts};
ghost use Rattle.am_merge.specs.Stacks.{stacked};

use crate::buckets::{HasCounter, sort_by_counter};
use crate::starts::{Start, sort_starts};
use am_places::Numbered;
use am_types::actions::DELETE;
use am_types::{ActorId, Change, Key, compare_ids, same_actor};
use std::alloc::{AllocError, Global};
use std::cmp::Ordering;

// An actor is looked for among at most so many that came before.
const FEW: usize = 8;

// The actor, lent from where it came first if it is remembered: what is read again and again is then at few places.
fn shared<'a>(seen: &mut Vec<&'a ActorId>, actor: &'a ActorId) -> Result<&'a ActorId, AllocError>
    ensures { IfOk result (λ a. a.now ≡ actor.now) }
{
    for i in 0..seen.len() {
        let other = seen[i];
        if same_actor(other.as_slice(), actor.as_slice()) {
            return Ok(other);
        }
    }
    if seen.len() < FEW {
        seen.push(actor)?;
    }
    Ok(actor)
}

// The operations of a change go up by one from its start.
fn push_operations<'a>(
    all: &mut Vec<Numbered<'a>>,
    change: &'a Change,
    actor: &'a ActorId,
) -> Result<(), AllocError>
    requires room { HasRoom change.now }
    requires actor { actor.now ≡ change.now.actor }
    ensures { OnOk result (map operation_of all.new.items ≡ map operation_of all.old.items ++ operations change.now) }
{
    let mut counter = change.start;
    for op in change.ops.as_slice() {
        all.push(Numbered { counter, actor, op })?;
        counter += 1;
    }
    Ok(())
}

// How many operations the changes have. No contract asks for it: it tells how much room to take.
fn total_of(changes: &[&Change]) -> usize {
    let mut total = 0usize;
    for i in 0..changes.len() {
        total = total.saturating_add(changes[i].ops.len());
    }
    total
}

// The operations of each of the changes.
fn gather<'a>(alloc: Global, changes: &[&'a Change]) -> Result<Vec<Numbered<'a>>, AllocError>
    requires room { All HasRoom (map (λ c. c.now) changes.now) }
    ensures { IfOk result (λ all. map operation_of all.items ≡ all_operations (map (λ c. c.now) changes.now)) }
{
    let mut all = Vec::with_capacity(alloc, total_of(changes))?;
    let mut seen = Vec::new(alloc);
    for i in 0..changes.len() {
        let change = changes[i];
        let actor = shared(&mut seen, &change.actor)?;
        push_operations(&mut all, change, actor)?;
    }
    Ok(all)
}

impl<'a> HasCounter for Numbered<'a> {
    ghost use Rattle.am_places.specs.Numbered.{by_id};

    ghost counter_of = { λ x. x.counter };

    ghost order = { by_id };

    fn counter(&self) -> u64 {
        self.counter
    }

    fn compare(&self, other: &Self) -> Ordering {
        compare_ids(self.id(), other.id())
    }
}

// In ascending id.
fn sort_operations(all: &mut Vec<Numbered<'_>>) -> Result<(), AllocError>
    ensures { OnOk result (map operation_of all.new.items ≡ ascending (map operation_of all.old.items)) }
{
    sort_by_counter(all)?;
    Ok(())
}

/// The operations of added changes, in ascending id.
pub fn added_operations<'a>(
    alloc: Global,
    changes: &[&'a Change],
) -> Result<Vec<Numbered<'a>>, AllocError>
    requires room { All HasRoom (map (λ c. c.now) changes.now) }
    ensures { IfOk result (λ all. map operation_of all.items ≡ ascending (all_operations (map (λ c. c.now) changes.now))) }
{
    let mut all = gather(alloc, changes)?;
    sort_operations(&mut all)?;
    Ok(all)
}

// It has a row, and names no element.
fn starts(x: &Numbered<'_>) -> bool
    ensures { result ≡ starts (operation_of x.now) }
{
    match &x.op.key {
        Key::Elem(_) => false,
        Key::Name(_) => x.op.action != DELETE,
        Key::Head => x.op.action != DELETE,
    }
}

/// The operation at a place, if it starts.
pub fn push_start<'t, 'a>(
    all: &mut Vec<Start<'t, 'a>>,
    x: &'t Numbered<'a>,
    place: usize,
) -> Result<(), AllocError>
    requires { place ≤ most_operations }
    ensures starts { OnOk result (map (λ s. s.operation) all.new.items ≡ map (λ s. s.operation) all.old.items ++ filter starts (operation_of x.now ∷ [])) }
    ensures stand { OnOk result ((A : List Operation) → place < length A → one_at A place ≡ operation_of x.now ∷ [] → All (Stands A) all.old.items → All (Stands A) all.new.items) }
{
    if starts(x) {
        all.push(Start::of(x, place))?;
        return Ok(());
    }
    Ok(())
}

// Those that start.
fn starting<'t, 'a>(
    alloc: Global,
    operations: &'t [Numbered<'a>],
) -> Result<Vec<Start<'t, 'a>>, AllocError>
    requires { length operations.now ≤ most_operations }
    ensures { IfOk result (λ all. map (λ s. s.operation) all.items ≡ filter starts (map operation_of operations.now)) }
{
    let mut all = Vec::new(alloc);
    for i in 0..operations.len() {
        push_start(&mut all, &operations[i], i)?;
    }
    Ok(all)
}

// The operations themselves, as a stack: the first one is put last.
fn stack_of<'a>(alloc: Global, starts: &[Start<'_, 'a>]) -> Result<Vec<Numbered<'a>>, AllocError>
    ensures { IfOk result (λ all. stacked all.items ≡ map (λ s. s.operation) starts.now) }
{
    let mut all = Vec::with_capacity(alloc, starts.len())?;
    for i in (0..starts.len()).rev() {
        all.push(starts[i].operation())?;
    }
    Ok(all)
}

/// What waits when the walk begins.
pub fn beginning<'a>(
    alloc: Global,
    operations: &[Numbered<'a>],
) -> Result<Vec<Numbered<'a>>, AllocError>
    requires ascends { ascending (map operation_of operations.now) ≡ map operation_of operations.now }
    requires few { length operations.now ≤ most_operations }
    ensures { IfOk result (λ all. stacked all.items ≡ beginning (map operation_of operations.now)) }
{
    let mut starts = starting(alloc, operations)?;
    sort_starts(&mut starts)?;
    stack_of(alloc, starts.as_slice())
}

// The places of these, as a stack: the first one is put last.
fn places_of(alloc: Global, starts: &[Start<'_, '_>]) -> Result<Vec<u32>, AllocError>
    ensures { IfOk result (λ all. (A : List Operation) → All (Stands A) starts.now → (stacked_at A all.items ≡ map (λ s. s.operation) starts.now) × All (λ k. k < length A) all.items) }
{
    let mut all = Vec::with_capacity(alloc, starts.len())?;
    for i in (0..starts.len()).rev() {
        all.push(starts[i].place())?;
    }
    Ok(all)
}

/// What waits when the walk begins, by places.
pub fn beginning_places(
    alloc: Global,
    operations: &[Numbered<'_>],
    mut starting: Vec<Start<'_, '_>>,
) -> Result<Vec<u32>, AllocError>
    requires ascends { ascending (map operation_of operations.now) ≡ map operation_of operations.now }
    requires starts { map (λ s. s.operation) starting.items ≡ filter starts (map operation_of operations.now) }
    requires stand { All (Stands (map operation_of operations.now)) starting.items }
    ensures places { IfOk result (λ all. stacked_at (map operation_of operations.now) all.items ≡ beginning (map operation_of operations.now)) }
    ensures within { IfOk result (λ all. All (λ k. k < length operations.now) all.items) }
{
    sort_starts(&mut starting)?;
    places_of(alloc, starting.as_slice())
}
