//! What added operations name, sorted before the tables are made of it: what is sorted is small.
ghost use Rattle.std.specs.Prelude.{◌≡◌, ◌∷◌, ◌++◌, [], filter, map, reverse, IfOk, OnOk};
ghost use Rattle.am_types.specs.Order.{sorted_by};
ghost use Rattle.am_places.specs.Numbered.{operation_of};
ghost use Rattle.am_merge.specs.Mentions.{mentioned};
ghost use Rattle.am_merge.specs.Naming.{named_cmp, named_of, naming_each, predecessors, reference, references};
ghost use Rattle.am_merge.specs.Walk.{gives_value, hanging, inserts};

use crate::buckets::{HasCounter, sort_by_counter};
use crate::naming::{Naming, compare_namings};
use am_places::Numbered;
use am_types::actions::DELETE;
use am_types::{Key, OpId};
use std::alloc::{AllocError, Global};
use std::cmp::Ordering;

/// An added operation beside what it names, as `Naming` has it; all is lent.
#[derive(Clone, Copy)]
pub struct Mention<'t, 'a> {
    hangs: bool,
    id: &'a OpId,
    operation: &'t Numbered<'a>,
}

// It stands beside each of its predecessors.
fn push_predecessors<'t, 'a>(
    all: &mut Vec<Mention<'t, 'a>>,
    x: &'t Numbered<'a>,
) -> Result<(), AllocError>
    ensures { OnOk result (map mentioned all.new.items ≡ map mentioned all.old.items ++ naming_each (operation_of x.now)) }
{
    let preds = x.op.preds.as_slice();
    for i in 0..preds.len() {
        all.push(Mention {
            hangs: false,
            id: &preds[i],
            operation: x,
        })?;
    }
    Ok(())
}

/// The operations, beside each of their predecessors.
pub fn predecessors<'t, 'a>(
    alloc: Global,
    operations: &'t [Numbered<'a>],
) -> Result<Vec<Mention<'t, 'a>>, AllocError>
    ensures { IfOk result (λ all. map mentioned all.items ≡ predecessors (map operation_of operations.now)) }
{
    let mut all = Vec::new(alloc);
    for i in 0..operations.len() {
        push_predecessors(&mut all, &operations[i])?;
    }
    Ok(all)
}

// It stands beside the element that it names, if it names one.
fn push_reference<'t, 'a>(
    all: &mut Vec<Mention<'t, 'a>>,
    x: &'t Numbered<'a>,
) -> Result<(), AllocError>
    ensures { OnOk result (map mentioned all.new.items ≡ map mentioned all.old.items ++ reference (operation_of x.now)) }
{
    if let Key::Elem(id) = &x.op.key {
        all.push(Mention {
            hangs: true,
            id,
            operation: x,
        })?;
    }
    Ok(())
}

// If it is an insertion.
fn push_insertion<'t, 'a>(
    all: &mut Vec<Mention<'t, 'a>>,
    x: &'t Numbered<'a>,
) -> Result<(), AllocError>
    ensures { OnOk result (map mentioned all.new.items ≡ map mentioned all.old.items ++ references (filter inserts (operation_of x.now ∷ []))) }
{
    if x.op.insert {
        return push_reference(all, x);
    }
    Ok(())
}

// If it has a row and is no insertion.
fn push_value<'t, 'a>(all: &mut Vec<Mention<'t, 'a>>, x: &'t Numbered<'a>) -> Result<(), AllocError>
    ensures { OnOk result (map mentioned all.new.items ≡ map mentioned all.old.items ++ references (filter gives_value (operation_of x.now ∷ []))) }
{
    if x.op.insert {
        return Ok(());
    }
    if x.op.action == DELETE {
        return Ok(());
    }
    push_reference(all, x)
}

// The insertions among the operations.
fn push_insertions<'t, 'a>(
    all: &mut Vec<Mention<'t, 'a>>,
    operations: &'t [Numbered<'a>],
) -> Result<(), AllocError>
    ensures { OnOk result (map mentioned all.new.items ≡ map mentioned all.old.items ++ references (filter inserts (map operation_of operations.now))) }
{
    for i in 0..operations.len() {
        push_insertion(all, &operations[i])?;
    }
    Ok(())
}

// Those that have a row and are no insertions, the last one first.
fn push_values<'t, 'a>(
    all: &mut Vec<Mention<'t, 'a>>,
    operations: &'t [Numbered<'a>],
) -> Result<(), AllocError>
    ensures { OnOk result (map mentioned all.new.items ≡ map mentioned all.old.items ++ references (filter gives_value (reverse (map operation_of operations.now)))) }
{
    for i in (0..operations.len()).rev() {
        push_value(all, &operations[i])?;
    }
    Ok(())
}

/// The operations that name elements, in the order in which they are put on the stack.
pub fn references<'t, 'a>(
    alloc: Global,
    operations: &'t [Numbered<'a>],
) -> Result<Vec<Mention<'t, 'a>>, AllocError>
    ensures { IfOk result (λ all. map mentioned all.items ≡ references (hanging (map operation_of operations.now))) }
{
    let mut all = Vec::new(alloc);
    push_insertions(&mut all, operations)?;
    push_values(&mut all, operations)?;
    Ok(all)
}

// The same as it stands in a table.
#[inline(always)]
fn naming_of<'a>(m: &Mention<'_, 'a>) -> Naming<'a>
    ensures { named_of result ≡ mentioned m.now }
{
    Naming {
        hangs: m.hangs,
        id: m.id.lend(),
        operation: *m.operation,
    }
}

impl<'t, 'a> HasCounter for Mention<'t, 'a> {
    ghost use Rattle.am_merge.specs.Mentions.{mentioned};
    ghost use Rattle.am_merge.specs.Naming.{named_cmp};

    ghost counter_of = { λ m. (mentioned m).id.counter };

    ghost order = { λ m n. named_cmp (mentioned m) (mentioned n) };

    fn counter(&self) -> u64 {
        self.id.counter
    }

    fn compare(&self, other: &Self) -> Ordering {
        compare_namings(&naming_of(self), &naming_of(other))
    }
}

impl<'a> HasCounter for Naming<'a> {
    ghost use Rattle.am_merge.specs.Naming.{named_cmp, named_of};

    ghost counter_of = { λ n. (named_of n).id.counter };

    ghost order = { λ m n. named_cmp (named_of m) (named_of n) };

    fn counter(&self) -> u64 {
        self.id.counter
    }

    fn compare(&self, other: &Self) -> Ordering {
        compare_namings(self, other)
    }
}

// The same, one after another.
fn namings_of<'a>(
    alloc: Global,
    mentions: &[Mention<'_, 'a>],
) -> Result<Vec<Naming<'a>>, AllocError>
    ensures { IfOk result (λ all. map named_of all.items ≡ map mentioned mentions.now) }
{
    let mut all = Vec::with_capacity(alloc, mentions.len())?;
    for i in 0..mentions.len() {
        all.push(naming_of(&mentions[i]))?;
    }
    Ok(all)
}

/// The table of what is named, sorted by that. What names the same stays in order.
pub fn table_of<'a>(
    alloc: Global,
    mentions: Vec<Mention<'_, 'a>>,
) -> Result<Vec<Naming<'a>>, AllocError>
    ensures { IfOk result (λ all. map named_of all.items ≡ sorted_by named_cmp (map mentioned mentions.entry.items)) }
{
    let mut sorted = mentions;
    sort_by_counter(&mut sorted)?;
    namings_of(alloc, sorted.as_slice())
}
