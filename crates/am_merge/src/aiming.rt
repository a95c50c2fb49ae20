//! What an added operation names of the others is sought, once.
ghost use Rattle.std.specs.Prelude.{◌≡◌, ◌≤◌, ◌<◌, ◌++◌, ◌∷◌, ◌&&◌, [], List, filter, length, map, reverse, IfOk, OnOk};
ghost use Rattle.am_types.specs.declared.ObjId.TheVariants.{Root};
ghost use Rattle.am_types.specs.Operations.{Operation};
ghost use Rattle.am_types.specs.Same.{same_object};
ghost use Rattle.am_types.specs.Views.{id_of, object_of};
ghost use Rattle.am_types.specs.Limits.{most_operations};
ghost use Rattle.am_places.specs.Numbered.{operation_of};
ghost use Rattle.am_places.specs.Rising.{IsFound, Rise};
ghost use Rattle.am_merge.specs.Aims.{AreAims, means_element, means_id, one_at};
ghost use Rattle.am_merge.specs.Naming.{Named, naming_each, predecessors, reference, references};
ghost use Rattle.am_merge.specs.Walk.{gives_value, hanging, inserts};

use crate::aims::Aim;
use crate::guide::Guide;
use am_places::{Numbered, find};
use am_types::actions::DELETE;
use am_types::{IdRef, Key, ObjRef, Op, same_id, same_object};
use std::alloc::{AllocError, Global};

// How far past a guess an operation is sought before it is sought among all.
const REACH: usize = 12;

// Where the operation with this id stands, sought from a guess on first.
#[inline(always)]
fn sought(operations: &[Numbered<'_>], near: usize, id: IdRef<'_>) -> Option<usize>
    requires { Rise (map operation_of operations.now) }
    ensures { IsFound (map operation_of operations.now) (id_of id.entry) result }
{
    let mut at = near;
    let mut steps = 0;
    while steps < REACH && at < operations.len() {
        if same_id(operations[at].id(), id) {
            return Some(at);
        }
        at += 1;
        steps += 1;
    }
    find(operations, id)
}

// The operation at a place names this id as a predecessor.
fn push_predecessor(
    aims: &mut Vec<Aim>,
    operations: &[Numbered<'_>],
    guide: &Guide,
    place: usize,
    id: IdRef<'_>,
) -> Result<(), AllocError>
    requires rise { Rise (map operation_of operations.now) }
    requires few { length operations.now ≤ most_operations }
    requires place { place < length operations.now }
    ensures { OnOk result ((ns : List Named) (x : Operation) → one_at (map operation_of operations.now) place ≡ x ∷ [] → AreAims means_id (map operation_of operations.now) ns aims.old.items
        → AreAims means_id (map operation_of operations.now) (ns ++ record { obj = Root; id = id_of id.entry; operation = x } ∷ []) aims.new.items) }
{
    if let Some(target) = sought(operations, guide.about(id.counter), id) {
        aims.push(Aim {
            target: target as u32,
            place: place as u32,
        })?;
    }
    Ok(())
}

/// The operation at a place names its predecessors.
pub fn push_predecessors(
    aims: &mut Vec<Aim>,
    operations: &[Numbered<'_>],
    guide: &Guide,
    place: usize,
) -> Result<(), AllocError>
    requires rise { Rise (map operation_of operations.now) }
    requires few { length operations.now ≤ most_operations }
    requires place { place < length operations.now }
    ensures { OnOk result ((ns : List Named) (x : Operation) → one_at (map operation_of operations.now) place ≡ x ∷ [] → AreAims means_id (map operation_of operations.now) ns aims.old.items
        → AreAims means_id (map operation_of operations.now) (ns ++ naming_each x) aims.new.items) }
{
    let op = operations[place].op;
    let preds = op.preds.as_slice();
    for i in 0..preds.len() {
        push_predecessor(aims, operations, guide, place, preds[i].lend())?;
    }
    Ok(())
}

// Whether the operation inserts an element into this object.
fn is_element_of(x: &Op, obj: ObjRef<'_>) -> bool
    ensures { result ≡ (x.now.insert && same_object (object_of obj.entry) x.now.obj) }
{
    if x.insert {
        return same_object(obj, x.obj.lend());
    }
    false
}

// The operation at a place names this id as an element of its object.
fn push_element(
    aims: &mut Vec<Aim>,
    operations: &[Numbered<'_>],
    guide: &Guide,
    place: usize,
    id: IdRef<'_>,
) -> Result<(), AllocError>
    requires rise { Rise (map operation_of operations.now) }
    requires few { length operations.now ≤ most_operations }
    requires place { place < length operations.now }
    ensures { OnOk result ((ns : List Named) (x : Operation) → one_at (map operation_of operations.now) place ≡ x ∷ [] → AreAims means_element (map operation_of operations.now) ns aims.old.items
        → AreAims means_element (map operation_of operations.now) (ns ++ record { obj = x.op.obj; id = id_of id.entry; operation = x } ∷ []) aims.new.items) }
{
    let Some(target) = sought(operations, guide.about(id.counter), id) else {
        return Ok(());
    };
    let op = operations[place].op;
    let other = operations[target].op;
    if is_element_of(other, op.obj.lend()) {
        aims.push(Aim {
            target: target as u32,
            place: place as u32,
        })?;
    }
    Ok(())
}

// The operation at a place names its element, if it names one.
fn push_reference(
    aims: &mut Vec<Aim>,
    operations: &[Numbered<'_>],
    guide: &Guide,
    place: usize,
) -> Result<(), AllocError>
    requires rise { Rise (map operation_of operations.now) }
    requires few { length operations.now ≤ most_operations }
    requires place { place < length operations.now }
    ensures { OnOk result ((ns : List Named) (x : Operation) → one_at (map operation_of operations.now) place ≡ x ∷ [] → AreAims means_element (map operation_of operations.now) ns aims.old.items
        → AreAims means_element (map operation_of operations.now) (ns ++ reference x) aims.new.items) }
{
    let op = operations[place].op;
    match &op.key {
        Key::Elem(id) => push_element(aims, operations, guide, place, id.lend()),
        Key::Head => Ok(()),
        Key::Name(_) => Ok(()),
    }
}

/// The operation at a place names its element, if it is an insertion.
pub fn push_insertion(
    aims: &mut Vec<Aim>,
    operations: &[Numbered<'_>],
    guide: &Guide,
    place: usize,
) -> Result<(), AllocError>
    requires rise { Rise (map operation_of operations.now) }
    requires few { length operations.now ≤ most_operations }
    requires place { place < length operations.now }
    ensures { OnOk result ((ns : List Named) (x : Operation) → one_at (map operation_of operations.now) place ≡ x ∷ [] → AreAims means_element (map operation_of operations.now) ns aims.old.items
        → AreAims means_element (map operation_of operations.now) (ns ++ references (filter inserts (x ∷ []))) aims.new.items) }
{
    if operations[place].op.insert {
        return push_reference(aims, operations, guide, place);
    }
    Ok(())
}

/// The operation at a place names its element, if it has a row and is no insertion.
pub fn push_value(
    aims: &mut Vec<Aim>,
    operations: &[Numbered<'_>],
    guide: &Guide,
    place: usize,
) -> Result<(), AllocError>
    requires rise { Rise (map operation_of operations.now) }
    requires few { length operations.now ≤ most_operations }
    requires place { place < length operations.now }
    ensures { OnOk result ((ns : List Named) (x : Operation) → one_at (map operation_of operations.now) place ≡ x ∷ [] → AreAims means_element (map operation_of operations.now) ns aims.old.items
        → AreAims means_element (map operation_of operations.now) (ns ++ references (filter gives_value (x ∷ []))) aims.new.items) }
{
    if operations[place].op.insert {
        return Ok(());
    }
    if operations[place].op.action == DELETE {
        return Ok(());
    }
    push_reference(aims, operations, guide, place)
}

/// More aims go behind the others, the last of them first.
pub fn push_reversed(aims: &mut Vec<Aim>, mut more: Vec<Aim>) -> Result<(), AllocError>
    ensures { OnOk result (aims.new.items ≡ aims.old.items ++ reverse more.items) }
{
    'rest: while let Some(aim) = more.pop() {
        aims.push(aim)?;
    }
    Ok(())
}
