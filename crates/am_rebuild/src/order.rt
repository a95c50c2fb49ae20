//! Whether rows come in document order, in one pass.
ghost use Rattle.std.specs.Prelude.{◌≡◌, true, IfOk, OnOk};
ghost use Rattle.am_types.specs.Views.{key_of};
ghost use Rattle.am_histories.specs.Rebuilt.{slot_of};
ghost use Rattle.am_histories.specs.RowOrder.{slot_may_come, may_open, by_object, may_come, may_come_in};
ghost use Rattle.am_histories.specs.OnePass.{moved, path_into, one_pass};
ghost use Rattle.am_rebuild.specs.Stops.{path_of};

use crate::lent::LentRow;
use crate::path::{StopRef, go_back, is_going, put, restart};
use am_types::{KeyRef, compare_ids, compare_objects, same_key};
use std::alloc::{AllocError, Global};
use std::cmp::Ordering;

// What the row gives a value to.
fn slot<'a>(row: &LentRow<'a>) -> KeyRef<'a>
    ensures { key_of result ≡ slot_of row.now }
{
    if row.insert {
        KeyRef::Elem(row.id)
    } else {
        row.key
    }
}

fn slot_follows(a: KeyRef<'_>, b: KeyRef<'_>) -> bool
    ensures { result ≡ slot_may_come (key_of a.entry) (key_of b.entry) }
{
    match (a, b) {
        (KeyRef::Name(a), KeyRef::Name(b)) => a.cmp(b).is_lt(),
        (KeyRef::Name(_), KeyRef::Elem(_)) => true,
        (KeyRef::Elem(_), KeyRef::Elem(_)) => true,
        _ => false,
    }
}

// The row may be the first of its slot.
fn opens(row: &LentRow<'_>) -> bool
    ensures { result ≡ may_open row.now }
{
    row.insert || matches!(row.key, KeyRef::Name(_))
}

// In one object: in the same slot a greater id, or a new slot.
fn follows_in(last: &LentRow<'_>, row: &LentRow<'_>) -> bool
    ensures { result ≡ may_come_in last.now row.now }
{
    let (before, behind) = (slot(last), slot(row));
    if same_key(before, behind) {
        compare_ids(last.id, row.id).is_lt()
    } else {
        slot_follows(before, behind) && opens(row)
    }
}

// The row may come directly behind the last, whose object comes so to that of the row.
fn follows(objects: Ordering, last: &LentRow<'_>, row: &LentRow<'_>) -> bool
    ensures { result ≡ by_object objects last.now row.now }
{
    match objects {
        Ordering::Less => opens(row),
        Ordering::Equal => follows_in(last, row),
        Ordering::Greater => false,
    }
}

// The path after the row.
fn walk_on<'a>(stack: &mut Vec<StopRef<'a>>, row: &LentRow<'a>) -> Result<(), AllocError>
    ensures { OnOk result (path_of stack.new.items ≡ moved (path_of stack.old.items) row.now) }
{
    if row.insert {
        go_back(stack, row.key);
        put(stack, row.id)?;
    }
    Ok(())
}

// Takes the row behind the last, where it may come there, and the path on.
fn take_row<'a>(
    stack: &mut Vec<StopRef<'a>>,
    last: &LentRow<'_>,
    row: &LentRow<'a>,
) -> Result<bool, AllocError>
    ensures may { IfOk result (λ taken. taken ≡ may_come last.now row.now) }
    ensures path { IfOk result (λ taken. taken ≡ true → path_of stack.new.items ≡ moved (path_into last.now (path_of stack.old.items) row.now) row.now) }
{
    let objects = compare_objects(last.obj, row.obj);
    if !follows(objects, last, row) {
        return Ok(false);
    }
    if objects != Ordering::Equal {
        restart(stack)?;
    }
    walk_on(stack, row)?;
    Ok(true)
}

/// Whether the lent rows are in document order.
pub(crate) fn lent_in_order(alloc: Global, rows: &[LentRow<'_>]) -> Result<bool, AllocError>
    ensures { IfOk result (λ told. told ≡ one_pass rows.now) }
{
    let Some((first, rest)) = rows.split_first() else {
        return Ok(true);
    };
    if !opens(first) {
        return Ok(false);
    }
    let mut stack = Vec::new(alloc);
    restart(&mut stack)?;
    walk_on(&mut stack, first)?;
    let mut last = first;
    for row in rest {
        if !is_going(&stack) || !take_row(&mut stack, last, row)? {
            return Ok(false);
        }
        last = row;
    }
    Ok(is_going(&stack))
}
