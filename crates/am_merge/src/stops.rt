//! One walk over the old rows: where it stops, and what happens there.
ghost use Rattle.std.specs.Prelude.{◌≡◌, ◌≤◌, ◌<◌, ◌+◌, ◌^◌, ◌++◌, ◌∷◌, [], ◌⊎◌, ℕ, List, false, map, true, OnOk};
ghost use Rattle.am_types.specs.Operations.{Operation};
ghost use Rattle.am_types.specs.Rows.{succs};
ghost use Rattle.am_types.specs.Views.{id_of, object_of};
ghost use Rattle.am_types.specs.declared.Row.{Row};
ghost use Rattle.am_places.specs.Numbered.{operation_of};
ghost use Rattle.am_merge.specs.Naming.{AreTables, named_of};
ghost use Rattle.am_merge.specs.Plans.{Event, Take};
ghost use Rattle.am_merge.specs.Stacks.{stacked};
ghost use Rattle.am_merge.specs.Stops.{HasPassed, HasPut, done_in, event_with, ids_in, is_some_left, waiting_of};
ghost use Rattle.am_merge.specs.Turns.{pushed};
ghost use Rattle.am_merge.specs.Walk.{behind, behind_of, hung, is_first, is_next, spot_of_row, walk_into, walk_out};
ghost use Rattle.am_merge.specs.Spots.{spot_in};
ghost use Rattle.am_merge.specs.declared.naming.Naming.{Naming};

use crate::naming::{Naming, Tables, named_in, range_of};
use crate::spot::{SpotRef, compare_spots, spot};
use am_places::Numbered;
use am_types::{IdRef, ObjRef};
use std::alloc::AllocError;

/// Behind `skip` old rows that are copied, a new row for an operation, or, where there is none, the next old row with more
/// successors. The successors are those from `first` to `last` in the table of predecessors.
#[derive(Clone, Copy)]
pub struct Stop<'a> {
    pub skip: u64,
    pub put: Option<Numbered<'a>>,
    pub first: usize,
    pub last: usize,
}

/// How far the walk is: its stops, how many rows it copies since the last one, the operations that wait, the next one last,
/// and how many may still come.
#[derive(Drop)]
pub struct Walk<'a> {
    pub stops: Vec<Stop<'a>>,
    pub skipped: u64,
    pub waiting: Vec<Numbered<'a>>,
    pub left: u64,
}

// Whether the new operation comes before the old row at this spot.
fn is_next(y: &Numbered<'_>, row: &SpotRef<'_>) -> bool
    ensures { (r : Row) → spot_of_row r ≡ spot_in row.now → result ≡ is_next (operation_of y.now) r }
{
    compare_spots(row, &spot(y)).is_gt()
}

// The operations of the table go on the stack, one after another.
fn push_each<'a>(waiting: &mut Vec<Numbered<'a>>, hung: &[Naming<'a>]) -> Result<(), AllocError>
    ensures { OnOk result (stacked waiting.new.items ≡ pushed (map (λ n. (named_of n).operation) hung.now) (stacked waiting.old.items)) }
{
    for i in 0..hung.len() {
        let h = hung[i];
        waiting.push(h.operation)?;
    }
    Ok(())
}

// What names the element goes on the stack.
fn push_element<'a>(
    waiting: &mut Vec<Numbered<'a>>,
    tables: &Tables<'a>,
    obj: ObjRef<'_>,
    id: IdRef<'_>,
) -> Result<(), AllocError>
    ensures { OnOk result ((A : List Operation) → AreTables A tables.now → stacked waiting.new.items ≡ pushed (hung A (object_of obj.entry) (id_of id.entry)) (stacked waiting.old.items)) }
{
    let near = tables.hanging_guide.about(id.counter);
    push_each(waiting, named_in(tables.hanging.as_slice(), near, obj, id))?;
    Ok(())
}

// Once an element has come, what names it waits.
fn push_hung<'a>(
    waiting: &mut Vec<Numbered<'a>>,
    tables: &Tables<'a>,
    insert: bool,
    obj: ObjRef<'_>,
    id: IdRef<'_>,
) -> Result<(), AllocError>
    ensures { OnOk result ((A : List Operation) → AreTables A tables.now → stacked waiting.new.items ≡ behind_of A insert (object_of obj.entry) (id_of id.entry) (stacked waiting.old.items)) }
{
    if insert {
        push_element(waiting, tables, obj, id)?;
        return Ok(());
    }
    Ok(())
}

// The walk stops.
fn note_stop<'a>(
    walk: &mut Walk<'a>,
    put: Option<Numbered<'a>>,
    first: usize,
    last: usize,
) -> Result<(), AllocError>
    ensures few { OnOk result (walk.new.skipped ≡ 0) }
    ensures left { OnOk result (walk.new.left ≡ walk.old.left) }
    ensures waiting { OnOk result (walk.new.waiting ≡ walk.old.waiting) }
    ensures stopped { OnOk result ((named : List Naming) → done_in named walk.new ≡ done_in named walk.old ++ event_with put.entry (ids_in named first last) ∷ []) }
{
    walk.stops.push(Stop {
        skip: walk.skipped,
        put,
        first,
        last,
    })?;
    walk.skipped = 0;
    Ok(())
}

// An operation comes: its row is new, and what names its element waits.
fn put<'a>(walk: &mut Walk<'a>, tables: &Tables<'a>, y: Numbered<'a>) -> Result<(), AllocError>
    ensures left { OnOk result (walk.new.left ≡ walk.old.left) }
    ensures few { OnOk result (walk.new.skipped ≡ 0) }
    ensures put { OnOk result ((A : List Operation) → AreTables A tables.now → HasPut A tables.now.named.items walk.old walk.new (operation_of y.entry) (waiting_of walk.old)) }
{
    let near = tables.named_guide.about(y.counter);
    let range = range_of(tables.named.as_slice(), near, ObjRef::Root, y.id());
    note_stop(walk, Some(y), range.0, range.1)?;
    push_hung(
        &mut walk.waiting,
        tables,
        y.op.insert,
        y.op.obj.lend(),
        y.id(),
    )?;
    Ok(())
}

// The next operation that waits comes.
fn put_next<'a>(walk: &mut Walk<'a>, tables: &Tables<'a>) -> Result<(), AllocError>
    requires { 0 < walk.old.left }
    ensures left { OnOk result (walk.new.left + 1 ≡ walk.old.left) }
    ensures few { OnOk result (walk.new.skipped ≤ walk.old.skipped) }
    ensures put { OnOk result ((A : List Operation) → AreTables A tables.now → (y : Operation) (ws : List Operation) → waiting_of walk.old ≡ y ∷ ws
        → HasPut A tables.now.named.items walk.old walk.new y ws) }
{
    walk.left -= 1;
    match walk.waiting.pop() {
        Some(y) => {
            put(walk, tables, y)?;
            Ok(())
        }
        None => Ok(()),
    }
}

// An operation waits that comes before the row.
fn is_first(waiting: &[Numbered<'_>], row: &SpotRef<'_>) -> bool
    ensures { (r : Row) → spot_of_row r ≡ spot_in row.now → result ≡ is_first (stacked waiting.now) r }
{
    if waiting.is_empty() {
        return false;
    }
    let top = waiting.len() - 1;
    let y = waiting[top];
    is_next(&y, row)
}

// And one may still come.
fn is_due(walk: &Walk<'_>, row: &SpotRef<'_>) -> bool
    ensures left { result ≡ true → 0 < walk.now.left }
    ensures due { result ≡ true → (r : Row) → spot_of_row r ≡ spot_in row.now → is_first (waiting_of walk.now) r ≡ true }
    ensures none { result ≡ false → (r : Row) → spot_of_row r ≡ spot_in row.now → (walk.now.left ≡ 0) ⊎ (is_first (waiting_of walk.now) r ≡ false) }
{
    if walk.left == 0 {
        return false;
    }
    is_first(walk.waiting.as_slice(), row)
}

/// What comes before the row at this spot.
pub fn put_before<'a>(
    walk: &mut Walk<'a>,
    tables: &Tables<'a>,
    row: &SpotRef<'_>,
) -> Result<(), AllocError>
    ensures few { OnOk result (walk.new.skipped ≤ walk.old.skipped) }
    ensures before { OnOk result ((A : List Operation) → AreTables A tables.now → (r : Row) → spot_of_row r ≡ spot_in row.now → (rest : ℕ → List Operation → List Event)
        → done_in tables.now.named.items walk.old ++ walk_into A r rest walk.old.left (waiting_of walk.old)
        ≡ done_in tables.now.named.items walk.new ++ (Take (succs A r.id) ∷ rest walk.new.left (behind A (spot_of_row r) (waiting_of walk.new)))) }
{
    'ahead: while is_due(walk, row) {
        put_next(walk, tables)?;
    }
    Ok(())
}

// A row comes, with these successors added; where there are none, it is copied.
fn take_row(walk: &mut Walk<'_>, first: usize, last: usize) -> Result<(), AllocError>
    requires { walk.old.skipped < 2 ^ 63 }
    ensures few { OnOk result (walk.new.skipped ≤ walk.old.skipped + 1) }
    ensures left { OnOk result (walk.new.left ≡ walk.old.left) }
    ensures waiting { OnOk result (walk.new.waiting ≡ walk.old.waiting) }
    ensures stopped { OnOk result ((named : List Naming) → done_in named walk.new ≡ done_in named walk.old ++ Take (ids_in named first last) ∷ []) }
{
    if first == last {
        walk.skipped += 1;
        return Ok(());
    }
    note_stop(walk, None, first, last)?;
    Ok(())
}

/// The row itself comes, with what names it added to its successors.
pub fn pass<'a>(
    walk: &mut Walk<'a>,
    tables: &Tables<'a>,
    row: &SpotRef<'_>,
) -> Result<(), AllocError>
    requires { walk.old.skipped < 2 ^ 63 }
    ensures few { OnOk result (walk.new.skipped ≤ walk.old.skipped + 1) }
    ensures left { OnOk result (walk.new.left ≡ walk.old.left) }
    ensures passed { OnOk result ((A : List Operation) → AreTables A tables.now → (r : Row) → spot_of_row r ≡ spot_in row.now
        → HasPassed A tables.now.named.items walk.old walk.new r) }
{
    let near = tables.named_guide.about(row.id.counter);
    let range = range_of(tables.named.as_slice(), near, ObjRef::Root, row.id);
    take_row(walk, range.0, range.1)?;
    push_hung(&mut walk.waiting, tables, row.insert, row.obj, row.id)?;
    Ok(())
}

// An operation waits, and one may still come.
fn is_any(walk: &Walk<'_>) -> bool
    ensures left { result ≡ true → 0 < walk.now.left }
    ensures due { result ≡ true → is_some_left (waiting_of walk.now) ≡ true }
    ensures none { result ≡ false → (walk.now.left ≡ 0) ⊎ (is_some_left (waiting_of walk.now) ≡ false) }
{
    if walk.left == 0 {
        return false;
    }
    !walk.waiting.is_empty()
}

/// What comes behind the last row.
pub fn put_rest<'a>(walk: &mut Walk<'a>, tables: &Tables<'a>) -> Result<(), AllocError>
    ensures few { OnOk result (walk.new.skipped ≤ walk.old.skipped) }
    ensures rest { OnOk result ((A : List Operation) → AreTables A tables.now
        → done_in tables.now.named.items walk.new ≡ done_in tables.now.named.items walk.old ++ walk_out A walk.old.left (waiting_of walk.old)) }
{
    'rest: while is_any(walk) {
        put_next(walk, tables)?;
    }
    Ok(())
}
