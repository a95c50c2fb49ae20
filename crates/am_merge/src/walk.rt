//! The walk over the rows of a cursor.
ghost use Rattle.std.specs.Prelude.{◌≡◌, ◌≤◌, ◌<◌, ◌+◌, ◌^◌, ◌++◌, ◌∷◌, [], List, length, OnOk, IfSome, IfNone};
ghost use Rattle.std.specs.List.Sorted.{IsSorted};
ghost use Rattle.std.specs.Ordering.{nat_cmp};
ghost use Rattle.am_types.specs.Operations.{Operation};
ghost use Rattle.am_types.specs.declared.Row.{Row};
ghost use Rattle.am_doccols.specs.Rows.{row_of};
ghost use Rattle.am_merge.specs.Naming.{AreCounters, AreTables};
ghost use Rattle.am_merge.specs.Spots.{spot_in};
ghost use Rattle.am_merge.specs.Stops.{HasPassed, done_in, waiting_of};
ghost use Rattle.am_merge.specs.Walk.{spot_of_row, walked};
ghost use Rattle.am_merge.specs.declared.naming.Tables.{Tables};

use crate::counters::{counters_of, is_named};
use crate::naming::Tables;
use crate::spot::SpotRef;
use crate::stops::{Walk, pass, put_before, put_rest};
use am_doccols::{RowCursor, RowRef};
use std::alloc::{AllocError, Global};

// The spot of a row.
fn spot_of<'a>(row: &RowRef<'a>) -> SpotRef<'a>
    ensures { spot_of_row (row_of row.now) ≡ spot_in result }
{
    SpotRef {
        obj: row.obj,
        insert: row.insert,
        key: row.key,
        id: row.id,
    }
}

// While nothing waits, the rows before the next whose id has one of these counters are copied whatever else they say.
fn copy_unnamed(walk: &mut Walk<'_>, rest: &mut RowCursor<'_>, counters: &[u64])
    requires ascend { IsSorted nat_cmp counters.now }
    requires few { walk.old.skipped + length rest.old < 2 ^ 63 }
    ensures few { walk.new.skipped + length rest.new ≤ walk.old.skipped + length rest.old }
    ensures left { length rest.new ≤ length rest.old }
    ensures same { (A : List Operation) (t : Tables) → AreTables A t → AreCounters t counters.now
        → done_in t.named.items walk.old ++ walked A rest.old walk.old.left (waiting_of walk.old)
        ≡ done_in t.named.items walk.new ++ walked A rest.new walk.new.left (waiting_of walk.new) }
{
    if !walk.waiting.as_slice().is_empty() {
        return;
    }
    walk.skipped += rest.skip_unnamed(counters);
}

// The row at this spot comes. Where its id has none of these counters, nothing names it, and nothing is sought.
fn pass_row<'a>(
    walk: &mut Walk<'a>,
    tables: &Tables<'a>,
    counters: &[u64],
    row: &SpotRef<'_>,
) -> Result<(), AllocError>
    requires ascend { IsSorted nat_cmp counters.now }
    requires few { walk.old.skipped < 2 ^ 63 }
    ensures few { OnOk result (walk.new.skipped ≤ walk.old.skipped + 1) }
    ensures left { OnOk result (walk.new.left ≡ walk.old.left) }
    ensures passed { OnOk result ((A : List Operation) → AreTables A tables.now → AreCounters tables.now counters.now → (r : Row) → spot_of_row r ≡ spot_in row.now
        → HasPassed A tables.now.named.items walk.old walk.new r) }
{
    if is_named(counters, row.id.counter) {
        return pass(walk, tables, row);
    }
    walk.skipped += 1;
    Ok(())
}

// The spot of the next row, which is passed.
fn next_spot<'a>(rest: &mut RowCursor<'a>) -> Option<SpotRef<'a>>
    ensures end { IfNone result (rest.old ≡ []) }
    ensures next { IfSome result (λ spot. (r : Row) × (rest.old ≡ r ∷ rest.new) × (spot_of_row r ≡ spot_in spot)) }
{
    let row = rest.next()?;
    Some(spot_of(&row))
}

// Walks over the rows that are left. At most `left` operations come.
fn walk_rest<'a>(
    walk: &mut Walk<'a>,
    tables: &Tables<'a>,
    counters: &[u64],
    rest: &mut RowCursor<'_>,
) -> Result<(), AllocError>
    requires ascend { IsSorted nat_cmp counters.now }
    requires few { walk.old.skipped + length rest.old < 2 ^ 63 }
    ensures { OnOk result ((A : List Operation) → AreTables A tables.now → AreCounters tables.now counters.now
        → done_in tables.now.named.items walk.new ≡ done_in tables.now.named.items walk.old ++ walked A rest.old walk.old.left (waiting_of walk.old)) }
{
    copy_unnamed(walk, rest, counters);
    'rows: while let Some(at) = next_spot(rest) {
        put_before(walk, tables, &at)?;
        pass_row(walk, tables, counters, &at)?;
        copy_unnamed(walk, rest, counters);
    }
    put_rest(walk, tables)?;
    Ok(())
}

/// Walks over the rows. At most `left` operations come.
pub fn walk_rows<'a>(
    alloc: Global,
    walk: &mut Walk<'a>,
    tables: &Tables<'a>,
    rows: &RowCursor<'_>,
) -> Result<(), AllocError>
    requires { walk.old.skipped + length rows.now < 2 ^ 63 }
    ensures { OnOk result ((A : List Operation) → AreTables A tables.now
        → done_in tables.now.named.items walk.new ≡ done_in tables.now.named.items walk.old ++ walked A rows.now walk.old.left (waiting_of walk.old)) }
{
    let named = counters_of(alloc, tables)?;
    let mut rest = rows.again();
    walk_rest(walk, tables, named.as_slice(), &mut rest)
}
