//! The rows of a larger set's document.
ghost use Rattle.std.specs.Prelude.{◌≡◌, ◌≤◌, ◌++◌, [], List, Some, length, map, IfOk};
ghost use Rattle.am_types.specs.Members.{Member};
ghost use Rattle.am_types.specs.Operations.{ascending};
ghost use Rattle.am_types.specs.Limits.{most_operations};
ghost use Rattle.am_places.specs.Numbered.{operation_of};
ghost use Rattle.am_places.specs.Rising.{Rise};
ghost use Rattle.am_places.specs.Sound.{HaveDistinctPreds};
ghost use Rattle.am_colmeta.specs.Metadata.{metadata, listing, body};
ghost use Rattle.am_doccols.specs.Columns.{written_rows};
ghost use Rattle.am_merge.specs.Carrying.{CanCarry};
ghost use Rattle.am_merge.specs.Growing.{Grows, HasTables, rows_in};
ghost use Rattle.am_merge.specs.Naming.{AreTables};
ghost use Rattle.am_merge.specs.Plans.{carried};
ghost use Rattle.am_merge.specs.Stops.{done_in, waiting_of};
ghost use Rattle.am_merge.specs.Walk.{beginning, walked};
ghost use Rattle.am_merge.specs.declared.naming.Naming.{Naming};

use crate::added::{added_operations, beginning};
use crate::carry::carried_text;
use crate::fresh::fresh_text;
use crate::guide::Guide;
use crate::mentions::{predecessors, references, table_of};
use crate::naming::Tables;
use crate::stops::Walk;
use crate::walk::walk_rows;
use am_doccols::RowCursor;
use am_places::Numbered;
use am_types::{ActorId, Bytes, Change, MOST_OPERATIONS};
use std::alloc::{AllocError, Global};

// What the operations name, in order.
fn tables_of<'a>(alloc: Global, operations: &[Numbered<'a>]) -> Result<Tables<'a>, AllocError>
    ensures { IfOk result (HasTables (map operation_of operations.now)) }
{
    let mentions = predecessors(alloc, operations)?;
    let named = table_of(alloc, mentions)?;
    let mentions = references(alloc, operations)?;
    let hanging = table_of(alloc, mentions)?;
    let named_guide = Guide::of(alloc, named.as_slice())?;
    let hanging_guide = Guide::of(alloc, hanging.as_slice())?;
    Ok(Tables {
        named,
        hanging,
        named_guide,
        hanging_guide,
    })
}

// The walk before the first row.
fn start<'a>(alloc: Global, operations: &[Numbered<'a>]) -> Result<Walk<'a>, AllocError>
    requires ascends { ascending (map operation_of operations.now) ≡ map operation_of operations.now }
    requires few { length operations.now ≤ most_operations }
    ensures few { IfOk result (λ w. w.skipped ≡ 0) }
    ensures left { IfOk result (λ w. w.left ≡ most_operations) }
    ensures waiting { IfOk result (λ w. waiting_of w ≡ beginning (map operation_of operations.now)) }
    ensures none { IfOk result (λ w. (named : List Naming) → done_in named w ≡ []) }
{
    let waiting = beginning(alloc, operations)?;
    Ok(Walk {
        stops: Vec::new(alloc),
        skipped: 0,
        waiting,
        left: MOST_OPERATIONS,
    })
}

// The walk over the rows.
fn walk_all<'a>(
    alloc: Global,
    operations: &[Numbered<'a>],
    tables: &Tables<'a>,
    rows: &RowCursor<'_>,
) -> Result<Walk<'a>, AllocError>
    requires ascends { ascending (map operation_of operations.now) ≡ map operation_of operations.now }
    requires few_added { length operations.now ≤ most_operations }
    requires few { length rows.now ≤ most_operations }
    ensures { IfOk result (λ w. AreTables (map operation_of operations.now) tables.now
        → done_in tables.now.named.items w ≡ walked (map operation_of operations.now) rows.now most_operations (beginning (map operation_of operations.now))) }
{
    let mut walk = start(alloc, operations)?;
    walk_rows(alloc, &mut walk, tables, rows)?;
    Ok(walk)
}

// The metadata and the body of the columns of the rows that the walk makes of these, where the tables are known.
fn walked_text<'a>(
    alloc: Global,
    actors: &[ActorId],
    rows: &RowCursor<'_>,
    operations: &[Numbered<'a>],
    tables: &Tables<'a>,
) -> Result<(Bytes, Bytes), AllocError>
    requires tables { AreTables (map operation_of operations.now) tables.now }
    requires few_added { length operations.now ≤ most_operations }
    requires few { length rows.now ≤ most_operations }
    requires can { CanCarry actors.now (Some []) (walked (map operation_of operations.now) rows.now most_operations (beginning (map operation_of operations.now))) rows.now }
    ensures metadata { IfOk result (λ text. text.0 ≡ metadata (listing (written_rows actors.now (carried (walked (map operation_of operations.now) rows.now most_operations (beginning (map operation_of operations.now))) rows.now)))) }
    ensures body { IfOk result (λ text. text.1 ≡ body (written_rows actors.now (carried (walked (map operation_of operations.now) rows.now most_operations (beginning (map operation_of operations.now))) rows.now))) }
{
    let walk = walk_all(alloc, operations, tables, rows)?;
    carried_text(
        alloc,
        actors,
        rows,
        tables.named.as_slice(),
        walk.stops.as_slice(),
        walk.skipped,
    )
}

// The metadata and the body of the columns of the rows that the walk makes of these.
fn text_with<'a>(
    alloc: Global,
    actors: &[ActorId],
    rows: &RowCursor<'_>,
    operations: &[Numbered<'a>],
) -> Result<(Bytes, Bytes), AllocError>
    requires ascends { ascending (map operation_of operations.now) ≡ (map operation_of operations.now) }
    requires rise { Rise (map operation_of operations.now) }
    requires few_added { length operations.now ≤ most_operations }
    requires distinct { HaveDistinctPreds (map operation_of operations.now) }
    requires few { length rows.now ≤ most_operations }
    requires can { CanCarry actors.now (Some []) (walked (map operation_of operations.now) rows.now most_operations (beginning (map operation_of operations.now))) rows.now }
    ensures metadata { IfOk result (λ text. text.0 ≡ metadata (listing (written_rows actors.now (carried (walked (map operation_of operations.now) rows.now most_operations (beginning (map operation_of operations.now))) rows.now)))) }
    ensures body { IfOk result (λ text. text.1 ≡ body (written_rows actors.now (carried (walked (map operation_of operations.now) rows.now most_operations (beginning (map operation_of operations.now))) rows.now))) }
{
    if rows.left() == 0 {
        return fresh_text(alloc, actors, operations);
    }
    let tables = tables_of(alloc, operations)?;
    walked_text(alloc, actors, rows, operations, &tables)
}

/// The metadata and the body of the columns of the larger set's rows, from the rows of the smaller one and the added changes.
/// Places name these actors. It takes time in n log m + m log m, of n old rows and m added operations and what they name.
pub(crate) fn rows_text(
    alloc: Global,
    actors: &[ActorId],
    rows: RowCursor<'_>,
    added: &[&Change],
) -> Result<(Bytes, Bytes), AllocError>
    requires { (C : List Member) × (E : List Member) × Grows C E actors.now rows (map (λ c. c.now) added.now) }
    ensures metadata { IfOk result (λ text. (C E : List Member) → Grows C E actors.now rows.entry (map (λ c. c.now) added.now) → text.0 ≡ metadata (listing (written_rows actors.now (rows_in (C ++ E))))) }
    ensures body { IfOk result (λ text. (C E : List Member) → Grows C E actors.now rows.entry (map (λ c. c.now) added.now) → text.1 ≡ body (written_rows actors.now (rows_in (C ++ E)))) }
{
    let operations = added_operations(alloc, added)?;
    text_with(alloc, actors, &rows, operations.as_slice())
}
