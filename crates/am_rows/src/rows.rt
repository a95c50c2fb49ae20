//! Rows in document order, copied.
ghost use Rattle.std.specs.Prelude.{◌≡◌, map, IfOk, vec_items};
ghost use Rattle.am_types.specs.Operations.{all_operations};
ghost use Rattle.am_types.specs.Rows as document;
ghost use Rattle.am_types.specs.ValidSets.{IsValidSet};
ghost use Rattle.am_places.specs.Numbered.{operation_of, ids_of};
ghost use Rattle.am_places.specs.Sound.{Sound};
ghost use Rattle.am_rows.specs.Lent.{lent_row};
ghost use Rattle.am_rows.specs.Making.{rows_in};

use crate::lent::{LentRow, LentRows};
use am_places::{Numbered, ascending_operations};
use am_types::{Change, List, OpId, Row, Twin};
use std::alloc::{AllocError, Global};

// The ids of these operations, copied.
fn ids_of(alloc: Global, operations: &[Numbered<'_>]) -> Result<List<OpId>, AllocError>
    ensures { IfOk result (λ ids. ids ≡ ids_of operations.now) }
{
    let mut ids = List::new(alloc);
    for i in 0..operations.len() {
        ids.push(operations[i].own_id(alloc)?)?;
    }
    Ok(ids)
}

// A row, copied.
fn row_of(alloc: Global, row: LentRow<'_>) -> Result<Row, AllocError>
    ensures { IfOk result (λ own. own ≡ lent_row row.entry) }
{
    let x = row.operation;
    let id = x.own_id(alloc)?;
    let obj = x.op.obj.copy(alloc)?;
    let key = x.op.key.copy(alloc)?;
    let value = x.op.value.copy(alloc)?;
    let mark = x.op.mark.copy(alloc)?;
    let succs = ids_of(alloc, row.succs)?;
    Ok(Row {
        obj,
        key,
        id,
        insert: x.op.insert,
        action: x.op.action,
        value,
        succs,
        expand: x.op.expand,
        mark,
    })
}

// All rows, copied.
fn rows_copied(alloc: Global, lent: &LentRows<'_>) -> Result<List<Row>, AllocError>
    ensures { IfOk result (λ rows. rows ≡ lent.now) }
{
    let mut rows = List::new(alloc);
    for i in 0..lent.len() {
        let row = row_of(alloc, lent.get(i))?;
        rows.push(row)?;
    }
    Ok(rows)
}

// The rows of operations in ascending id.
pub(crate) fn rows_in(alloc: Global, operations: Vec<Numbered<'_>>) -> Result<List<Row>, AllocError>
    requires sound { Sound (map operation_of (vec_items operations)) }
    ensures { IfOk result (λ rows. rows ≡ rows_in (map operation_of (vec_items operations.entry))) }
{
    let lent = LentRows::over(alloc, operations)?;
    rows_copied(alloc, &lent)
}

/// The rows of a valid set of changes, listed in any order: one for each operation that is no deletion, with the ids of
/// those that name it as a predecessor, in document order. It takes time in n log n, of n operations, predecessors and
/// bytes.
pub fn rows_of(alloc: Global, changes: &[Change]) -> Result<List<Row>, AllocError>
    requires valid { IsValidSet changes.now }
    ensures rows { IfOk result (λ rows. rows ≡ document.rows (all_operations changes.now)) }
{
    let operations = ascending_operations(alloc, changes)?;
    rows_in(alloc, operations)
}
