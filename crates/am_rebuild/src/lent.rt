//! Rows that are lent, from the columns of a document.
ghost use Rattle.std.specs.Prelude.{◌≡◌, IfOk, map};
ghost use Rattle.am_types.specs.Views.{id_of};
ghost use Rattle.am_doccols.specs.Rows.{row_of};

use am_doccols::{RowCursor, RowRef, SuccCursor};
use am_types::{IdRef, KeyRef, ObjRef, ValueRef};
use std::alloc::{AllocError, Global};
use std::marker::Model;

/// A row that is lent. Only the list of its successors takes memory, if it has any. Contracts see the row.
#[derive(Drop)]
pub struct LentRow<'a> {
    pub(crate) obj: ObjRef<'a>,
    pub(crate) key: KeyRef<'a>,
    pub(crate) id: IdRef<'a>,
    pub(crate) insert: bool,
    pub(crate) action: u8,
    pub(crate) value: ValueRef<'a>,
    pub(crate) succs: Vec<IdRef<'a>>,
    pub(crate) expand: bool,
    pub(crate) mark: Option<&'a str>,
}

impl<'a> Model for LentRow<'a> {
    ghost use Rattle.am_types.specs.declared.Row.{Row};

    ghost Value = { Row };

    ghost use Rattle.am_rebuild.specs.Lent.{lent_row};

    ghost view = { lent_row };
}

// The ids that are left of a cursor, which are read.
fn succs_in<'a>(alloc: Global, succs: &mut SuccCursor<'a>) -> Result<Vec<IdRef<'a>>, AllocError>
    ensures { IfOk result (λ lent. map id_of lent.items ≡ succs.old) }
{
    let Some(first) = succs.next() else {
        return Ok(Vec::new(alloc));
    };
    // Most rows that have successors have one.
    let mut lent = Vec::with_capacity(alloc, 1)?;
    lent.push(first)?;
    while let Some(id) = succs.next() {
        lent.push(id)?;
    }
    Ok(lent)
}

// The row, whose successors are read.
fn row_in<'a>(alloc: Global, row: &mut RowRef<'a>) -> Result<LentRow<'a>, AllocError>
    ensures { IfOk result (λ lent. lent ≡ row_of row.old) }
{
    Ok(LentRow {
        obj: row.obj,
        key: row.key,
        id: row.id,
        insert: row.insert,
        action: row.action,
        value: row.value,
        succs: succs_in(alloc, &mut row.succs)?,
        expand: row.expand,
        mark: row.mark,
    })
}

/// The rows of a document.
pub(crate) fn rows_in<'a>(
    alloc: Global,
    rows: RowCursor<'a>,
) -> Result<Vec<LentRow<'a>>, AllocError>
    ensures { IfOk result (λ lent. lent.items ≡ rows.entry) }
{
    let mut lent = Vec::with_capacity(alloc, rows.left() as usize)?;
    let mut rest = rows;
    let mut row = RowRef::blank();
    while rest.next_into(&mut row) {
        lent.push(row_in(alloc, &mut row)?)?;
    }
    Ok(lent)
}
