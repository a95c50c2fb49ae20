//! Documents whose rows are lent from changes.
ghost use Rattle.std.specs.Prelude.{◌≡◌, ◌≤◌, ◌++◌, ◌∷◌, [], List, Some, None, length, map, IfOk, IfSome, IfNone, OnOk};
ghost use Rattle.std.specs.List.{AllByRecursion};
ghost use Rattle.am_types.specs.declared.OpId.{OpId};
ghost use Rattle.am_types.specs.Rows.{row_of};
ghost use Rattle.am_types.specs.Views.{id_of};
ghost use Rattle.am_types.specs.Limits.{most_operations};
ghost use Rattle.am_colmeta.specs.Metadata.{metadata, listing, body as columns_body};
ghost use Rattle.am_doccols.specs.Columns.{written_rows};
ghost use Rattle.am_doccols.specs.Conditions.{IsRowFor, HasRoom, succ_count};
ghost use Rattle.am_doccols.specs.Lent.{row_with};
ghost use Rattle.am_places.specs.Numbered.{operation_of, ids_of};
ghost use Rattle.am_rows.specs.Lent.{lent_row};
ghost use Rattle.am_doc.specs.Contents.{body};
ghost use Rattle.am_doc.specs.Conditions.{IsWritable};
ghost use Rattle.am_doc.specs.Lent.{lent_table};

use crate::columns::metas_text;
use crate::join::joined;
use am_doccols::{RowFields, RowWriter};
use am_fields::text_in;
use am_rows::{LentRow, LentRows, Numbered};
use am_types::{ActorId, Bytes, Hash, IdRef, List, Meta};
use std::alloc::{AllocError, Global};

/// A table whose rows are lent.
#[derive(Drop)]
pub struct LentTable<'a> {
    pub actors: List<ActorId>,
    pub heads: List<Hash>,
    pub metas: List<Meta>,
    pub rows: LentRows<'a>,
    /// The place of each head among the change rows, from 0.
    pub suffix: Option<List<u64>>,
}

// The fields of the row of an operation.
fn fields_in<'a>(x: &Numbered<'a>) -> RowFields<'a>
    ensures { (succs : List OpId) → row_with result succs ≡ row_of succs (operation_of x.now) }
{
    RowFields {
        obj: x.op.obj.lend(),
        key: x.op.key.lend(),
        id: x.id(),
        insert: x.op.insert,
        action: x.op.action,
        value: x.op.value.lend(),
        expand: x.op.expand,
        mark: text_in(&x.op.mark),
    }
}

// The ids of these operations, lent, in the place of those that were listed.
fn lend_ids<'a>(ids: &mut Vec<IdRef<'a>>, operations: &[Numbered<'a>]) -> Result<(), AllocError>
    ensures { OnOk result (map id_of ids.new.items ≡ ids_of operations.now) }
{
    ids.clear();
    for i in 0..operations.len() {
        ids.push(operations[i].id())?;
    }
    Ok(())
}

// Appends a lent row; `ids` is room for the ids of its successors.
fn push_row<'a>(
    writer: &mut RowWriter,
    ids: &mut Vec<IdRef<'a>>,
    row: LentRow<'a>,
) -> Result<(), AllocError>
    requires row { IsRowFor writer.old.0 (lent_row row) }
    requires room { IfSome writer.old.1 (λ rows. HasRoom rows (ids_of row.succs.now)) }
    ensures actors { writer.new.0 ≡ writer.old.0 }
    ensures ok { OnOk result (IfSome writer.old.1 (λ rows. writer.new.1 ≡ Some (rows ++ lent_row row.entry ∷ []))) }
{
    lend_ids(ids, row.succs)?;
    writer.push_lent(fields_in(&row.operation), ids.as_slice())
}

// Appends lent rows.
fn push_rows(alloc: Global, writer: &mut RowWriter, rows: &LentRows<'_>) -> Result<(), AllocError>
    requires empty { writer.old.1 ≡ Some [] }
    requires all { AllByRecursion (IsRowFor writer.old.0) rows.now }
    requires few { length rows.now ≤ most_operations }
    requires few_succs { succ_count rows.now ≤ most_operations }
    ensures actors { OnOk result (writer.new.0 ≡ writer.old.0) }
    ensures rows { OnOk result (writer.new.1 ≡ Some rows.now) }
{
    let mut succs = Vec::new(alloc);
    for i in 0..rows.len() {
        push_row(writer, &mut succs, rows.get(i))?;
    }
    Ok(())
}

// The metadata and the body of the columns of lent rows.
fn lent_text(
    alloc: Global,
    actors: &[ActorId],
    rows: &LentRows<'_>,
) -> Result<(Bytes, Bytes), AllocError>
    requires all { AllByRecursion (IsRowFor actors.now) rows.now }
    requires few { length rows.now ≤ most_operations }
    requires few_succs { succ_count rows.now ≤ most_operations }
    ensures metadata { IfOk result (λ text. text.0 ≡ metadata (listing (written_rows actors.now rows.now))) }
    ensures body { IfOk result (λ text. text.1 ≡ columns_body (written_rows actors.now rows.now)) }
{
    let mut writer = RowWriter::new(alloc, actors)?;
    // (no way out lets go of the writer, whose proof would take long)
    let all = push_rows(alloc, &mut writer, rows);
    all.and(writer.finish())
}

/// The canonical contents of a document that says what the table says.
pub fn write_lent(alloc: Global, table: &LentTable<'_>) -> Result<Bytes, AllocError>
    requires { IsWritable (lent_table table.now) }
    ensures { IfOk result (λ bytes. bytes ≡ body (lent_table table.now)) }
{
    let actors = table.actors.as_slice();
    let metas = metas_text(alloc, actors, table.metas.as_slice())?;
    let rows = lent_text(alloc, actors, &table.rows)?;
    joined(
        alloc,
        actors,
        table.heads.as_slice(),
        &metas,
        &rows,
        &table.suffix,
    )
}
