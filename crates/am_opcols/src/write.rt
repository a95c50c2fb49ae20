//! Writing the operations of a change to their canonical columns.
ghost use Rattle.std.specs.Prelude.{◌≡◌, ◌+◌, ◌≤◌, ◌++◌, ◌∷◌, [], ℕ, All, length, map, IfOk, OnOk};
ghost use Rattle.am_types.specs.Fine.{FineOp, pred_count};
ghost use Rattle.am_types.specs.Limits.{most_operations};
ghost use Rattle.am_colmeta.specs.Metadata.{metadata, listing, body, not_empty};
ghost use Rattle.am_fields.specs.Columns.{spellings};
ghost use Rattle.am_opcols.specs.Columns.{op_columns};
ghost use Rattle.am_opcols.specs.Others.{others};
ghost use Rattle.am_opcols.specs.Writing.{written_columns};

use crate::cells::{Action, KeyPlace, Metadata, ObjectCounter, ObjectPlace, PredCount};
use crate::columns::{
    expands_in, inserts_in, key_names_in, marks_in, push_key_counters, push_numbers,
    push_pred_actors, push_pred_counters, push_raw,
};
use crate::others::others_of;
use am_colmeta::push_metadata;
use am_delta::DeltaList;
use am_fields::{ListedActors, specifications};
use am_types::{ActorId, Bytes, List, ReadOp, Twin};
use std::alloc::{AllocError, Global};

/// The columns of a change's operations, as its chunk has them.
#[derive(Drop)]
pub struct OpsText {
    /// The actors that the operations name, without the author, ascending.
    pub others: List<ActorId>,
    /// The column metadata.
    pub metadata: Bytes,
    /// The columns, one after another.
    pub body: Bytes,
}

// Appends a column that was finished.
fn push_column(out: &mut Vec<u8>, column: Bytes) -> Result<(), AllocError>
    ensures { OnOk result (out.new.items ≡ out.old.items ++ column) }
{
    out.extend_from_slice(column.as_slice())
}

// Lists the column that begins at this place of what is written and is the last.
fn push_listed(
    listed: &mut Vec<(u64, u64)>,
    specification: u64,
    begin: usize,
    out: &[u8],
) -> Result<(), AllocError>
    requires { begin ≤ length out.now }
    ensures { OnOk result ((n : ℕ) → begin + n ≡ length out.now → listed.new.items ≡ listed.old.items ++ (specification, n) ∷ []) }
{
    listed.push((specification, (out.len() - begin) as u64))?;
    Ok(())
}

// Writes the columns of the operations, one behind another, and lists them. The room is for what stands in one of
// them.
fn push_columns<O: ReadOp>(
    alloc: Global,
    out: &mut Vec<u8>,
    listed: &mut Vec<(u64, u64)>,
    numbers: &mut Vec<Option<u64>>,
    counters: &mut DeltaList,
    actors: &ListedActors<'_>,
    ops: &[O],
) -> Result<(), AllocError>
    requires fine { All FineOp (map O.op ops.now) }
    requires few { length ops.now ≤ most_operations }
    requires few_preds { pred_count (map O.op ops.now) ≤ most_operations }
    requires empty { out.old.items ≡ [] }
    requires none { listed.old.items ≡ [] }
    ensures { OnOk result ((out.new.items ≡ body (spellings actors.now (op_columns (map O.op ops.now)))) × (listed.new.items ≡ listing (spellings actors.now (op_columns (map O.op ops.now))))) }
{
    let at = out.len();
    push_numbers::<ObjectPlace, O>(out, numbers, actors, ops)?;
    push_listed(listed, specifications::OBJECT_ACTOR, at, out)?;
    let at = out.len();
    push_numbers::<ObjectCounter, O>(out, numbers, actors, ops)?;
    push_listed(listed, specifications::OBJECT_COUNTER, at, out)?;
    let at = out.len();
    push_numbers::<KeyPlace, O>(out, numbers, actors, ops)?;
    push_listed(listed, specifications::KEY_ACTOR, at, out)?;
    let at = out.len();
    push_key_counters(out, counters, ops)?;
    push_listed(listed, specifications::KEY_COUNTER, at, out)?;
    let at = out.len();
    push_column(out, key_names_in(alloc, ops)?)?;
    push_listed(listed, specifications::KEY_NAME, at, out)?;
    let at = out.len();
    push_column(out, inserts_in(alloc, ops)?)?;
    push_listed(listed, specifications::INSERT, at, out)?;
    let at = out.len();
    push_numbers::<Action, O>(out, numbers, actors, ops)?;
    push_listed(listed, specifications::ACTION, at, out)?;
    let at = out.len();
    push_numbers::<Metadata, O>(out, numbers, actors, ops)?;
    push_listed(listed, specifications::VALUE_METADATA, at, out)?;
    let at = out.len();
    push_raw(out, ops)?;
    push_listed(listed, specifications::VALUE_RAW, at, out)?;
    let at = out.len();
    push_numbers::<PredCount, O>(out, numbers, actors, ops)?;
    push_listed(listed, specifications::PRED_COUNT, at, out)?;
    let at = out.len();
    push_pred_actors(out, numbers, actors, ops)?;
    push_listed(listed, specifications::PRED_ACTOR, at, out)?;
    let at = out.len();
    push_pred_counters(out, counters, ops)?;
    push_listed(listed, specifications::PRED_COUNTER, at, out)?;
    let at = out.len();
    push_column(out, expands_in(alloc, ops)?)?;
    push_listed(listed, specifications::EXPAND, at, out)?;
    let at = out.len();
    push_column(out, marks_in(alloc, ops)?)?;
    push_listed(listed, specifications::MARK, at, out)?;
    Ok(())
}

// The metadata and the body of the operations. Body and metadata begin with room for most changes.
fn text_of<O: ReadOp>(
    alloc: Global,
    actors: &ListedActors<'_>,
    ops: &[O],
) -> Result<(Bytes, Bytes), AllocError>
    requires fine { All FineOp (map O.op ops.now) }
    requires few { length ops.now ≤ most_operations }
    requires few_preds { pred_count (map O.op ops.now) ≤ most_operations }
    ensures metadata { IfOk result (λ text. text.0 ≡ metadata (listing (not_empty (spellings actors.now (op_columns (map O.op ops.now)))))) }
    ensures body { IfOk result (λ text. text.1 ≡ body (not_empty (spellings actors.now (op_columns (map O.op ops.now))))) }
{
    let mut numbers = Vec::with_capacity(alloc, ops.len())?;
    let mut counters = DeltaList::new(alloc);
    let mut listed = Vec::with_capacity(alloc, 14)?;
    let mut body = Vec::with_capacity(alloc, 128)?;
    push_columns(
        alloc,
        &mut body,
        &mut listed,
        &mut numbers,
        &mut counters,
        actors,
        ops,
    )?;
    let mut metadata = Vec::with_capacity(alloc, 32)?;
    push_metadata(&mut metadata, listed.as_slice())?;
    Ok((Bytes::from(metadata), Bytes::from(body)))
}

/// The columns of the operations of a fine change by this author, in their canonical spelling.
pub fn write_ops<O: ReadOp>(
    alloc: Global,
    ops: &[O],
    author: &ActorId,
) -> Result<OpsText, AllocError>
    requires fine { All FineOp (map O.op ops.now) }
    requires few { length ops.now ≤ most_operations }
    requires few_preds { pred_count (map O.op ops.now) ≤ most_operations }
    ensures others { IfOk result (λ text. text.others ≡ others author.now (map O.op ops.now)) }
    ensures metadata { IfOk result (λ text. text.metadata ≡ metadata (listing (written_columns author.now (map O.op ops.now)))) }
    ensures body { IfOk result (λ text. text.body ≡ body (written_columns author.now (map O.op ops.now))) }
{
    let mut actors = others_of(alloc, ops, author.as_slice())?;
    let first = author.copy(alloc)?;
    actors.insert(0, first)?;
    let (metadata, body) = text_of(alloc, &ListedActors::of(&actors), ops)?;
    let _author = actors.remove(0);
    Ok(OpsText {
        others: List::from(actors),
        metadata,
        body,
    })
}
