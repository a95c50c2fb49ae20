//! Changes that are owned, of those that can be read. All is generic, so that a proof sees the change that is read and nothing of
//! what lends it.
ghost use Rattle.std.specs.Prelude.{◌≡◌, All, IfOk, map};
ghost use Rattle.am_types.specs.Fine.{Fine, FineOp, IsId};

use crate::copying::{id_in, key_in, mark_in, object_in, value_in};
use am_types::{Bytes, Change, Hash, List, Op, OpId, ReadChange, ReadOp, SharedActors, Text, Twin};
use std::alloc::{AllocError, Global};

// The predecessors.
fn preds_owned<O: ReadOp>(
    alloc: Global,
    known: &mut SharedActors,
    op: &O,
) -> Result<List<OpId>, AllocError>
    requires { All IsId (O.op op.now).preds }
    ensures { IfOk result (λ preds. preds ≡ (O.op op.now).preds) }
{
    let mut preds = Vec::with_capacity(alloc, op.pred_count())?;
    for i in 0..op.pred_count() {
        preds.push(id_in(alloc, known, op.pred(i))?)?;
    }
    Ok(List::from(preds))
}

// The operation.
#[tactic(auto, using(crate::proofs::Shorts::short_object, crate::proofs::Shorts::short_key))]
fn op_owned<O: ReadOp>(alloc: Global, known: &mut SharedActors, op: &O) -> Result<Op, AllocError>
    requires { FineOp (O.op op.now) }
    ensures { IfOk result (λ owned. owned ≡ O.op op.now) }
{
    Ok(Op {
        obj: object_in(alloc, known, op.obj())?,
        key: key_in(alloc, known, op.key())?,
        insert: op.insert(),
        action: op.action(),
        value: value_in(alloc, op.value())?,
        preds: preds_owned(alloc, known, op)?,
        expand: op.expand(),
        mark: mark_in(alloc, op.mark())?,
    })
}

// The operations.
fn ops_owned<O: ReadOp>(
    alloc: Global,
    known: &mut SharedActors,
    ops: &[O],
) -> Result<List<Op>, AllocError>
    requires { All FineOp (map O.op ops.now) }
    ensures { IfOk result (λ owned. owned ≡ map O.op ops.now) }
{
    let mut owned = Vec::with_capacity(alloc, ops.len())?;
    for op in ops {
        owned.push(op_owned(alloc, known, op)?)?;
    }
    Ok(List::from(owned))
}

// The hashes.
fn hashes_owned(alloc: Global, hashes: &[Hash]) -> Result<List<Hash>, AllocError>
    ensures { IfOk result (λ owned. owned ≡ hashes.now) }
{
    Ok(List::from(Vec::from_slice(alloc, hashes)?))
}

/// The change, owned. Actors share their bytes with those that came before.
pub(crate) fn owned<C: ReadChange>(
    alloc: Global,
    known: &mut SharedActors,
    change: &C,
) -> Result<Change, AllocError>
    requires { Fine (C.change change.now) }
    ensures { IfOk result (λ owned. owned ≡ C.change change.now) }
{
    Ok(Change {
        deps: hashes_owned(alloc, change.deps())?,
        actor: change.actor().copy(alloc)?,
        seq: change.seq(),
        start: change.start(),
        time: change.time(),
        message: Text::copy_of(alloc, change.message())?,
        ops: ops_owned(alloc, known, change.ops())?,
        extra: Bytes::copy_of(alloc, change.extra())?,
    })
}
