//! Reading a change back from the contents of its chunk.
ghost use Rattle.std.specs.Prelude.{◌≡◌, ◌<◌, ◌≤◌, ◌^◌, ◌*◌, ◌++◌, ◌∷◌, ◌⊎◌, ◌↔◌, length, IsTrue, IfOk, IfSome, IsSomeAnd};
ghost use Rattle.am_types.specs.declared.Change.{Change};
ghost use Rattle.am_types.specs.Fine.{Fine};
ghost use Rattle.am_types.specs.Limits.{longest_actor};
ghost use Rattle.am_colmeta.specs.Metadata.{listing, body, Ascend};
ghost use Rattle.am_colmeta.specs.Judgement.{AreKnown};
ghost use Rattle.am_opcols.specs.Columns.{op_specifications, SpellsOps};
ghost use Rattle.am_opcols.specs.Others.{others as others_of};
ghost use Rattle.am_opcols.specs.Writing.{written_columns};
ghost use Rattle.am_change.specs.Contents.{contents};
ghost use Rattle.am_change.specs.Fronts.{front as front_in};
ghost use Rattle.am_change.specs.Building.{front_of};
ghost use Rattle.am_change.specs.Judgement.{Judges};

use crate::copying::change_in;
use crate::fault::ChangeFault;
use crate::fine::are_fine_with_values;
use crate::fine_parts::is_fine_beside;
use crate::front::FrontRef;
use am_colmeta::Columns;
use am_fields::specifications;
use am_opcols::{OpColumns, OpCursor};
use am_types::{Change, LONGEST_ACTOR, Op, SharedActors};
use std::alloc::{AllocError, Global};
use std::str::from_utf8;

// The specifications of the columns that the operations of a change may have.
const KNOWN: [u64; 14] = [
    specifications::OBJECT_ACTOR,
    specifications::OBJECT_COUNTER,
    specifications::KEY_ACTOR,
    specifications::KEY_COUNTER,
    specifications::KEY_NAME,
    specifications::INSERT,
    specifications::ACTION,
    specifications::VALUE_METADATA,
    specifications::VALUE_RAW,
    specifications::PRED_COUNT,
    specifications::PRED_ACTOR,
    specifications::PRED_COUNTER,
    specifications::EXPAND,
    specifications::MARK,
];

// What stands behind the front of a change: its columns, the operations that they spell, its message, and the bytes behind
// the columns.
#[derive(Drop)]
pub struct Behind<'a> {
    pub columns: OpColumns<'a>,
    pub ops: OpCursor<'a>,
    pub message: &'a str,
    pub extra: &'a [u8],
}

// What stands behind the front of a change; None where there is no such.
pub fn behind_front<'a>(front: &FrontRef<'a>, rest: &'a [u8]) -> Option<Behind<'a>>
    ensures spelled { IfSome result (λ r. SpellsOps (front.now.actor.now ∷ front.now.others) r.columns r.ops) }
    ensures ascend { IfSome result (λ r. Ascend (listing r.columns)) }
    ensures are_known { IfSome result (λ r. AreKnown op_specifications (listing r.columns)) }
    ensures listed { IfSome result (λ r. listing r.columns ≡ front.now.listed) }
    ensures joined { IfSome result (λ r. rest.now ≡ body r.columns ++ r.extra.now) }
    ensures message { IfSome result (λ r. r.message.now ≡ front.now.message.now) }
    ensures some { IfSome result (λ r. 1 ≤ length front.now.actor.now) }
    ensures few { IfSome result (λ r. length front.now.actor.now ≤ longest_actor) }
    ensures only { (c : Change) → Fine c → length (contents c) < 2 ^ 64 → front_of front.now ≡ front_in c → rest.now ≡ body (written_columns c.actor c.ops) ++ c.extra
        → IsSomeAnd result (λ r. (r.ops ≡ c.ops) × (r.extra.now ≡ c.extra) × (r.columns ≡ written_columns c.actor c.ops)) }
{
    let total = front.listed.total();
    if total > rest.len() as u128 {
        return None;
    }
    let (body, extra) = rest.split_at(total as usize);
    let Ok(columns) = Columns::over(front.listed.again(), body, &KNOWN) else {
        return None;
    };
    let columns = OpColumns::of(columns);
    let Ok(ops) = columns.ops(front.actor, front.others.again()) else {
        return None;
    };
    let Ok(message) = from_utf8(front.message) else {
        return None;
    };
    if front.actor.is_empty() || front.actor.len() > LONGEST_ACTOR {
        return None;
    }
    Some(Behind {
        columns,
        ops,
        message,
        extra,
    })
}

// Whether the columns and the other actors are just those that a writer of the operations leaves.
pub fn is_canonical(front: &FrontRef<'_>, behind: &Behind<'_>) -> bool
    requires spelled { SpellsOps (front.now.actor.now ∷ front.now.others) behind.now.columns behind.now.ops }
    requires ascend { Ascend (listing behind.now.columns) }
    requires known { AreKnown op_specifications (listing behind.now.columns) }
    ensures { IsTrue result ↔ ((front.now.others ≡ others_of front.now.actor.now behind.now.ops) × (behind.now.columns ≡ written_columns front.now.actor.now behind.now.ops)) }
{
    let columns = &behind.columns;
    columns.are_canonical(front.actor, &front.others, &behind.ops)
}

// The length of a slice fits 64 bits.
pub fn length_known(bytes: &[u8])
    ensures { length bytes.now < 2 ^ 64 }
{
    let _size = bytes.len();
}

// The same, of operations that were copied.
fn is_canonical_of(
    alloc: Global,
    front: &FrontRef<'_>,
    behind: &Behind<'_>,
    ops: &[Op],
) -> Result<bool, AllocError>
    requires spelled { SpellsOps (front.now.actor.now ∷ front.now.others) behind.now.columns ops.now }
    requires ascend { Ascend (listing behind.now.columns) }
    requires known { AreKnown op_specifications (listing behind.now.columns) }
    ensures { IfOk result (λ canonical. IsTrue canonical ↔ ((front.now.others ≡ others_of front.now.actor.now ops.now) × (behind.now.columns ≡ written_columns front.now.actor.now ops.now))) }
{
    let columns = &behind.columns;
    columns.are_canonical_of(alloc, front.actor, &front.others, ops)
}

// The change with these contents. What stands beside its operations is judged first; these are copied before they are
// judged, so that they are read once.
fn parsed(alloc: Global, actors: &mut SharedActors, bytes: &[u8]) -> Result<Change, ChangeFault>
    ensures { Judges bytes.now result }
{
    length_known(bytes);
    let Some((front, rest)) = FrontRef::read(bytes) else {
        return Err(ChangeFault::BadChange);
    };
    if front.listed.compressed() {
        return Err(ChangeFault::CompressedColumn);
    }
    let Some(mut behind) = behind_front(&front, rest) else {
        return Err(ChangeFault::BadChange);
    };
    let count = behind.ops.left();
    if !is_fine_beside(&front, behind.message, count, behind.extra) {
        return Err(ChangeFault::BadChange);
    }
    let (message, extra) = (behind.message, behind.extra);
    let Ok(change) = change_in(alloc, actors, &front, message, &mut behind.ops, extra) else {
        return Err(ChangeFault::NoMemory);
    };
    if !are_fine_with_values(change.ops.as_slice()) {
        return Err(ChangeFault::BadChange);
    }
    let Ok(canonical) = is_canonical_of(alloc, &front, &behind, change.ops.as_slice()) else {
        return Err(ChangeFault::NoMemory);
    };
    if !canonical {
        return Err(ChangeFault::BadChange);
    }
    Ok(change)
}

/// The change with these contents of a chunk (Automerge Binary Document Format, "Change Chunks"). CompressedColumn where
/// the parts in front of the columns can be read and list a column that is compressed by DEFLATE, else BadChange where no
/// fine change has them, NoMemory where the allocator had no memory.
pub fn parse_change(alloc: Global, bytes: &[u8]) -> Result<Change, ChangeFault>
    ensures judged { Judges bytes.now result }
    // The contents of a fine change are read as this change.
    ensures complete { (c : Change) → Fine c → bytes.now ≡ contents c → (result ≡ Ok c) ⊎ (result ≡ Err ChangeFault.NoMemory) }
{
    let mut actors = SharedActors::new(alloc);
    parse_change_sharing(alloc, &mut actors, bytes)
}

/// The same, where actors share their bytes with those of changes that were read before. So the changes of a file take less
/// memory, and ids are compared in fewer places of it.
pub fn parse_change_sharing(
    alloc: Global,
    actors: &mut SharedActors,
    bytes: &[u8],
) -> Result<Change, ChangeFault>
    ensures judged { Judges bytes.now result }
    ensures complete { (c : Change) → Fine c → bytes.now ≡ contents c → (result ≡ Ok c) ⊎ (result ≡ Err ChangeFault.NoMemory) }
{
    length_known(bytes);
    parsed(alloc, actors, bytes)
}
