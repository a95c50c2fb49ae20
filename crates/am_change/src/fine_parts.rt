//! Whether a change that is lent from its contents is fine.
ghost use Rattle.std.specs.Prelude.{◌≡◌, ◌↔◌, ◌+◌, ◌*◌, ◌≤◌, ◌<◌, ◌<ℤ◌, ◌^◌, List, All, IsTrue, length, neg_ℤ, pos};
ghost use Rattle.std.specs.List.{AllByRecursion};
ghost use Rattle.std.specs.declared.cmp.Ordering.TheVariants.{Less};
ghost use Rattle.am_types.specs.declared.Op.{Op as AnOp};
ghost use Rattle.am_types.specs.Order.{bytes_cmp, hash_cmp};
ghost use Rattle.am_types.specs.Fine.{Fine, FineOp, pred_count};
ghost use Rattle.am_types.specs.Limits.{counter_end, longest_actor, most_operations};
ghost use Rattle.am_opcols.specs.Chains.{Chain};
ghost use Rattle.am_change.specs.Building.{hashes_in, front_of, change_with, IsFrontFine};

use crate::fine_op::is_fine_op;
use crate::front::FrontRef;
use am_opcols::OpCursor;
use am_types::{
    GREATEST_COUNTER, GREATEST_TIME, MOST_BYTES, MOST_OPERATIONS, compare_bytes, slice_known,
    str_known,
};
use std::cmp::Ordering;

fn is_below(a: &[u8], b: &[u8]) -> bool
    ensures { IsTrue result ↔ (bytes_cmp a.now b.now ≡ Less) }
{
    compare_bytes(a, b) == Ordering::Less
}

// Whether each of the hashes that stand one after another is below the next.
pub fn hashes_ascend(bytes: &[u8], count: u64) -> bool
    requires { length bytes.now ≡ 32 * count }
    ensures { IsTrue result ↔ Chain hash_cmp (hashes_in count bytes.now) }
{
    if count == 0 {
        return true;
    }
    let (first, more) = bytes.split_at(32);
    let mut before = first;
    let mut rest = more;
    let mut left = count - 1;
    while left > 0 {
        let (hash, more) = rest.split_at(32);
        if !is_below(before, hash) {
            return false;
        }
        before = hash;
        rest = more;
        left -= 1;
    }
    true
}

// Whether each operation is fine.
fn are_fine_ops(ops: &OpCursor<'_>) -> bool
    ensures { IsTrue result ↔ AllByRecursion FineOp ops.now }
{
    let mut rest = ops.again();
    while let Some(op) = rest.next() {
        if !is_fine_op(&op) {
            return false;
        }
    }
    true
}

// Whether the numbers of a change with so many operations are within their limits.
fn are_good(front: &FrontRef<'_>, count: u64) -> bool
    requires { count ≤ most_operations }
    ensures { IsTrue result ↔ ((1 ≤ front.now.seq) × (front.now.seq < counter_end) × (1 ≤ front.now.start) × (front.now.start + count ≤ counter_end)
        × (neg_ℤ (pos (2 ^ 62)) <ℤ front.now.time) × (front.now.time <ℤ pos (2 ^ 62))) }
{
    front.seq >= 1
        && front.seq <= GREATEST_COUNTER
        && front.start >= 1
        && front.start <= GREATEST_COUNTER + 1 - count
        && front.time >= -GREATEST_TIME
        && front.time <= GREATEST_TIME
}

// Whether a change may have so many dependencies.
pub fn are_few(count: u64) -> bool
    ensures { IsTrue result ↔ (count ≤ most_operations) }
{
    count <= MOST_OPERATIONS
}

// Whether so many bytes may stand behind the columns.
pub fn is_short(bytes: &[u8]) -> bool
    ensures { IsTrue result ↔ (length bytes.now < 2 ^ 60) }
{
    bytes.len() <= MOST_BYTES
}

// Whether what stands beside the operations of a change, of which there are so many, passes each test.
fn passes(front: &FrontRef<'_>, count: u64, extra: &[u8]) -> bool
    requires hashes { length front.now.hashes.now ≡ 32 * front.now.count }
    requires few { count ≤ most_operations }
    ensures { IsTrue result ↔ IsFrontFine front.now count extra.now }
{
    are_few(front.count)
        && is_short(extra)
        && are_good(front, count)
        && hashes_ascend(front.hashes, front.count)
}

// Whether what stands beside the operations of a change is that of a fine one, whatever so many fine operations there are.
pub fn is_fine_beside(front: &FrontRef<'_>, message: &str, count: u64, extra: &[u8]) -> bool
    requires hashes { length front.now.hashes.now ≡ 32 * front.now.count }
    requires message { message.now ≡ front.now.message.now }
    requires some { 1 ≤ length front.now.actor.now }
    requires short { length front.now.actor.now ≤ longest_actor }
    requires few { count ≤ most_operations }
    ensures fine { IsTrue result → (ops : List AnOp) → length ops ≡ count → pred_count ops ≤ most_operations → All FineOp ops → Fine (change_with (front_of front.now) ops extra.now) }
    ensures only { (ops : List AnOp) → length ops ≡ count → Fine (change_with (front_of front.now) ops extra.now) → IsTrue result }
{
    slice_known(front.hashes);
    slice_known(front.actor);
    slice_known(extra);
    str_known(message);
    passes(front, count, extra)
}

// Whether the change of these parts is fine.
pub fn are_fine(front: &FrontRef<'_>, message: &str, ops: &OpCursor<'_>, extra: &[u8]) -> bool
    requires hashes { length front.now.hashes.now ≡ 32 * front.now.count }
    requires message { message.now ≡ front.now.message.now }
    requires some { 1 ≤ length front.now.actor.now }
    requires short { length front.now.actor.now ≤ longest_actor }
    requires few { length ops.now ≤ most_operations }
    requires few_preds { pred_count ops.now ≤ most_operations }
    ensures { IsTrue result ↔ Fine (change_with (front_of front.now) ops.now extra.now) }
{
    if !is_fine_beside(front, message, ops.left(), extra) {
        return false;
    }
    are_fine_ops(ops)
}
