//! A whole delivery.
ghost use Rattle.std.specs.Prelude.{◌≡◌, ◌≤◌, ◌+◌, ◌++◌, [], All, IfOk, IfSome, OnOk, OnErr, IsPermutation, None, length, vec_capacity, vec_items, vec_len};
ghost use Rattle.am_types.specs.Deliver.{MayCome, AreStored, Waits, settle, deliver as delivered};
ghost use Rattle.am_types.specs.ValidSets.{Valid};
ghost use Rattle.am_delivery.specs.Tracking.{Tracks};
ghost use Rattle.am_delivery.specs.Views.{tracker};
ghost use Rattle.am_delivery.specs.Waiting.{members_of, unboxed, waiting_of, remaining, taken_out, all_gone, sets, IsTracked};

use crate::admitting::{Gone, settle_all};
use crate::arriving::{lacking, receive_all};
use crate::closed::Closed;
use crate::finishing::finish_with;
use crate::pending::Pending;
use crate::removing::{move_all, remove_all};
use am_types::{Change, Hash, List, Rejected};
use std::alloc::{AllocError, Global};
use std::collections::BTreeMap;

/// What a delivery has come to.
#[derive(Drop)]
pub struct Settled {
    /// The changes that have joined, each in its box and beside its hash, in the order in which they joined.
    pub joined: Vec<(Hash, Box<Change>)>,
    /// What was rejected, in order.
    pub rejected: List<Rejected>,
}

// What the waiting changes lack.
fn enter_all<S: Closed>(
    alloc: Global,
    closed: &S,
    waiting: &BTreeMap<Hash, Box<Change>>,
) -> Result<Pending, AllocError>
    requires { All MayCome (waiting_of waiting.now) }
    ensures { IfOk result (λ pending. Tracks (S.members closed.now) (waiting_of waiting.now) (tracker pending)) }
{
    let mut pending = Pending::new(alloc);
    for (hash, change) in waiting.iter() {
        let absent = lacking(alloc, closed, change.deps.as_slice())?;
        pending.enter(alloc, *hash, absent.as_slice())?;
    }
    Ok(pending)
}

// What the waiting changes lack, which is taken out of where it is kept or, where it isn't kept, found anew.
fn take_pending<S: Closed>(
    alloc: Global,
    closed: &S,
    waiting: &BTreeMap<Hash, Box<Change>>,
    pending: &mut Option<Pending>,
) -> Result<Pending, AllocError>
    requires may_come { All MayCome (waiting_of waiting.now) }
    requires tracked { IsTracked (S.members closed.now) (waiting_of waiting.now) pending.old }
    ensures tracks { IfOk result (λ pending. Tracks (S.members closed.now) (waiting_of waiting.now) (tracker pending)) }
    ensures taken { pending.new ≡ None }
{
    match pending.take() {
        Some(pending) => Ok(pending),
        None => enter_all(alloc, closed, waiting),
    }
}

// What is kept of what the waiting changes lack: nothing where none waits.
fn kept(waiting: &BTreeMap<Hash, Box<Change>>, pending: Pending) -> Option<Pending>
    ensures { IfSome result (λ kept. kept ≡ pending) }
{
    if waiting.is_empty() {
        return None;
    }
    Some(pending)
}

/// What is left to do when nothing can fail any more.
#[derive(Drop)]
struct Outcome {
    /// Which changes wait no longer.
    gone: Gone,
    /// Room for those that have joined.
    room: Vec<(Hash, Box<Change>)>,
    /// What was rejected.
    rejected: Vec<Rejected>,
}

// Settles, and then the closed set comes to rest. Those that wait no longer stay in the map.
fn bring_to_rest<S: Closed>(
    alloc: Global,
    closed: &mut S,
    waiting: &BTreeMap<Hash, Box<Change>>,
    pending: &mut Pending,
    mut rejected: Vec<Rejected>,
) -> Result<Outcome, AllocError>
    requires rest { S.members closed.old ≡ S.base closed.old }
    requires tracks { Tracks (S.members closed.old) (waiting_of waiting.now) (tracker pending.old) }
    requires valid { Valid (S.members closed.old) }
    requires waits { All (Waits (S.members closed.old)) (waiting_of waiting.now) }
    requires admitted { All S.admits (waiting_of waiting.now) }
    ensures settles { IfOk result (λ o. sets (S.members closed.new) (remaining (all_gone o.gone) (waiting_of waiting.now)) o.rejected ≡ settle (sets (S.members closed.old) (waiting_of waiting.now) rejected)) }
    ensures joined { IfOk result (λ o. S.members closed.new ≡ S.members closed.old ++ taken_out (vec_items o.gone.joined) (waiting_of waiting.now)) }
    ensures empty { IfOk result (λ o. vec_items o.room ≡ []) }
    ensures room { IfOk result (λ o. vec_len o.room + length (vec_items o.gone.joined) ≤ vec_capacity o.room) }
    ensures tracks { IfOk result (λ o. Tracks (S.members closed.new) (remaining (all_gone o.gone) (waiting_of waiting.now)) (tracker pending.new)) }
    ensures rest { OnOk result (S.members closed.new ≡ S.base closed.new) }
    ensures base { OnErr result (S.base closed.new ≡ S.base closed.old) }
{
    let mut lent = Vec::new(alloc);
    let gone = settle_all(alloc, closed, waiting, pending, &mut rejected, &mut lent)?;
    let room = Vec::with_capacity(alloc, gone.joined.len())?;
    finish_with(alloc, closed, waiting, lent.as_slice())?;
    Ok(Outcome {
        gone,
        room,
        rejected,
    })
}

// Delivers changes, but leaves those that wait no longer in the map. The hashes of those that have come into it are put
// down. The closed set comes to rest. Then nothing is left that can fail.
fn take_up<S: Closed>(
    alloc: Global,
    closed: &mut S,
    waiting: &mut BTreeMap<Hash, Box<Change>>,
    pending: &mut Pending,
    came: &mut Vec<Hash>,
    changes: Vec<(Hash, Change)>,
) -> Result<Outcome, AllocError>
    requires rest { S.members closed.old ≡ S.base closed.old }
    requires stored { AreStored (S.members closed.old) (waiting_of waiting.old) }
    requires may_come { All MayCome (members_of (vec_items changes)) }
    requires admitted { All S.admits (waiting_of waiting.old ++ members_of (vec_items changes)) }
    requires tracks { Tracks (S.members closed.old) (waiting_of waiting.old) (tracker pending.old) }
    ensures closed { OnOk result (S.members closed.new ≡ (delivered (S.members closed.old) (waiting_of waiting.old) (members_of (vec_items changes))).closed) }
    ensures waiting { IfOk result (λ o. IsPermutation (delivered (S.members closed.old) (waiting_of waiting.old) (members_of (vec_items changes))).waiting (remaining (all_gone o.gone) (waiting_of waiting.new))) }
    ensures rejected { IfOk result (λ o. vec_items o.rejected ≡ (delivered (S.members closed.old) (waiting_of waiting.old) (members_of (vec_items changes))).rejected) }
    ensures joined { IfOk result (λ o. S.members closed.new ≡ S.members closed.old ++ taken_out (vec_items o.gone.joined) (waiting_of waiting.new)) }
    ensures empty { IfOk result (λ o. vec_items o.room ≡ []) }
    ensures room { IfOk result (λ o. vec_len o.room + length (vec_items o.gone.joined) ≤ vec_capacity o.room) }
    ensures stored { IfOk result (λ o. AreStored (S.members closed.new) (remaining (all_gone o.gone) (waiting_of waiting.new))) }
    ensures rest { OnOk result (S.members closed.new ≡ S.base closed.new) }
    ensures base { OnErr result (S.base closed.new ≡ S.base closed.old) }
    ensures tracks { IfOk result (λ o. Tracks (S.members closed.new) (remaining (all_gone o.gone) (waiting_of waiting.new)) (tracker pending.new)) }
    ensures kept { remaining (vec_items came.new) (waiting_of waiting.new) ≡ remaining (vec_items came.old) (waiting_of waiting.old) }
{
    let mut rejected = Vec::new(alloc);
    receive_all(
        alloc,
        closed,
        waiting,
        pending,
        came,
        &mut rejected,
        changes,
    )?;
    let outcome = bring_to_rest(alloc, closed, waiting, pending, rejected)?;
    Ok(outcome)
}

/// Delivers changes, each beside its hash, to a closed set at rest and the changes that wait beside it, and hands out
/// those that have joined. A change that is held is skipped, and one whose hash another change has is rejected; the
/// others wait. Then the ready changes, the one of least hash first, join the closed set or are rejected, until none is
/// ready. What the waiting changes lack is kept in `pending` from delivery to delivery, and nothing where none waits. It
/// takes time in proportion to n log n, where n changes and dependencies come or wait no longer, beside what the closed
/// set takes; where nothing is kept, all waiting changes count. The closed set is at rest again. Without memory the same
/// changes wait as before, nothing is kept of what they lack, and of the closed set only what was at rest is known.
pub fn deliver<S: Closed>(
    alloc: Global,
    closed: &mut S,
    waiting: &mut BTreeMap<Hash, Box<Change>>,
    pending: &mut Option<Pending>,
    changes: Vec<(Hash, Change)>,
) -> Result<Settled, AllocError>
    requires rest { S.members closed.old ≡ S.base closed.old }
    requires stored { AreStored (S.members closed.old) (waiting_of waiting.old) }
    requires tracked { IsTracked (S.members closed.old) (waiting_of waiting.old) pending.old }
    requires may_come { All MayCome (members_of (vec_items changes)) }
    requires admitted { All S.admits (waiting_of waiting.old ++ members_of (vec_items changes)) }
    ensures closed { OnOk result (S.members closed.new ≡ (delivered (S.members closed.old) (waiting_of waiting.old) (members_of (vec_items changes))).closed) }
    ensures waiting { OnOk result (IsPermutation (delivered (S.members closed.old) (waiting_of waiting.old) (members_of (vec_items changes))).waiting (waiting_of waiting.new)) }
    ensures rejected { IfOk result (λ settled. settled.rejected ≡ (delivered (S.members closed.old) (waiting_of waiting.old) (members_of (vec_items changes))).rejected) }
    ensures joined { IfOk result (λ settled. S.members closed.new ≡ S.members closed.old ++ members_of (unboxed (vec_items settled.joined))) }
    ensures stored { OnOk result (AreStored (S.members closed.new) (waiting_of waiting.new)) }
    ensures tracked { OnOk result (IsTracked (S.members closed.new) (waiting_of waiting.new) pending.new) }
    ensures rest { OnOk result (S.members closed.new ≡ S.base closed.new) }
    ensures base { OnErr result (S.base closed.new ≡ S.base closed.old) }
    ensures err { OnErr result (waiting_of waiting.new ≡ waiting_of waiting.old) }
    ensures unknown { OnErr result (pending.new ≡ None) }
{
    let mut lacking = take_pending(alloc, closed, waiting, pending)?;
    let mut came = Vec::new(alloc);
    match take_up(alloc, closed, waiting, &mut lacking, &mut came, changes) {
        Ok(outcome) => {
            let Outcome {
                gone,
                room: mut joined,
                rejected,
            } = outcome;
            move_all(waiting, gone.joined.as_slice(), &mut joined);
            remove_all(waiting, gone.turned_away.as_slice());
            *pending = kept(waiting, lacking);
            Ok(Settled {
                joined,
                rejected: List::from(rejected),
            })
        }
        Err(error) => {
            remove_all(waiting, came.as_slice());
            Err(error)
        }
    }
}
