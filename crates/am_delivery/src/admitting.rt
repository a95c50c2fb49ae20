//! Settling, by the queue of the changes that lack nothing.
ghost use Rattle.std.specs.Prelude.{◌≡◌, ◌++◌, [], List, All, IfOk, OnOk, MatchBool, MatchOption, vec_items};
ghost use Rattle.am_types.specs.Members.{Member, hashes};
ghost use Rattle.am_types.specs.ValidSets.{Valid};
ghost use Rattle.am_types.specs.Deliver.{Sets, TakesOne, IsSettled, Waits, admit_by, turned_away, settle};
ghost use Rattle.am_delivery.specs.Tracking.{Tracks};
ghost use Rattle.am_delivery.specs.Views.{tracker};
ghost use Rattle.am_delivery.specs.Waiting.{waiting_of, remaining, taken_out, all_gone, sets, AreLent};

use crate::closed::Closed;
use crate::pending::Pending;
use am_types::{Change, Hash, Rejected, Verdict, Why};
use std::alloc::{AllocError, Global};
use std::collections::BTreeMap;

/// The hashes of the changes that wait no longer.
#[derive(Drop)]
pub struct Gone {
    /// Of those that have joined, in this order.
    pub joined: Vec<Hash>,
    /// Of those that were rejected.
    pub turned_away: Vec<Hash>,
}

// Why a change with this verdict is rejected, or None where it fits.
fn why_not(verdict: Verdict) -> Option<Why>
    ensures { MatchOption result (verdict ≡ Verdict.Fits) (λ why. (m : Member) (s : Sets) → admit_by verdict m s ≡ turned_away why m s) }
{
    match verdict {
        Verdict::Fits => None,
        Verdict::SeqClash(held) => Some(Why::SeqClash(held)),
        Verdict::SeqGap => Some(Why::SeqGap),
        Verdict::StartLow(dep) => Some(Why::StartLow(dep)),
        Verdict::BadReference(place) => Some(Why::BadReference(place)),
        Verdict::Full(limit) => Some(Why::Full(limit)),
    }
}

// Admits or rejects the ready change of least hash, which is gone from then on, and answers whether there was one. One
// that joins is lent.
fn admit_next<'a, S: Closed>(
    alloc: Global,
    closed: &mut S,
    waiting: &'a BTreeMap<Hash, Box<Change>>,
    gone: &mut Gone,
    lent: &mut Vec<&'a Change>,
    pending: &mut Pending,
    rejected: &mut Vec<Rejected>,
) -> Result<bool, AllocError>
    requires tracks { Tracks (S.members closed.old) (remaining (all_gone gone.old) (waiting_of waiting.now)) (tracker pending.old) }
    requires valid { Valid (S.members closed.old) }
    requires waits { All (Waits (S.members closed.old)) (remaining (all_gone gone.old) (waiting_of waiting.now)) }
    ensures tracks { IfOk result (λ taken. Tracks (S.members closed.new) (remaining (all_gone gone.new) (waiting_of waiting.now)) (tracker pending.new)) }
    ensures one { let old = sets (S.members closed.old) (remaining (all_gone gone.old) (waiting_of waiting.now)) rejected.old in
        let new = sets (S.members closed.new) (remaining (all_gone gone.new) (waiting_of waiting.now)) rejected.new in
        IfOk result (λ taken. MatchBool taken (TakesOne old new) ((new ≡ old) × IsSettled old)) }
    ensures joined { OnOk result ((C : List Member) → S.members closed.old ≡ C ++ taken_out (vec_items gone.old.joined) (waiting_of waiting.now) → S.members closed.new ≡ C ++ taken_out (vec_items gone.new.joined) (waiting_of waiting.now)) }
    ensures named { OnOk result (hashes (taken_out (vec_items gone.old.joined) (waiting_of waiting.now)) ≡ vec_items gone.old.joined → hashes (taken_out (vec_items gone.new.joined) (waiting_of waiting.now)) ≡ vec_items gone.new.joined) }
    ensures lent { OnOk result (AreLent lent.old.items (vec_items gone.old.joined) (waiting_of waiting.now) → AreLent lent.new.items (vec_items gone.new.joined) (waiting_of waiting.now)) }
    ensures base { S.base closed.new ≡ S.base closed.old }
{
    let _count = waiting.len();
    let Some(hash) = pending.pop() else {
        return Ok(false);
    };
    let Some(held) = waiting.get(&hash) else {
        return Ok(false);
    };
    let change = &**held;
    let verdict = closed.judge(alloc, change)?;
    match why_not(verdict) {
        None => {
            gone.joined.push(hash)?;
            lent.push(change)?;
            closed.join(alloc, hash, change)?;
            pending.release(&hash)?;
        }
        Some(why) => {
            gone.turned_away.push(hash)?;
            rejected.push(Rejected { hash, why })?;
        }
    }
    Ok(true)
}

/// Admits or rejects until no change is ready. Answers which changes wait no longer; the map still has them, and lends
/// those that have joined.
pub fn settle_all<'a, S: Closed>(
    alloc: Global,
    closed: &mut S,
    waiting: &'a BTreeMap<Hash, Box<Change>>,
    pending: &mut Pending,
    rejected: &mut Vec<Rejected>,
    lent: &mut Vec<&'a Change>,
) -> Result<Gone, AllocError>
    requires tracks { Tracks (S.members closed.old) (waiting_of waiting.now) (tracker pending.old) }
    requires valid { Valid (S.members closed.old) }
    requires waits { All (Waits (S.members closed.old)) (waiting_of waiting.now) }
    requires none { lent.old.items ≡ [] }
    ensures settles { IfOk result (λ gone. sets (S.members closed.new) (remaining (all_gone gone) (waiting_of waiting.now)) rejected.new ≡ settle (sets (S.members closed.old) (waiting_of waiting.now) rejected.old)) }
    ensures tracks { IfOk result (λ gone. Tracks (S.members closed.new) (remaining (all_gone gone) (waiting_of waiting.now)) (tracker pending.new)) }
    ensures joined { IfOk result (λ gone. S.members closed.new ≡ S.members closed.old ++ taken_out (vec_items gone.joined) (waiting_of waiting.now)) }
    ensures named { IfOk result (λ gone. hashes (taken_out (vec_items gone.joined) (waiting_of waiting.now)) ≡ vec_items gone.joined) }
    ensures lent { IfOk result (λ gone. AreLent lent.new.items (vec_items gone.joined) (waiting_of waiting.now)) }
    ensures base { S.base closed.new ≡ S.base closed.old }
{
    let mut gone = Gone {
        joined: Vec::new(alloc),
        turned_away: Vec::new(alloc),
    };
    while admit_next(alloc, closed, waiting, &mut gone, lent, pending, rejected)? {}
    Ok(gone)
}
