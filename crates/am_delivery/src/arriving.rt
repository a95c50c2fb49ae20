//! The changes of a delivery join the waiting ones, unless their hashes are held.
ghost use Rattle.std.specs.Prelude.{◌≡◌, ◌++◌, ◌∷◌, [], All, IfNone, IfOk, IfSome, OnOk, filter, not, option_map, vec_items, if◌then◌else◌};
ghost use Rattle.std.specs.BTreeMap.{insert_entry};
ghost use Rattle.am_types.specs.Fine.{Fine};
ghost use Rattle.am_types.specs.Order.{hash_cmp};
ghost use Rattle.am_types.specs.Members.{member, holds};
ghost use Rattle.am_types.specs.Same.{same_change};
ghost use Rattle.am_types.specs.Deliver.{MayCome, AreStored, Alike, receive};
ghost use Rattle.am_delivery.specs.Tracking.{Tracks};
ghost use Rattle.am_delivery.specs.Views.{tracker};
ghost use Rattle.am_delivery.specs.Waiting.{members_of, unboxed, waiting_of, remaining, sets};

use crate::closed::Closed;
use crate::pending::Pending;
use am_types::{Change, Hash, Rejected, Why};
use std::alloc::{AllocError, Global};
use std::collections::BTreeMap;
use std::collections::btree_map::Entry;

/// Whether two changes are equal.
pub fn is_same(held: &Change, change: &Change) -> bool
    ensures { result ≡ same_change held.now change.now }
{
    held == change
}

// Whether the closed change with this hash is equal to that one, or None where there is none.
fn compared<S: Closed>(
    alloc: Global,
    closed: &S,
    hash: &Hash,
    change: &Change,
) -> Result<Option<bool>, AllocError>
    requires { S.members closed.now ≡ S.base closed.now }
    ensures { IfOk result (λ same. same ≡ option_map (λ m. same_change m.change change.now) (member (S.members closed.now) hash.now)) }
{
    if !closed.holds(hash) {
        return Ok(None);
    }
    let same = closed.is_same(alloc, hash, change)?;
    Ok(Some(same))
}

/// Those of these hashes that no closed change has.
pub fn lacking<S: Closed>(alloc: Global, closed: &S, deps: &[Hash]) -> Result<Vec<Hash>, AllocError>
    ensures { IfOk result (λ found. vec_items found ≡ filter (λ h. not (holds (S.members closed.now) h)) deps.now) }
{
    let mut found = Vec::new(alloc);
    for dep in deps {
        if !closed.holds(dep) {
            found.push(*dep)?;
        }
    }
    Ok(found)
}

// A change joins the waiting ones, unless one of these has its hash: then it is told whether that one is equal to it. Its
// hash is put down too, so that without memory it can be taken out again.
fn put(
    alloc: Global,
    waiting: &mut BTreeMap<Hash, Box<Change>>,
    came: &mut Vec<Hash>,
    hash: Hash,
    change: Change,
) -> Result<Option<bool>, AllocError>
    ensures same { IfOk result (λ same. same ≡ option_map (λ m. same_change m.change change) (member (waiting_of waiting.old) hash)) }
    ensures put { IfOk result (λ same. IfNone same (unboxed waiting.new.entries ≡ insert_entry hash_cmp (unboxed waiting.old.entries) hash change)) }
    ensures stays { IfOk result (λ same. IfSome same (λ b. waiting.new.entries ≡ waiting.old.entries)) }
    ensures kept { remaining (vec_items came.new) (waiting_of waiting.new) ≡ remaining (vec_items came.old) (waiting_of waiting.old) }
{
    came.reserve(1)?;
    match waiting.entry(hash)? {
        Entry::Occupied(held) => Ok(Some(is_same(&**held.get(), &change))),
        Entry::Vacant(place) => {
            let boxed = Box::new(alloc, change)?;
            came.push_reserved(hash);
            place.insert(boxed);
            Ok(None)
        }
    }
}

// Rejects a change whose hash another has, unless the two are equal.
fn tell(rejected: &mut Vec<Rejected>, hash: Hash, same: bool) -> Result<(), AllocError>
    ensures { OnOk result (vec_items rejected.new ≡ (if same then vec_items rejected.old else vec_items rejected.old ++ record { hash = hash; why = Why.HashClash } ∷ [])) }
{
    if !same {
        rejected.push(Rejected {
            hash,
            why: Why::HashClash,
        })?;
    }
    Ok(())
}

// A change that is held is skipped, one whose hash another change has is rejected, and any other joins the waiting
// ones.
fn receive_one<S: Closed>(
    alloc: Global,
    closed: &S,
    waiting: &mut BTreeMap<Hash, Box<Change>>,
    pending: &mut Pending,
    came: &mut Vec<Hash>,
    rejected: &mut Vec<Rejected>,
    hash: Hash,
    change: Change,
) -> Result<(), AllocError>
    requires rest { S.members closed.now ≡ S.base closed.now }
    requires fine { Fine change }
    requires tracks { Tracks (S.members closed.now) (waiting_of waiting.old) (tracker pending.old) }
    ensures alike { OnOk result (Alike (receive (sets (S.members closed.now) (waiting_of waiting.old) rejected.old) (record { hash = hash; change = change } ∷ []))
        (sets (S.members closed.now) (waiting_of waiting.new) rejected.new)) }
    ensures tracks { OnOk result (Tracks (S.members closed.now) (waiting_of waiting.new) (tracker pending.new)) }
    ensures kept { remaining (vec_items came.new) (waiting_of waiting.new) ≡ remaining (vec_items came.old) (waiting_of waiting.old) }
{
    if let Some(same) = compared(alloc, closed, &hash, &change)? {
        return tell(rejected, hash, same);
    }
    let absent = lacking(alloc, closed, change.deps.as_slice())?;
    if let Some(same) = put(alloc, waiting, came, hash, change)? {
        return tell(rejected, hash, same);
    }
    pending.enter(alloc, hash, absent.as_slice())?;
    Ok(())
}

/// The same for each of these changes in turn. The hashes of those that join the waiting ones are put down.
pub fn receive_all<S: Closed>(
    alloc: Global,
    closed: &S,
    waiting: &mut BTreeMap<Hash, Box<Change>>,
    pending: &mut Pending,
    came: &mut Vec<Hash>,
    rejected: &mut Vec<Rejected>,
    changes: Vec<(Hash, Change)>,
) -> Result<(), AllocError>
    requires rest { S.members closed.now ≡ S.base closed.now }
    requires stored { AreStored (S.members closed.now) (waiting_of waiting.old) }
    requires may_come { All MayCome (members_of (vec_items changes)) }
    requires tracks { Tracks (S.members closed.now) (waiting_of waiting.old) (tracker pending.old) }
    ensures alike { OnOk result (Alike (receive (sets (S.members closed.now) (waiting_of waiting.old) rejected.old) (members_of (vec_items changes)))
        (sets (S.members closed.now) (waiting_of waiting.new) rejected.new)) }
    ensures tracks { OnOk result (Tracks (S.members closed.now) (waiting_of waiting.new) (tracker pending.new)) }
    ensures kept { remaining (vec_items came.new) (waiting_of waiting.new) ≡ remaining (vec_items came.old) (waiting_of waiting.old) }
{
    for (hash, change) in changes {
        receive_one(
            alloc, closed, waiting, pending, came, rejected, hash, change,
        )?;
    }
    Ok(())
}
