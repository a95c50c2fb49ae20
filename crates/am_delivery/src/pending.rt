//! What the waiting changes lack, by hash: a counter for each, who waits for whom, and a queue of those that lack
//! nothing.
ghost use Rattle.std.specs.Prelude.{◌≡◌, ◌+◌, ◌≤◌, ◌==◌, ◌&&◌, ◌||◌, ◌<◌, ◌^◌, [], ◌∷◌, ◌++◌, length, map, filter, All, count_by, OnOk, IfSome, IfNone, IsFalse, vec_items};
ghost use Rattle.std.specs.List.{list_any};
ghost use Rattle.std.specs.Map.{count_at};
ghost use Rattle.std.specs.BTreeSet.{contains};
ghost use Rattle.std.specs.HashMap.{get};
ghost use Rattle.am_types.specs.declared.Hash.{Hash as AHash};
ghost use Rattle.am_types.specs.Order.{hash_cmp, same};
ghost use Rattle.std.specs.declared.cmp.Ordering.TheVariants.{Less};
ghost use Rattle.am_delivery.specs.Tracking.{Releases};
ghost use Rattle.am_delivery.specs.Views.{is_equal, listed, tracker, is_ready};

use am_types::Hash;
use std::alloc::{AllocError, Global};
use std::collections::{BTreeMap, BTreeSet, HashMap};

// One dependency less is missing of the change with this hash. Says whether none is missing any more.
fn count_down(missing: &mut HashMap<Hash, u64>, h: &Hash) -> bool
    requires { 1 ≤ count_at (get is_equal missing.old) h.now }
    ensures one { count_at (get is_equal missing.new) h.now + 1 ≡ count_at (get is_equal missing.old) h.now }
    ensures others { (g : AHash) → IsFalse (same hash_cmp h.now g) → get is_equal missing.new g ≡ get is_equal missing.old g }
    ensures done { result ≡ (count_at (get is_equal missing.new) h.now == 0) }
{
    let Some(n) = missing.get_mut(h) else {
        return false;
    };
    *n -= 1;
    *n == 0
}

// Each of these changes has one dependency less missing, and with none left it is ready.
fn release(
    missing: &mut HashMap<Hash, u64>,
    ready: &mut BTreeSet<Hash>,
    waiting: &[Hash],
) -> Result<(), AllocError>
    requires some_missing { (g : AHash) → count_by (same hash_cmp g) waiting.now ≤ count_at (get is_equal missing.old) g }
    ensures counts { OnOk result ((g : AHash) → count_at (get is_equal missing.new) g + count_by (same hash_cmp g) waiting.now ≡ count_at (get is_equal missing.old) g) }
    ensures ready { OnOk result ((g : AHash) → contains hash_cmp ready.new g ≡ (contains hash_cmp ready.old g || list_any (same hash_cmp g) waiting.now && count_at (get is_equal missing.new) g == 0)) }
{
    for h in waiting {
        if count_down(missing, h) {
            ready.insert(*h)?;
        }
    }
    Ok(())
}

// Adds a hash to a list. The first takes no more room than it needs, since most lists have no other.
fn add(alloc: Global, list: &mut Vec<Hash>, h: Hash) -> Result<(), AllocError>
    ensures { OnOk result (vec_items list.new ≡ vec_items list.old ++ h ∷ []) }
{
    if list.is_empty() {
        *list = Vec::with_capacity(alloc, 1)?;
    }
    list.push(h)?;
    Ok(())
}

// One more change waits for a dependency.
fn note(
    alloc: Global,
    waiting_for: &mut BTreeMap<Hash, Vec<Hash>>,
    d: &Hash,
    h: Hash,
) -> Result<(), AllocError>
    ensures here { OnOk result (listed waiting_for.new d.now ≡ listed waiting_for.old d.now ++ h ∷ []) }
    ensures others { OnOk result ((g : AHash) → IsFalse (same hash_cmp d.now g) → listed waiting_for.new g ≡ listed waiting_for.old g) }
{
    let list = waiting_for.entry(*d)?.or_insert(Vec::new(alloc));
    add(alloc, list, h)?;
    Ok(())
}

// One more change waits for each of these dependencies.
fn note_all(
    alloc: Global,
    waiting_for: &mut BTreeMap<Hash, Vec<Hash>>,
    absent: &[Hash],
    h: Hash,
) -> Result<(), AllocError>
    ensures { OnOk result ((d : AHash) → listed waiting_for.new d ≡ listed waiting_for.old d ++ map (λ g. h) (filter (same hash_cmp d) absent.now)) }
{
    for d in absent {
        note(alloc, waiting_for, d, h)?;
    }
    Ok(())
}

/// What the waiting changes lack.
#[derive(Drop)]
pub struct Pending {
    /// By the changes' own hashes, which nobody chooses freely: a table may hash them.
    missing: HashMap<Hash, u64>,
    /// By the hashes that changes name, which whoever writes a change chooses: no table is to hash them.
    waiting_for: BTreeMap<Hash, Vec<Hash>>,
    ready: BTreeSet<Hash>,
}

impl Pending {
    /// No change waits.
    pub(crate) fn new(alloc: Global) -> Pending
        ensures missing { (g : AHash) → (tracker result).missing g ≡ 0 }
        ensures names { (g : AHash) → (tracker result).waiting_for g ≡ [] }
        ensures ready { (tracker result).ready ≡ [] }
    {
        Pending {
            missing: HashMap::new(alloc),
            waiting_for: BTreeMap::new(alloc),
            ready: BTreeSet::new(alloc),
        }
    }

    /// Takes the ready change of least hash out of the queue.
    pub(crate) fn pop(&mut self) -> Option<Hash>
        ensures first { IfSome result (λ h. (tracker self.old).ready ≡ h ∷ (tracker self.new).ready) }
        ensures least { IfSome result (λ h. All (λ g. hash_cmp h g ≡ Less) (tracker self.new).ready) }
        ensures none { IfNone result ((tracker self.old).ready ≡ []) }
        ensures left { IfNone result ((tracker self.new).ready ≡ []) }
        ensures counts { (tracker self.new).missing ≡ (tracker self.old).missing }
        ensures names { (tracker self.new).waiting_for ≡ (tracker self.old).waiting_for }
    {
        self.ready.pop_first()
    }

    /// A hash is held now: the changes that wait for it have one dependency less missing.
    pub(crate) fn release(&mut self, h: &Hash) -> Result<(), AllocError>
        requires { (g : AHash) → count_by (same hash_cmp g) ((tracker self.old).waiting_for h.now) ≤ (tracker self.old).missing g }
        ensures { OnOk result (Releases h.now (tracker self.old) (tracker self.new)) }
    {
        let Some(waiting) = self.waiting_for.remove(h) else {
            return Ok(());
        };
        release(&mut self.missing, &mut self.ready, waiting.as_slice())
    }

    /// A change begins to wait for its dependencies that aren't held.
    pub(crate) fn enter(
        &mut self,
        alloc: Global,
        h: Hash,
        absent: &[Hash],
    ) -> Result<(), AllocError>
        requires { length absent.now < 2 ^ 64 }
        ensures count { OnOk result ((tracker self.new).missing h ≡ length absent.now) }
        ensures others { OnOk result ((g : AHash) → IsFalse (same hash_cmp h g) → (tracker self.new).missing g ≡ (tracker self.old).missing g) }
        ensures names { OnOk result ((d : AHash) → (tracker self.new).waiting_for d ≡ (tracker self.old).waiting_for d ++ map (λ g. h) (filter (same hash_cmp d) absent.now)) }
        ensures ready { OnOk result ((g : AHash) → is_ready self.new g ≡ (is_ready self.old g || same hash_cmp h g && length absent.now == 0)) }
    {
        note_all(alloc, &mut self.waiting_for, absent, h)?;
        if absent.is_empty() {
            // (it may have come before)
            self.missing.remove(&h);
            self.ready.insert(h)?;
        } else {
            self.missing.insert(h, absent.len() as u64)?;
        }
        Ok(())
    }
}
