//! For tests of deliveries: a closed set of a few small changes, kept as a list.
ghost use Rattle.std.specs.Prelude.{◌≡◌, ◌≤◌, ◌==◌, ◌&&◌, [], not, find, is_some, option_map, take, vec_len};
ghost use Rattle.am_types.specs.Members.{member};
ghost use Rattle.am_types.specs.Order.{hash_cmp, same};
ghost use Rattle.am_types.specs.Same.{same_bytes};
ghost use Rattle.am_types.specs.Verdicts.{has_seq};
ghost use Rattle.am_history_tests.specs.DeliverySamples.{bare, isnt_bare};
ghost use Rattle.am_delivery.specs.Waiting.{members_of};

use am_delivery::{Closed, is_same};
use am_types::{Change, Hash, Twin, Verdict};
use std::alloc::{AllocError, Global};

fn is_hash(held: &Hash, hash: &Hash) -> bool
    ensures { result ≡ same hash_cmp hash.now held.now }
{
    hash.cmp(held).is_eq()
}

// The change with this hash.
fn found<'a>(held: &'a [(Hash, Change)], hash: &Hash) -> Option<&'a Change>
    ensures { option_map (λ c. c.now) result ≡ option_map (λ m. m.change) (member (members_of held.now) hash.now) }
{
    for entry in held {
        if is_hash(&entry.0, hash) {
            return Some(&entry.1);
        }
    }
    None
}

// Whether two changes have one actor and one seq.
fn is_clash(held: &Change, change: &Change) -> bool
    ensures { result ≡ (same_bytes held.now.actor change.now.actor && held.now.seq == change.now.seq) }
{
    held.actor == change.actor && held.seq == change.seq
}

// The hash of the change with the actor and the seq of this one.
fn clashing(held: &[(Hash, Change)], change: &Change) -> Option<Hash>
    ensures { result ≡ option_map (λ m. m.hash) (find (has_seq change.now.actor change.now.seq) (members_of held.now)) }
{
    for entry in held {
        if is_clash(&entry.1, change) {
            return Some(entry.0);
        }
    }
    None
}

fn is_other(change: &Change) -> bool
    ensures { result ≡ not (bare change.now) }
{
    !(change.seq == 1 && change.start == 1 && change.ops.len() == 0 && change.deps.len() < 2)
}

fn has_other(held: &[(Hash, Change)]) -> bool
    ensures { result ≡ is_some (find isnt_bare (members_of held.now)) }
{
    for entry in held {
        if is_other(&entry.1) {
            return true;
        }
    }
    false
}

/// A closed set that keeps its changes in the order in which they joined. There is no memory for a change that isn't bare.
#[derive(Drop)]
pub struct SampleSet {
    held: Vec<(Hash, Change)>,
    /// How many of them were there when it came to rest.
    resting: usize,
    ghost within: { resting ≤ vec_len held },
}

impl SampleSet {
    pub fn new(alloc: Global) -> SampleSet
        ensures held { result.held.items ≡ [] }
        ensures resting { result.resting ≡ 0 }
    {
        SampleSet {
            held: Vec::new(alloc),
            resting: 0,
        }
    }

    /// Cuts off what has joined since it came to rest.
    pub fn cut(&mut self)
        ensures held { self.new.held.items ≡ take self.old.resting self.old.held.items }
        ensures resting { self.new.resting ≡ self.old.resting }
    {
        self.held.truncate(self.resting);
    }
}

impl Closed for SampleSet {
    ghost members = { λ s. members_of s.held.items };

    ghost base = { λ s. members_of (take s.resting s.held.items) };

    ghost admits = { λ m. Unit {0} };

    fn holds(&self, hash: &Hash) -> bool {
        found(self.held.as_slice(), hash).is_some()
    }

    fn is_same(&self, _alloc: Global, hash: &Hash, change: &Change) -> Result<bool, AllocError> {
        match found(self.held.as_slice(), hash) {
            Some(held) => Ok(is_same(held, change)),
            None => Err(AllocError),
        }
    }

    fn judge(&self, _alloc: Global, change: &Change) -> Result<Verdict, AllocError> {
        let held = self.held.as_slice();
        if held.len() > 1000 || is_other(change) || has_other(held) {
            return Err(AllocError);
        }
        match clashing(held, change) {
            Some(hash) => Ok(Verdict::SeqClash(hash)),
            None => Ok(Verdict::Fits),
        }
    }

    fn join(&mut self, alloc: Global, hash: Hash, change: &Change) -> Result<(), AllocError> {
        let twin = change.copy(alloc)?;
        self.held.push((hash, twin))?;
        Ok(())
    }

    fn finish(&mut self, _alloc: Global, _joined: &[&Change]) -> Result<(), AllocError> {
        self.resting = self.held.len();
        Ok(())
    }
}
