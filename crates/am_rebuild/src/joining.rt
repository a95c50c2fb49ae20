//! How a change joins those that are gathered, and what is asked of them on the way.
ghost use Rattle.std.specs.Prelude.{◌≡◌, ◌<◌, [], IfOk, length};
ghost use Rattle.am_types.specs.Members.{changes, heads};
ghost use Rattle.am_types.specs.Operations.{all_operations};
ghost use Rattle.am_change.specs.Hashes.{own_hash};
ghost use Rattle.am_histories.specs.Rebuilt.{hash_at, last_max};
ghost use Rattle.am_rebuild.specs.Joined.{member_of, Joined};

use crate::gathered::{Gathered, grow, may_join};
use crate::lasts::last_in;
use crate::lent_change::LentChange;
use am_change::{hash_of, is_fine};
use am_fits::OpIndex;
use am_graph::Graph;
use am_types::{Hash, List};
use std::alloc::{AllocError, Global};
use std::collections::BTreeMap;

impl<'a> Gathered<'a> {
    /// No changes.
    pub(crate) fn new(alloc: Global) -> Gathered<'a>
        ensures { result ≡ [] }
    {
        Gathered {
            entries: Vec::new(alloc),
            graph: Graph::new(alloc),
            index: OpIndex::new(alloc),
            lasts: BTreeMap::new(alloc),
        }
    }

    /// How many have joined.
    pub(crate) fn count(&self) -> u64
        ensures { result ≡ length self.now }
    {
        self.entries.len() as u64
    }

    /// The hash of the one at this place.
    pub(crate) fn hash_at(&self, place: u64) -> Hash
        requires { place < length self.now }
        ensures { result ≡ hash_at self.now place }
    {
        self.entries[place as usize].0
    }

    /// The greatest counter of the actor's operations, or 0.
    pub(crate) fn last_max(&self, actor: &[u8]) -> u64
        ensures { result ≡ last_max self.now actor.now }
    {
        last_in(&self.lasts, actor)
    }

    /// Takes the change in where it joins.
    pub(crate) fn join(&mut self, alloc: Global, change: LentChange<'a>) -> Result<bool, AllocError>
        ensures { IfOk result (Joined self.old (member_of own_hash change.entry) self.new) }
    {
        if !is_fine(&change) {
            return Ok(false);
        }
        let hash = hash_of(alloc, &change)?;
        if !may_join(alloc, &self.graph, &self.index, &hash, &change)? {
            return Ok(false);
        }
        grow(alloc, self, hash, change)?;
        Ok(true)
    }

    /// How many operations they have.
    pub(crate) fn operation_count(&self) -> u64
        ensures { result ≡ length (all_operations (changes self.now)) }
    {
        self.index.totals().operations
    }

    /// The hashes on which no change depends, ascending.
    pub(crate) fn heads(&self, alloc: Global) -> Result<List<Hash>, AllocError>
        ensures { IfOk result (λ found. found ≡ heads self.now) }
    {
        self.graph.heads(alloc)
    }
}
