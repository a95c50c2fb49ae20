//! The changes of a store that wait for dependencies.
ghost use Rattle.std.specs.Prelude.{◌≡◌, IfOk, None, [], length};
ghost use Rattle.am_types.specs.Members.{hashes};
ghost use Rattle.am_types.specs.Order.{hash_cmp, Ascends};
ghost use Rattle.am_delivery.specs.Waiting.{unboxed, waiting_of};

use crate::copies::map_copied;
use am_delivery::Pending;
use am_types::{Change, Hash, List};
use std::alloc::{AllocError, Global};
use std::collections::BTreeMap;

/// Changes that wait, and what they lack.
#[derive(Drop)]
pub struct Waiting {
    pub changes: BTreeMap<Hash, Box<Change>>,
    /// After a delivery that failed, and in a copy, it isn't known before the next one.
    pub pending: Option<Pending>,
}

impl Waiting {
    /// None wait.
    pub fn none(alloc: Global) -> Waiting
        ensures changes { result.changes.entries ≡ [] }
        ensures pending { result.pending ≡ None }
    {
        Waiting {
            changes: BTreeMap::new(alloc),
            pending: None,
        }
    }

    /// How many wait.
    pub fn count(&self) -> u64
        ensures { result ≡ length self.now.changes.entries }
    {
        self.changes.len() as u64
    }

    /// The hashes, ascending.
    pub fn hashes(&self, alloc: Global) -> Result<List<Hash>, AllocError>
        ensures hashes { IfOk result (λ waiting. waiting ≡ hashes (waiting_of self.now.changes)) }
        ensures ascend { IfOk result (λ waiting. Ascends hash_cmp waiting) }
    {
        let _count = self.changes.len();
        let mut hashes = List::new(alloc);
        for hash in self.changes.keys() {
            hashes.push(*hash)?;
        }
        Ok(hashes)
    }

    /// The same changes. What they lack isn't known there.
    pub fn copied(&self, alloc: Global) -> Result<Waiting, AllocError>
        ensures changes { IfOk result (λ twin. unboxed twin.changes.entries ≡ unboxed self.now.changes.entries) }
        ensures pending { IfOk result (λ twin. twin.pending ≡ None) }
    {
        let changes = map_copied(alloc, &self.changes)?;
        Ok(Waiting {
            changes,
            pending: None,
        })
    }
}
