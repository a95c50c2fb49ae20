//! What the graph keeps of a change.
use am_types::{ActorId, Hash, List, Twin};
use std::alloc::{AllocError, Global};

/// A change without its operations.
#[derive(Debug, Drop)]
pub struct Node {
    /// Who made it.
    pub actor: ActorId,
    /// 1 for the actor's first change, and one more for each later one.
    pub seq: u64,
    /// The counter of its first operation.
    pub start: u64,
    /// How many operations it has.
    pub count: u64,
    /// The hashes of the changes that it depends on, ascending.
    pub deps: List<Hash>,
}

impl Twin for Node {
    fn copy(&self, alloc: Global) -> Result<Node, AllocError> {
        let actor = self.actor.copy(alloc)?;
        let deps = self.deps.copy(alloc)?;
        Ok(Node {
            actor,
            seq: self.seq,
            start: self.start,
            count: self.count,
            deps,
        })
    }
}
