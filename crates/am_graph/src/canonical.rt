//! The canonical order of the changes.
ghost use Rattle.std.specs.Prelude.{◌≡◌, map, IfOk};
ghost use Rattle.am_types.specs.Canonical.{order};
ghost use Rattle.am_types.specs.Members.{hashes};
ghost use Rattle.am_graph.specs.Graphs.{ForSet};
ghost use Rattle.am_graph.specs.Ranks.{rank_of, rank_in};

use crate::graph::Graph;
use am_types::{Hash, List};
use std::alloc::{AllocError, Global};

/// What decides where a change stands, the first field first.
#[derive(Clone, Copy, PartialEq, Eq, PartialOrd, Ord)]
struct Rank<'a> {
    depth: u64,
    actor: &'a [u8],
    seq: u64,
    hash: Hash,
}

impl Graph {
    /// The hashes in canonical order: by depth, then by the actor's bytes, then by seq, then by hash.
    pub fn order(&self, alloc: Global) -> Result<List<Hash>, AllocError>
        ensures set { IfOk result (λ found. ForSet self.now (λ C. found ≡ hashes (order C))) }
    {
        let mut ranks = self.ranks(alloc)?;
        ranks.sort_unstable();
        let hashes = hashes_of(alloc, ranks.as_slice())?;
        Ok(List::from(hashes))
    }

    // The ranks of the changes, in the order in which they came.
    fn ranks(&self, alloc: Global) -> Result<Vec<Rank<'_>>, AllocError>
        ensures { IfOk result (λ ranks. ForSet self.now (λ C. map rank_of ranks.items ≡ map (rank_in C) C)) }
    {
        let mut ranks = Vec::new(alloc);
        for i in 0..self.parts.held.len() {
            let (hash, node) = self.parts.held.get_index(i).unwrap();
            ranks.push(Rank {
                depth: self.parts.marks[i].depth,
                actor: node.actor.as_slice(),
                seq: node.seq,
                hash: *hash,
            })?;
        }
        Ok(ranks)
    }
}

// The hashes of the ranks.
fn hashes_of(alloc: Global, ranks: &[Rank<'_>]) -> Result<Vec<Hash>, AllocError>
    ensures { IfOk result (λ hashes. hashes.items ≡ map (λ r. r.hash) ranks.now) }
{
    ranks.iter().map(|rank| rank.hash).collect(alloc)
}
