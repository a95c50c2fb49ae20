//! The changes on which none depends.
ghost use Rattle.std.specs.Prelude.{◌≡◌, ◌<◌, ℕ, Bool, length, slice_index_or, IfOk};
ghost use Rattle.am_types.specs.declared.Hash.{Hash};
ghost use Rattle.am_types.specs.Members.{heads as heads_of};
ghost use Rattle.am_graph.specs.declared.node.Node.{Node};
ghost use Rattle.am_graph.specs.Graphs.{ForSet, is_named_in};

use crate::graph::{Graph, pick};
use am_types::{Hash, List};
use std::alloc::{AllocError, Global};

impl Graph {
    /// The hashes that no change has as a dependency, ascending.
    pub fn heads(&self, alloc: Global) -> Result<List<Hash>, AllocError>
        ensures set { IfOk result (λ found. ForSet self.now (λ C. found ≡ heads_of C)) }
    {
        let named = self.named(alloc)?;
        let mut found: Vec<Hash> = Vec::new(alloc);
        for i in 0..self.parts.held.len() {
            let (hash, _) = self.parts.held.get_index(i).unwrap();
            let is_head = !named[i];
            pick(&mut found, *hash, is_head)?;
        }
        found.sort_unstable();
        Ok(List::from(found))
    }

    // For each change, whether another has it as a dependency.
    fn named(&self, alloc: Global) -> Result<Vec<bool>, AllocError>
        ensures len { IfOk result (λ named. length named.items ≡ length self.now) }
        ensures named { IfOk result (λ named. (k : ℕ) (b : Bool) (e : Hash × Node) → k < length self.now → slice_index_or named.items k b ≡ is_named_in self.now (slice_index_or self.now k e).0) }
    {
        let mut named = vec![in alloc; false; self.parts.held.len()]?;
        for i in 0..self.parts.held.len() {
            let (_, node) = self.parts.held.get_index(i).unwrap();
            for dep in node.deps.as_slice() {
                let place = self.parts.held.get_index_of(dep).unwrap();
                named[place] = true;
            }
        }
        Ok(named)
    }
}
