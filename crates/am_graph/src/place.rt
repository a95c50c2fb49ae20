//! Where a change stands in the order in which the changes came.
ghost use Rattle.std.specs.Prelude.{◌≡◌, ◌<◌, length, None, MatchOption, slice_get};
ghost use Rattle.am_types.specs.Members.{member};
ghost use Rattle.am_graph.specs.Graphs.{ForSet};

use crate::graph::Graph;
use am_types::Hash;

impl Graph {
    /// The place of the change with this hash, from 0, in the order in which the changes came. `None` where the hash is
    /// not held.
    pub fn place(&self, hash: &Hash) -> Option<usize>
        ensures set { ForSet self.now (λ C. MatchOption result (member C hash.now ≡ None) (λ place. (place < length C) × (member C hash.now ≡ slice_get C place))) }
    {
        let Some(place) = self.parts.held.get_index_of(hash) else {
            return None;
        };
        Some(place)
    }
}
