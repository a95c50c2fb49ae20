//! What the graph says of single changes.
ghost use Rattle.std.specs.Prelude.{◌≡◌, filter, option_map};
ghost use Rattle.am_types.specs.Canonical.{depth};
ghost use Rattle.am_types.specs.Members.{hashes, member};
ghost use Rattle.am_types.specs.Operations.{max};
ghost use Rattle.am_types.specs.Verdicts.{has_seq};
ghost use Rattle.am_graph.specs.Graphs.{ForSet, IsLeast, having};

use crate::graph::Graph;
use am_types::Hash;

impl Graph {
    /// The least hash of the changes with this actor and this seq, or `None` where there is none.
    pub fn find(&self, actor: &[u8], seq: u64) -> Option<Hash>
        ensures graph { IsLeast result (having self.now actor.now seq) }
        ensures set { ForSet self.now (λ C. IsLeast result (hashes (filter (has_seq actor.now seq) C))) }
    {
        let Some(author) = self.parts.authors.number_of(actor) else {
            return None;
        };
        self.parts.firsts.get(&(author, seq)).copied()
    }

    /// The counter of the change's last operation, or the one before its start where it has none. `None` where the hash
    /// is not held.
    pub fn max_of(&self, hash: &Hash) -> Option<u64>
        ensures set { ForSet self.now (λ C. result ≡ option_map (λ m. max m.change) (member C hash.now)) }
    {
        let Some(node) = self.parts.held.get(hash) else {
            return None;
        };
        Some(node.start + node.count - 1)
    }

    /// 0 for a change without dependencies, else one more than the greatest depth of a dependency. `None` where the
    /// hash is not held.
    pub fn depth(&self, hash: &Hash) -> Option<u64>
        ensures set { ForSet self.now (λ C. result ≡ option_map (λ m. depth C m.change) (member C hash.now)) }
    {
        let Some(place) = self.parts.held.get_index_of(hash) else {
            return None;
        };
        Some(self.parts.marks[place].depth)
    }
}
