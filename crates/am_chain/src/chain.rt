//! A list whose nodes are linked by their numbers.
ghost use Rattle.std.specs.Prelude.{◌≡◌, ◌<◌, ◌++◌, ◌∷◌, [], length, slice_get, OnOk, OnErr, IfOk, Some};
ghost use Rattle.std.specs.List.{Contains, position_or_len};
ghost use Rattle.am_types.specs.Elements.{put_at};
ghost use Rattle.am_types.specs.declared.OpId.{OpId};
ghost use Rattle.am_types.specs.Same.{same_id};
ghost use Rattle.am_types.specs.Limits.{most_operations};
ghost use Rattle.am_chain.specs.Passing.{put_passing};
ghost use Rattle.am_chain.specs.Sequences.{IsNodeBelow, IsStanding, key_of_node};

use crate::node::{Gap, Node, find_gap, link_behind, put_in_gap};
use crate::walk::Walk;
use am_types::OpId;
use std::alloc::{AllocError, Global};
use std::marker::Model;

/// The elements of a list or a text. A contract sees their ids, once by the numbers of their nodes and once in the
/// order of the list. (Automerge Binary Document Format, "element order".)
#[derive(Drop)]
pub struct Chain {
    nodes: Vec<Node>,
    first: Option<u32>,
}

impl Model for Chain {
    ghost use Rattle.am_chain.specs.Sequences.{Sequence};

    ghost Value = { Sequence };

    ghost use Rattle.am_chain.specs.Chains.{IsLinkedInside, sequence_of};

    ghost view = { sequence_of };

    ghost invariant = { IsLinkedInside };
}

impl Chain {
    /// No elements. Nothing is allocated yet.
    #[tactic(auto, unfolding(crate::specs::Chains::spelled))]
    pub fn new(alloc: Global) -> Self
        ensures empty { result ≡ record { nodes = []; walk = [] } }
    {
        Chain {
            nodes: Vec::new(alloc),
            first: None,
        }
    }

    /// Makes a node for `id`, and gives its number: the nodes are numbered as they come. Its place is sought from
    /// directly behind the node `after`, or from the front, and nodes with greater ids are passed. It takes time in the
    /// number of nodes passed; in ascending id none is. Without memory the chain stays as it was.
    pub fn insert(&mut self, after: Option<u32>, id: OpId) -> Result<u32, AllocError>
        requires standing { IsNodeBelow self.old.nodes id after }
        requires fresh { ¬ Contains self.old.nodes id }
        requires room { length self.old.nodes < most_operations }
        ensures node { IfOk result (λ node. node ≡ length self.old.nodes) }
        ensures nodes { OnOk result (self.new.nodes ≡ self.old.nodes ++ id ∷ []) }
        ensures walk { OnOk result (self.new.walk ≡ put_passing (key_of_node self.old.nodes after) id self.old.walk) }
        ensures err { OnErr result (self.new ≡ self.old) }
    {
        let gap = find_gap(self.nodes.as_slice(), self.first, after, id.lend());
        put_in_gap(&mut self.nodes, &mut self.first, gap, id)
    }

    /// Makes a node for `id` directly behind the node `before`, or first, and gives its number. It takes constant time.
    /// Without memory the chain stays as it was.
    pub fn put_behind(&mut self, before: Option<u32>, id: OpId) -> Result<u32, AllocError>
        requires standing { IsStanding (length self.old.nodes) before }
        requires fresh { ¬ Contains self.old.nodes id }
        requires room { length self.old.nodes < most_operations }
        ensures node { IfOk result (λ node. node ≡ length self.old.nodes) }
        ensures nodes { OnOk result (self.new.nodes ≡ self.old.nodes ++ id ∷ []) }
        ensures walk { OnOk result (self.new.walk ≡ put_at (key_of_node self.old.nodes before) id self.old.walk) }
        ensures err { OnErr result (self.new ≡ self.old) }
    {
        let at = link_behind(self.nodes.as_slice(), self.first, before);
        let gap = Gap { before, at };
        put_in_gap(&mut self.nodes, &mut self.first, gap, id)
    }

    /// The ids in the order of the list.
    pub fn walk(&self) -> Walk<'_>
        ensures walk { result ≡ self.now.walk }
    {
        Walk {
            nodes: self.nodes.as_slice(),
            at: self.first,
        }
    }

    /// How many nodes stand before a node. It takes time in their number.
    pub fn place(&self, node: u32) -> u64
        requires standing { node < length self.now.nodes }
        ensures there { slice_get self.now.walk result ≡ slice_get self.now.nodes node }
        ensures position { (id : OpId) → slice_get self.now.nodes node ≡ Some id → result ≡ position_or_len (same_id id) self.now.walk }
    {
        let mut place: u64 = 0;
        let mut at = self.first;
        while let Some(here) = at {
            if here == node {
                break;
            }
            at = self.nodes[here as usize].next;
            place += 1;
        }
        place
    }
}
