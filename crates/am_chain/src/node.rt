//! Nodes that are linked by their numbers, and the gaps between them.
ghost use Rattle.std.specs.Prelude.{◌≡◌, ◌<◌, ◌∷◌, List, length, IfOk, OnOk, OnErr};
ghost use Rattle.std.specs.List.{Contains};
ghost use Rattle.am_types.specs.Elements.{put_at};
ghost use Rattle.am_types.specs.declared.OpId.{OpId};
ghost use Rattle.am_types.specs.Views.{id_of};
ghost use Rattle.am_types.specs.Limits.{most_operations};
ghost use Rattle.am_chain.specs.Chains.{IsGap, IsInserted, IsLinked, ids_of, node_ids, spelled};
ghost use Rattle.am_chain.specs.Passing.{put_below, put_passing};
ghost use Rattle.am_chain.specs.Sequences.{IsStanding, key_of_node};

use am_types::{IdRef, OpId, compare_ids};
use std::alloc::AllocError;

/// An element, with the number of the node behind it.
#[derive(Drop)]
pub struct Node {
    pub id: OpId,
    pub next: Option<u32>,
}

/// Where a new node goes: between two nodes.
#[derive(Clone, Copy)]
pub struct Gap {
    pub before: Option<u32>,
    pub at: Option<u32>,
}

/// The node behind `after`, or the first.
pub fn link_behind(nodes: &[Node], first: Option<u32>, after: Option<u32>) -> Option<u32>
    requires linked { IsLinked nodes.now first }
    requires standing { IsStanding (length nodes.now) after }
    ensures passing { (e : OpId) → IsGap nodes.now (spelled nodes.now first) after result (put_below e) (put_passing (key_of_node (node_ids nodes.now) after) e (ids_of (spelled nodes.now first))) }
    ensures directly { (e : OpId) → IsGap nodes.now (spelled nodes.now first) after result (λ fs. e ∷ fs) (put_at (key_of_node (node_ids nodes.now) after) e (ids_of (spelled nodes.now first))) }
{
    match after {
        Some(node) => nodes[node as usize].next,
        None => first,
    }
}

/// The gap for `id`, sought from directly behind `after`: nodes with greater ids are passed.
pub fn find_gap(nodes: &[Node], first: Option<u32>, after: Option<u32>, id: IdRef<'_>) -> Gap
    requires linked { IsLinked nodes.now first }
    requires standing { IsStanding (length nodes.now) after }
    ensures { IsGap nodes.now (spelled nodes.now first) result.before result.at (λ fs. id_of id.entry ∷ fs) (put_passing (key_of_node (node_ids nodes.now) after) (id_of id.entry) (ids_of (spelled nodes.now first))) }
{
    let mut before = after;
    let mut at = link_behind(nodes, first, after);
    while let Some(node) = at {
        let passed = &nodes[node as usize];
        if !compare_ids(passed.id.lend(), id).is_gt() {
            break;
        }
        before = at;
        at = passed.next;
    }
    Gap { before, at }
}

/// Puts a node for `id` into the gap, and gives its number. Without memory nothing changes.
pub fn put_in_gap(
    nodes: &mut Vec<Node>,
    first: &mut Option<u32>,
    gap: Gap,
    id: OpId,
) -> Result<u32, AllocError>
    requires linked { IsLinked nodes.old.items first.old }
    requires gap { (target : List OpId) × IsGap nodes.old.items (spelled nodes.old.items first.old) gap.before gap.at (λ fs. id ∷ fs) target }
    requires fresh { ¬ Contains (node_ids nodes.old.items) id }
    requires room { length nodes.old.items < most_operations }
    ensures linked { IsLinked nodes.new.items first.new }
    ensures node { IfOk result (λ node. node ≡ length nodes.old.items) }
    ensures put { OnOk result ((target : List OpId) → IsGap nodes.old.items (spelled nodes.old.items first.old) gap.before gap.at (λ fs. id ∷ fs) target
        → IsInserted nodes.old.items id target nodes.new.items first.new) }
    ensures nodes { OnErr result (nodes.new.items ≡ nodes.old.items) }
    ensures first { OnErr result (first.new ≡ first.old) }
{
    let node = nodes.len() as u32;
    nodes.push(Node { id, next: gap.at })?;
    match gap.before {
        Some(before) => nodes[before as usize].next = Some(node),
        None => *first = Some(node),
    }
    Ok(node)
}
