//! Changes, without their operations, in the order in which they came.
ghost use Rattle.std.specs.Prelude.{◌≡◌, ◌++◌, ◌∷◌, ◌≤◌, ◌+◌, [], length, List, IfOk, OnOk, OnErr, IfErr, All, true, false, Some, None, if◌then◌else◌};
ghost use Rattle.am_types.specs.Members.{hashes, holds};
ghost use Rattle.am_types.specs.Ancestors.{ancestors};
ghost use Rattle.am_types.specs.Order.{hash_cmp, sorted_by, Ascends};
ghost use Rattle.am_graph.specs.Graphs.{nodes, find_node, is_held, missing, ForSet, has, TellsAncestors, MatchFault, MatchMissing, Answers, same_node};
ghost use Rattle.am_types.specs.declared.Hash.{Hash};
ghost use Rattle.am_types.specs.Limits.{counter_end};

use crate::fault::{Added, ClockFault, GraphFault};
use crate::node::Node;
use crate::parts::Parts;
use crate::places::{guess_of, place_of};
use am_types::{ActorId, Hash, List, Twin, same_actor};
use std::alloc::{AllocError, AllocFailed, Global};
use std::collections::HashSet;
use std::marker::Model;

/// A closed set of changes, each beside its hash, which contracts see as the list of them in the order in which they came.
#[derive(Drop)]
pub struct Graph {
    pub(crate) parts: Parts,
}

impl Model for Graph {
    ghost use Rattle.std.specs.Prelude.{List};
    ghost use Rattle.am_types.specs.declared.Hash.{Hash};
    ghost use Rattle.am_graph.specs.declared.node.Node.{Node};
    ghost use Rattle.am_graph.specs.Whole.{IsWhole};

    ghost Value = { List (Hash × Node) };

    ghost view = { λ g. g.parts.held.entries };

    ghost invariant = { λ g. IsWhole g.parts };
}

impl Graph {
    /// A graph of no changes.
    pub fn new(alloc: Global) -> Self
        ensures empty { result ≡ [] }
    {
        Graph {
            parts: Parts::new(alloc),
        }
    }

    /// Whether this is the hash of a change of the graph.
    pub fn holds(&self, hash: &Hash) -> bool
        ensures graph { result ≡ is_held self.now hash.now }
        ensures set { ForSet self.now (λ C. result ≡ holds C hash.now) }
    {
        self.parts.held.contains_key(hash)
    }

    /// Adds a change, whose dependencies must be held.
    pub fn add(
        &mut self,
        alloc: Global,
        hash: Hash,
        actor: &ActorId,
        seq: u64,
        start: u64,
        count: u64,
        deps: &[Hash],
    ) -> Result<Added, GraphFault>
        requires deps_ascend { Ascends hash_cmp deps.now }
        requires start { 1 ≤ start }
        requires end { start + count ≤ counter_end }
        ensures added { IfOk result (λ added. Answers added (find_node self.old hash) (record { actor = actor.now; seq = seq; start = start; count = count; deps = deps.now })) }
        ensures ok { OnOk result (self.new ≡ (if is_held self.old hash then self.old else self.old ++ (hash, record { actor = actor.now; seq = seq; start = start; count = count; deps = deps.now }) ∷ [])) }
        ensures complete { OnOk result (is_held self.old hash ≡ false → missing self.old deps.now ≡ None) }
        ensures err { OnErr result (self.new ≡ self.old) }
        ensures missing { IfErr result (λ fault. MatchMissing fault (λ h. (is_held self.old hash ≡ false) × (missing self.old deps.now ≡ Some h))) }
    {
        if self.holds(&hash) {
            return Ok(self.compared(&hash, actor, seq, start, count, deps));
        }
        let guess = guess_of(&self.parts.held, deps);
        if let Some(dep) = self.first_missing(deps, guess) {
            return Err(GraphFault::MissingDep(dep));
        }
        let actor = actor.copy(alloc)?;
        let deps = List::from(Vec::from_slice(alloc, deps)?);
        let node = Node {
            actor,
            seq,
            start,
            count,
            deps,
        };
        self.join(alloc, hash, node, guess)?;
        Ok(Added::New)
    }

    // What is answered where the hash is held.
    fn compared(
        &self,
        hash: &Hash,
        actor: &ActorId,
        seq: u64,
        start: u64,
        count: u64,
        deps: &[Hash],
    ) -> Added
        ensures { Answers result (find_node self.now hash.now) (record { actor = actor.now; seq = seq; start = start; count = count; deps = deps.now }) }
    {
        match self.parts.held.get(hash) {
            None => Added::New,
            Some(held) => answer(held, actor, seq, start, count, deps),
        }
    }

    // The first of these hashes that is not held. They are looked for at the guess first.
    fn first_missing(&self, hashes: &[Hash], guess: usize) -> Option<Hash>
        ensures { result ≡ missing self.now hashes.now }
    {
        for hash in hashes {
            let Some(_) = place_of(&self.parts.held, hash, guess) else {
                return Some(*hash);
            };
        }
        None
    }

    // Adds a change at the end. Its dependencies are looked for at the guess first.
    fn join(
        &mut self,
        alloc: Global,
        hash: Hash,
        node: Node,
        guess: usize,
    ) -> Result<(), AllocError>
        requires fresh { is_held self.old hash ≡ false }
        requires deps { missing self.old node.deps ≡ None }
        requires start { 1 ≤ node.start }
        requires end { node.start + node.count ≤ counter_end }
        ensures ok { OnOk result (self.new ≡ self.old ++ (hash, node) ∷ []) }
        ensures err { OnErr result (self.new ≡ self.old) }
    {
        let author = self.parts.number(alloc, node.actor.as_slice())?;
        let mark = self.parts.mark(alloc, &node, author, guess)?;
        self.parts.join(hash, node, mark)?;
        Ok(())
    }

    /// The hashes of the ancestors of these, ascending.
    pub fn ancestors(&self, alloc: Global, heads: &[Hash]) -> Result<List<Hash>, ClockFault>
        ensures ok { IfOk result (λ found. ForSet self.now (λ C. found ≡ sorted_by hash_cmp (hashes (ancestors C heads.now)))) }
        ensures held { OnOk result (All (λ h. is_held self.now h ≡ true) heads.now) }
        ensures unknown { IfErr result (λ fault. MatchFault fault (λ h. missing self.now heads.now ≡ Some h)) }
    {
        let wanted = self.wanted(alloc, heads)?;
        let mut found: Vec<Hash> = Vec::new(alloc);
        for i in 0..self.parts.held.len() {
            let (hash, _) = self.parts.held.get_index(i).unwrap();
            let is_wanted = wanted.contains(hash);
            pick(&mut found, *hash, is_wanted)?;
        }
        found.sort_unstable();
        Ok(List::from(found))
    }

    // The hashes of the ancestors.
    fn wanted(&self, alloc: Global, heads: &[Hash]) -> Result<HashSet<Hash>, ClockFault>
        ensures ok { IfOk result (λ wanted. TellsAncestors self.now heads.now (has wanted)) }
        ensures held { OnOk result (All (λ h. is_held self.now h ≡ true) heads.now) }
        ensures unknown { IfErr result (λ fault. MatchFault fault (λ h. missing self.now heads.now ≡ Some h)) }
    {
        let mut wanted: HashSet<Hash> = HashSet::new(alloc);
        for head in heads {
            if !self.parts.held.contains_key(head) {
                return Err(ClockFault::UnknownHead(*head));
            }
            match wanted.insert(*head) {
                Ok(_) => {}
                Err(_) => return Err(ClockFault::NoMemory),
            }
        }
        for i in (0..self.parts.held.len()).rev() {
            if let Some((hash, node)) = self.parts.held.get_index(i) {
                if wanted.contains(hash) {
                    for dep in node.deps.as_slice() {
                        match wanted.insert(*dep) {
                            Ok(_) => {}
                            Err(_) => return Err(ClockFault::NoMemory),
                        }
                    }
                }
            }
        }
        Ok(wanted)
    }
}

/// Adds a hash that is picked.
pub(crate) fn pick(found: &mut Vec<Hash>, hash: Hash, is_picked: bool) -> Result<(), AllocError>
    ensures { OnOk result (found.new.items ≡ found.old.items ++ (if is_picked then hash ∷ [] else [])) }
{
    if is_picked {
        found.push(hash)?;
    }
    Ok(())
}

// What is answered to a change where this one is held with its hash.
fn answer(held: &Node, actor: &ActorId, seq: u64, start: u64, count: u64, deps: &[Hash]) -> Added
    ensures { Answers result (Some held.now) (record { actor = actor.now; seq = seq; start = start; count = count; deps = deps.now }) }
{
    if is_same(held, actor, seq, start, count, deps) {
        Added::Same
    } else {
        Added::Clash
    }
}

// Whether each part is equal.
fn is_same(held: &Node, actor: &ActorId, seq: u64, start: u64, count: u64, deps: &[Hash]) -> bool
    ensures { result ≡ same_node held.now (record { actor = actor.now; seq = seq; start = start; count = count; deps = deps.now }) }
{
    held.seq == seq
        && held.start == start
        && held.count == count
        && same_actor(held.actor.as_slice(), actor.as_slice())
        && held.deps.as_slice() == deps
}
