//! The closed set of a store while a delivery lets it grow.
ghost use Rattle.std.specs.Prelude.{◌≡◌, ◌++◌, ◌∷◌, [], List, OnOk, OnErr, Some, true, option_map};
ghost use Rattle.am_types.specs.Members.{Member, member, holds};
ghost use Rattle.am_types.specs.Same.{same_change};
ghost use Rattle.am_fits.specs.Indexes.{AreOf};
ghost use Rattle.am_graph.specs.Graphs.{nodes};
ghost use Rattle.am_delivery.specs.Waiting.{members_of};
ghost use Rattle.am_store.specs.Grown.{AreHeld, IsOwn, MayGrow};
ghost use Rattle.am_store.specs.Growing.{ArePartsOf};

use crate::contents::enlarge;
use crate::lists::change_at;
use crate::parts::Parts;
use crate::rebuilding::listed;
use crate::unseen::Unseen;
use am_delivery::{Closed, is_same, joined_is_valid};
use am_fits::{OpIndex, Totals, fits};
use am_graph::{Graph, valid_sets_have_distinct_seqs};
use am_types::{Bytes, Change, Hash, Verdict};
use std::alloc::{AllocError, Global};
use std::marker::Model;

/// The contents of the set at rest, and the graph and the index of its changes and of those that have joined since.
/// Contracts see the two lists of changes; the code has neither.
#[derive(Drop)]
pub struct Growing {
    pub(crate) old: Unseen,
    pub(crate) fresh: Unseen,
    pub(crate) contents: Bytes,
    pub(crate) graph: Graph,
    pub(crate) index: OpIndex,
    /// The totals of the changes at rest.
    pub(crate) totals: Totals,
    /// The changes at rest, where some are to be compared.
    pub(crate) held: Option<Vec<(Hash, Change)>>,
}

impl Model for Growing {
    ghost use Rattle.am_store.specs.Grown.{Grown};
    ghost use Rattle.am_store.specs.Growing.{IsGrown};

    ghost Value = { Grown };

    ghost view = { λ g. record { old = g.old.entries; fresh = g.fresh.entries } };

    ghost invariant = { IsGrown };
}

// Takes a change into both, or into neither.
fn enter(
    alloc: Global,
    graph: &mut Graph,
    index: &mut OpIndex,
    hash: Hash,
    change: &Change,
) -> Result<(), AllocError>
    requires { MayGrow graph.old index.old (record { hash = hash; change = change.now }) }
    ensures of_set { OnOk result ((C : List Member) → AreOf C graph.old index.old → AreOf (C ++ record { hash = hash; change = change.now } ∷ []) graph.new index.new) }
    ensures graph { OnErr result (graph.new ≡ graph.old) }
    ensures index { OnErr result (index.new ≡ index.old) }
{
    let totals = index.totals();
    index.admit(alloc, change)?;
    let count = change.ops.len() as u64;
    let added = graph.add(
        alloc,
        hash,
        &change.actor,
        change.seq,
        change.start,
        count,
        change.deps.as_slice(),
    );
    if added.is_err() {
        index.cut(totals);
        return Err(AllocError);
    }
    Ok(())
}

/// Takes a change in, behind those that have joined. Without memory nothing has changed.
pub(crate) fn grow(
    alloc: Global,
    graph: &mut Graph,
    index: &mut OpIndex,
    fresh: &mut Unseen,
    hash: Hash,
    change: &Change,
) -> Result<(), AllocError>
    requires { MayGrow graph.old index.old (record { hash = hash; change = change.now }) }
    ensures fresh { OnOk result (fresh.new.entries ≡ fresh.old.entries ++ (hash, change.now) ∷ []) }
    ensures of_set { OnOk result ((C : List Member) → AreOf C graph.old index.old → AreOf (C ++ record { hash = hash; change = change.now } ∷ []) graph.new index.new) }
    ensures graph { OnErr result (graph.new ≡ graph.old) }
    ensures index { OnErr result (index.new ≡ index.old) }
    ensures none { OnErr result (fresh.new.entries ≡ fresh.old.entries) }
{
    enter(alloc, graph, index, hash, change)?;
    *fresh = Unseen::with(fresh, &hash, change);
    Ok(())
}

/// Whether a change is equal to the one with its hash among these.
pub(crate) fn is_among(
    graph: &Graph,
    entries: &[(Hash, Change)],
    hash: &Hash,
    change: &Change,
) -> bool
    requires of_set { graph.now ≡ nodes (members_of entries.now) }
    requires held { holds (members_of entries.now) hash.now ≡ true }
    ensures { option_map (λ m. same_change m.change change.now) (member (members_of entries.now) hash.now) ≡ Some result }
{
    is_same(change_at(graph, entries, hash), change)
}

impl Growing {
    /// The set with these parts. `held` are its changes, where some are to be compared.
    pub fn over(parts: Parts, held: Option<Vec<(Hash, Change)>>) -> Growing
        requires parts { ArePartsOf parts.closed.entries parts }
        requires held { AreHeld parts.closed.entries held }
        ensures { result ≡ record { old = parts.closed.entries; fresh = [] } }
    {
        let Parts {
            closed,
            contents,
            graph,
            index,
        } = parts;
        let totals = index.totals();
        Growing {
            old: closed,
            fresh: Unseen::none(),
            contents,
            graph,
            index,
            totals,
            held,
        }
    }

    /// The parts of the set at rest, without the changes that have joined since.
    pub fn cut(self) -> Parts
        ensures { ArePartsOf self.old result }
    {
        valid_sets_have_distinct_seqs();
        let Growing {
            old,
            fresh: _,
            contents,
            mut graph,
            mut index,
            totals,
            held: _,
        } = self;
        graph.cut(totals.changes as usize);
        index.cut(totals);
        Parts {
            closed: old,
            contents,
            graph,
            index,
        }
    }
}

impl Closed for Growing {
    ghost members = { λ g. members_of (g.old ++ g.fresh) };

    ghost base = { λ g. members_of g.old };

    ghost admits = { IsOwn };

    fn holds(&self, hash: &Hash) -> bool {
        self.graph.holds(hash)
    }

    fn is_same(&self, alloc: Global, hash: &Hash, change: &Change) -> Result<bool, AllocError> {
        match &self.held {
            Some(entries) => Ok(is_among(&self.graph, entries.as_slice(), hash, change)),
            None => {
                let entries = listed(alloc, &self.graph, self.contents.as_slice())?;
                Ok(is_among(&self.graph, entries.as_slice(), hash, change))
            }
        }
    }

    fn judge(&self, alloc: Global, change: &Change) -> Result<Verdict, AllocError> {
        fits(alloc, &self.graph, &self.index, change)
    }

    fn join(&mut self, alloc: Global, hash: Hash, change: &Change) -> Result<(), AllocError> {
        joined_is_valid();
        grow(
            alloc,
            &mut self.graph,
            &mut self.index,
            &mut self.fresh,
            hash,
            change,
        )
    }

    fn finish(&mut self, alloc: Global, joined: &[&Change]) -> Result<(), AllocError> {
        enlarge(alloc, &mut self.contents, joined, &self.graph)?;
        self.old = Unseen::both(&self.old, &self.fresh);
        self.fresh = Unseen::none();
        self.totals = self.index.totals();
        self.held = None;
        Ok(())
    }
}
