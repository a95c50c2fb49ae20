//! A closed set whose last changes aren't in its document yet.
ghost use Rattle.std.specs.Prelude.{◌≡◌, ◌++◌, List, [], IfOk, IfErr, OnOk, OnErr, map, vec_items};
ghost use Rattle.am_types.specs.Members.{changes};
ghost use Rattle.am_types.specs.Totals.{totals_of};
ghost use Rattle.am_graph.specs.Graphs.{nodes};
ghost use Rattle.am_delivery.specs.Waiting.{members_of};
ghost use Rattle.am_store.specs.Contents.{IsContents};
ghost use Rattle.am_store.specs.Grown.{IsOwn};
ghost use Rattle.am_store.specs.Growing.{ArePartsOf};

use crate::contents::larger_of;
use crate::growing::{grow, is_among};
use crate::parts::Parts;
use crate::rebuilding::listed;
use crate::unseen::Unseen;
use am_delivery::{Closed, joined_is_valid};
use am_fits::{OpIndex, Totals, fits};
use am_graph::{Graph, valid_sets_have_distinct_seqs};
use am_types::{Bytes, Change, Hash, Twin, Verdict};
use std::alloc::{AllocError, Global};
use std::marker::Model;

/// A closed set: the contents of the document of its first changes, the others themselves, and the graph and the index of
/// all. Contracts see the changes at rest and those that have joined since.
#[derive(Drop)]
pub struct Staging {
    /// The changes of the document.
    written: Unseen,
    old: Unseen,
    fresh: Unseen,
    contents: Bytes,
    /// The changes at rest that the document lacks, in the order in which they joined.
    staged: Vec<Change>,
    graph: Graph,
    index: OpIndex,
    /// The totals of the changes at rest.
    totals: Totals,
}

impl Model for Staging {
    ghost use Rattle.am_store.specs.Grown.{Grown};
    ghost use Rattle.am_store.specs.Staging.{IsStaging};

    ghost Value = { Grown };

    ghost view = { λ s. record { old = s.old.entries; fresh = s.fresh.entries } };

    ghost invariant = { IsStaging };
}

// Copies of these changes.
fn copied(alloc: Global, changes: &[&Change]) -> Result<Vec<Change>, AllocError>
    ensures { IfOk result (λ list. list.items ≡ map (λ c. c.now) changes.now) }
{
    let mut list = Vec::new(alloc);
    for change in changes {
        list.push(change.copy(alloc)?)?;
    }
    Ok(list)
}

// Puts copies of these changes behind those that are staged. Without memory nothing has changed.
fn stage(alloc: Global, staged: &mut Vec<Change>, joined: &[&Change]) -> Result<(), AllocError>
    ensures ok { OnOk result (staged.new.items ≡ staged.old.items ++ map (λ c. c.now) joined.now) }
    ensures err { OnErr result (staged.new.items ≡ staged.old.items) }
{
    let mut more = copied(alloc, joined)?;
    staged.append(&mut more)
}

// These changes, lent.
fn lent<'a>(alloc: Global, changes: &'a [Change]) -> Result<Vec<&'a Change>, AllocError>
    ensures { IfOk result (λ list. map (λ c. c.now) list.items ≡ changes.now) }
{
    let mut list = Vec::new(alloc);
    for change in changes {
        list.push(change)?;
    }
    Ok(list)
}

impl Staging {
    /// The set with these parts, whose document has all of its changes.
    pub fn over(parts: Parts, alloc: Global) -> Staging
        requires { ArePartsOf parts.closed.entries parts }
        ensures { result ≡ record { old = parts.closed.entries; fresh = [] } }
    {
        let Parts {
            closed,
            contents,
            graph,
            index,
        } = parts;
        let totals = index.totals();
        Staging {
            written: closed.again(),
            old: closed,
            fresh: Unseen::none(),
            contents,
            staged: Vec::new(alloc),
            graph,
            index,
            totals,
        }
    }

    /// The parts of the set at rest, whose document has these contents.
    pub fn into_parts(self, contents: Bytes) -> Parts
        requires rest { members_of (self.old ++ self.fresh) ≡ members_of self.old }
        requires contents { IsContents (members_of self.old) contents }
        ensures { ArePartsOf self.old result }
    {
        let Staging {
            written: _,
            old,
            fresh: _,
            contents: _,
            staged: _,
            graph,
            index,
            totals: _,
        } = self;
        Parts {
            closed: old,
            contents,
            graph,
            index,
        }
    }

    /// The parts of the set at rest, where its document lacks nothing; else the set again.
    pub fn into_whole(self) -> Result<Parts, Staging>
        requires { members_of (self.old ++ self.fresh) ≡ members_of self.old }
        ensures ok { IfOk result (ArePartsOf self.old) }
        ensures err { IfErr result (λ set. set ≡ self) }
    {
        if !self.staged.is_empty() {
            return Err(self);
        }
        let Staging {
            written: _,
            old,
            fresh: _,
            contents,
            staged: _,
            graph,
            index,
            totals: _,
        } = self;
        Ok(Parts {
            closed: old,
            contents,
            graph,
            index,
        })
    }

    /// The graph of all changes.
    pub fn graph(&self) -> &Graph
        ensures { result.now ≡ nodes (members_of (self.now.old ++ self.now.fresh)) }
    {
        &self.graph
    }

    /// The totals of all changes.
    pub fn totals(&self) -> Totals
        ensures { result ≡ totals_of (changes (members_of (self.now.old ++ self.now.fresh))) }
    {
        self.index.totals()
    }

    /// The contents of the document of the set at rest, made of those that are there and of the staged changes.
    pub fn merged(&self, alloc: Global) -> Result<Bytes, AllocError>
        requires { members_of (self.now.old ++ self.now.fresh) ≡ members_of self.now.old }
        ensures { IfOk result (IsContents (members_of self.now.old)) }
    {
        let staged = lent(alloc, self.staged.as_slice())?;
        larger_of(
            alloc,
            self.contents.as_slice(),
            staged.as_slice(),
            &self.graph,
        )
    }

    /// Cuts off the changes that have joined. It takes no memory.
    pub fn cut(&mut self)
        ensures { self.new ≡ record { old = self.entry.now.old; fresh = [] } }
    {
        valid_sets_have_distinct_seqs();
        let totals = self.totals;
        self.graph.cut(totals.changes as usize);
        self.index.cut(totals);
        self.fresh = Unseen::none();
    }
}

impl Closed for Staging {
    ghost members = { λ s. members_of (s.old ++ s.fresh) };

    ghost base = { λ s. members_of s.old };

    ghost admits = { IsOwn };

    fn holds(&self, hash: &Hash) -> bool {
        self.graph.holds(hash)
    }

    // Asked only where a hash that comes is held; then a delivery isn't staged, and a store compares.
    fn is_same(&self, alloc: Global, hash: &Hash, change: &Change) -> Result<bool, AllocError> {
        let contents = self.merged(alloc)?;
        let entries = listed(alloc, &self.graph, contents.as_slice())?;
        Ok(is_among(&self.graph, entries.as_slice(), hash, change))
    }

    fn judge(&self, alloc: Global, change: &Change) -> Result<Verdict, AllocError> {
        fits(alloc, &self.graph, &self.index, change)
    }

    fn join(&mut self, alloc: Global, hash: Hash, change: &Change) -> Result<(), AllocError> {
        joined_is_valid();
        grow(
            alloc,
            &mut self.graph,
            &mut self.index,
            &mut self.fresh,
            hash,
            change,
        )
    }

    fn finish(&mut self, alloc: Global, joined: &[&Change]) -> Result<(), AllocError> {
        stage(alloc, &mut self.staged, joined)?;
        self.old = Unseen::both(&self.old, &self.fresh);
        self.fresh = Unseen::none();
        self.totals = self.index.totals();
        Ok(())
    }
}
