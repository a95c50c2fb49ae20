//! A store of changes: a closed set and the changes that wait for dependencies.
ghost use Rattle.std.specs.Prelude.{◌≡◌, ◌↔◌, [], length, List, IfOk, OnOk, OnErr, IfErr, IfSome, IsTrue, All, Some, find, not, true, vec_items};
ghost use Rattle.am_types.specs.declared.Change.{Change as AChange};
ghost use Rattle.am_types.specs.Fine.{Fine};
ghost use Rattle.am_types.specs.Order.{hash_cmp, Ascends};
ghost use Rattle.am_types.specs.Members.{hashes, changes, holds};
ghost use Rattle.am_types.specs.Ancestors.{ancestors};
ghost use Rattle.am_types.specs.Canonical.{order};
ghost use Rattle.am_types.specs.Documents.{table};
ghost use Rattle.am_types.specs.Deliver.{MayCome};
ghost use Rattle.am_doc.specs.Contents.{body};
ghost use Rattle.am_graph.specs.Graphs.{nodes, MatchFault};
ghost use Rattle.am_change.specs.Hashes.{with_hashes};
ghost use Rattle.am_change.specs.Judgement.{HasOwnHashes};
ghost use Rattle.am_delivery.specs.Waiting.{members_of};
ghost use Rattle.am_store.specs.Adopting.{IsBuilt};
ghost use Rattle.am_store.specs.AnyOrder.{ComesInAnyOrder};
ghost use Rattle.am_store.specs.Kept.{Kept, IsKept, nothing, counts_of, Takes, Delivered};
ghost use Rattle.am_store.specs.Files.{IsFile, FirstBad};
ghost use Rattle.am_store.specs.History.{history};
ghost use Rattle.am_store.specs.Saved.{document, saved_all, chunk_in};
ghost use Rattle.am_store.specs.Whole.{MatchLoad};

use crate::contents::{doc_of, empty_contents};
use crate::fault::ReadFault;
use crate::file::changes_in;
use crate::file_changes::{Built, FileChanges};
use crate::growing::Growing;
use crate::hashing::hashed;
use crate::history::{HistoryLine, lines_of};
use crate::lists::{all_lent, change_at, changes_among, without_hashes};
use crate::parts::Parts;
use crate::rebuilding::{listed, rebuilt};
use crate::report::{Counts, Report, counted};
use crate::room::with_room;
use crate::saving::push_chunks;
use crate::unseen::Unseen;
use crate::waiting::Waiting;
use am_change::chunk_of;
use am_delivery::{Settled, comes_back, deliver, keeps_what_came, listing_is_free, order_is_free};
use am_doc::DocRef;
use am_fits::OpIndex;
use am_frame::framed;
use am_graph::{ClockFault, Graph};
use am_laws::{sorting_is_free, valid_sets_keep_rules};
use am_merge::respelled;
use am_types::{Bytes, Change, Hash, List, Twin};
use std::alloc::{AllocError, Global};
use std::marker::Model;
use std::mem::{replace, swap};

/// A closed set of changes, and those that wait for dependencies. Contracts see the two lists of changes, each beside
/// its hash. Of the closed set the code has the contents of its canonical document, from which its changes are rebuilt where
/// they are asked for.
#[derive(Drop)]
pub struct Store {
    pub(crate) contents: Bytes,
    pub(crate) graph: Graph,
    pub(crate) index: OpIndex,
    pub(crate) waiting: Waiting,
    pub(crate) counts: Counts,
    pub(crate) alloc: Global,
    pub(crate) closed: Unseen,
}

impl Model for Store {
    ghost use Rattle.am_store.specs.Kept.{Kept};
    ghost use Rattle.am_store.specs.Whole.{kept_in, IsWhole};

    ghost Value = { Kept };

    ghost view = { kept_in };

    ghost invariant = { IsWhole };
}

impl Store {
    /// A store of no changes.
    pub fn new(alloc: Global) -> Result<Store, AllocError>
        ensures { IfOk result (λ store. store ≡ record { closed = []; waiting = [] }) }
    {
        let contents = empty_contents(alloc)?;
        let graph = Graph::new(alloc);
        let index = OpIndex::new(alloc);
        let counts = counted(index.totals(), 0);
        Ok(Store {
            contents,
            graph,
            index,
            waiting: Waiting::none(alloc),
            counts,
            alloc,
            closed: Unseen::none(),
        })
    }

    /// Delivers the changes of a file, as one list. All chunks are judged before any change is delivered. With `only_changes`
    /// document chunks are refused. After a fault the store is as before.
    pub fn read_file(
        &mut self,
        alloc: Global,
        bytes: &[u8],
        only_changes: bool,
    ) -> Result<Report, ReadFault>
        ensures ok { IfOk result (λ report. (cs : List AChange) × IsFile only_changes bytes.now cs × Delivered self.old cs report self.new) }
        ensures order { OnOk result ((cs : List AChange) × IsFile only_changes bytes.now cs × ComesInAnyOrder self.old (with_hashes cs) self.new) }
        ensures load { IfErr result (λ fault. MatchLoad fault (λ e. FirstBad only_changes bytes.now e.chunk e.fault)) }
        ensures err { OnErr result (self.new ≡ self.old) }
    {
        let mut changes = changes_in(alloc, bytes, only_changes)?;
        let report = self.take_file(alloc, &mut changes)?;
        Ok(report)
    }

    /// Delivers these changes in turn, each under its own hash. Without memory the store is as before.
    pub fn deliver(&mut self, alloc: Global, changes: List<Change>) -> Result<Report, AllocError>
        requires { All Fine changes }
        ensures ok { IfOk result (λ report. Delivered self.old changes report self.new) }
        ensures order { OnOk result (ComesInAnyOrder self.old (with_hashes changes) self.new) }
        ensures err { OnErr result (self.new ≡ self.old) }
    {
        let pairs = hashed(alloc, changes.as_slice())?;
        self.take(alloc, pairs)
    }

    // Whether there are no changes.
    fn is_empty(&self) -> bool
        ensures { IsTrue result ↔ (self.now ≡ nothing) }
    {
        self.counts.changes == 0 && self.counts.waiting == 0
    }

    /// Delivers the changes of a file. Where there are no others, those of one document alone are taken over.
    pub(crate) fn take_file(
        &mut self,
        alloc: Global,
        changes: &mut FileChanges<'_>,
    ) -> Result<Report, AllocError>
        requires may_come { All MayCome (members_of changes.old) }
        requires own_hashes { HasOwnHashes (members_of changes.old) }
        ensures ok { IfOk result (λ report. Takes self.old (members_of changes.old) report self.new) }
        ensures order { OnOk result (ComesInAnyOrder self.old (members_of changes.old) self.new) }
        ensures err { OnErr result (self.new ≡ self.old) }
    {
        if !self.is_empty() {
            return self.take(alloc, changes.take_entries(alloc));
        }
        match changes.take_built() {
            Some(mut built) => self.adopt(alloc, changes.as_slice(), &mut built),
            None => self.take(alloc, changes.take_entries(alloc)),
        }
    }

    // Takes over changes that stand beside their own hashes, with what was built of them. There are no others, so nothing is
    // judged again; the contents of their document are made. Without memory the store is as before.
    fn adopt(
        &mut self,
        alloc: Global,
        entries: &[(Hash, Change)],
        built: &mut Built<'_>,
    ) -> Result<Report, AllocError>
        requires empty { self.old ≡ nothing }
        requires built { IsBuilt entries.now built.old }
        requires own_hashes { HasOwnHashes (members_of entries.now) }
        ensures ok { IfOk result (λ report. Takes self.old (members_of entries.now) report self.new) }
        ensures order { OnOk result (ComesInAnyOrder self.old (members_of entries.now) self.new) }
        ensures err { OnErr result (self.new ≡ self.old) }
    {
        let contents = contents_for(alloc, entries, built)?;
        Ok(self.put_in(alloc, entries, built, contents))
    }

    // Puts in changes with what was built of them, and the contents of their document. Nothing was there.
    fn put_in(
        &mut self,
        alloc: Global,
        entries: &[(Hash, Change)],
        built: &mut Built<'_>,
        contents: Bytes,
    ) -> Report
        requires empty { self.old ≡ nothing }
        requires built { IsBuilt entries.now built.old }
        requires own_hashes { HasOwnHashes (members_of entries.now) }
        requires contents { contents ≡ body (table (members_of entries.now)) }
        ensures takes { Takes self.old (members_of entries.now) result self.new }
        ensures order { ComesInAnyOrder self.old (members_of entries.now) self.new }
    {
        comes_back();
        listing_is_free();
        order_is_free();
        valid_sets_keep_rules();
        exchange(&mut self.graph, &mut self.index, built);
        self.waiting.pending = None;
        self.counts = counted(self.index.totals(), 0);
        self.closed = Unseen::of(entries);
        self.contents = contents;
        Report {
            added: count_of(entries),
            waiting: 0,
            rejected: List::new(alloc),
        }
    }

    // The changes of the closed set, where one of these hashes is held, since then they are compared. Else nothing.
    fn held_for(
        &self,
        alloc: Global,
        changes: &[(Hash, Change)],
    ) -> Result<Option<Vec<(Hash, Change)>>, AllocError>
        ensures { IfOk result (λ held. IfSome held (λ entries. members_of (vec_items entries) ≡ self.now.closed)) }
    {
        for entry in changes {
            if self.graph.holds(&entry.0) {
                let entries = listed(alloc, &self.graph, self.contents.as_slice())?;
                return Ok(Some(entries));
            }
        }
        Ok(None)
    }

    // Delivers changes that stand beside their own hashes. What the store has of the closed set is lent to the delivery, and
    // grows in place; without memory what was put in is cut off again.
    fn take(&mut self, alloc: Global, changes: Vec<(Hash, Change)>) -> Result<Report, AllocError>
        requires may_come { All MayCome (members_of (vec_items changes)) }
        requires own_hashes { HasOwnHashes (members_of (vec_items changes)) }
        ensures ok { IfOk result (λ report. Takes self.old (members_of (vec_items changes)) report self.new) }
        ensures order { OnOk result (ComesInAnyOrder self.old (members_of (vec_items changes)) self.new) }
        ensures err { OnErr result (self.new ≡ self.old) }
    {
        keeps_what_came();
        listing_is_free();
        order_is_free();
        let held = self.held_for(alloc, changes.as_slice())?;
        let closed = replace(&mut self.closed, Unseen::none());
        let contents = replace(&mut self.contents, Bytes::new(alloc));
        let graph = replace(&mut self.graph, Graph::new(alloc));
        let index = replace(&mut self.index, OpIndex::new(alloc));
        let index = with_room(index, changes.as_slice());
        let parts = Parts {
            closed,
            contents,
            graph,
            index,
        };
        let mut growing = Growing::over(parts, held);
        let Ok(settled) = deliver(
            alloc,
            &mut growing,
            &mut self.waiting.changes,
            &mut self.waiting.pending,
            changes,
        ) else {
            let parts = growing.cut();
            self.closed = parts.closed;
            self.contents = parts.contents;
            self.graph = parts.graph;
            self.index = parts.index;
            return Err(AllocError);
        };
        let Growing {
            old,
            fresh: _,
            contents,
            graph,
            index,
            totals: _,
            held: _,
        } = growing;
        let Settled { joined, rejected } = settled;
        let report = Report {
            added: count_of(joined.as_slice()),
            waiting: self.waiting.count(),
            rejected,
        };
        self.counts = counted(index.totals(), report.waiting);
        self.closed = old;
        self.contents = contents;
        self.graph = graph;
        self.index = index;
        Ok(report)
    }

    /// The hashes of the waiting changes, ascending.
    pub fn waiting(&self, alloc: Global) -> Result<List<Hash>, AllocError>
        ensures hashes { IfOk result (λ waiting. waiting ≡ hashes self.now.waiting) }
        ensures ascend { IfOk result (λ waiting. Ascends hash_cmp waiting) }
    {
        self.waiting.hashes(alloc)
    }

    /// The graph of the closed set.
    pub fn graph(&self) -> &Graph
        ensures graph { result.now ≡ nodes self.now.closed }
        ensures kept { IsKept self.now }
    {
        &self.graph
    }

    /// The contents of the canonical document of the closed set. It takes no memory.
    pub fn contents(&self) -> &[u8]
        ensures { result.now ≡ body (table self.now.closed) }
    {
        self.contents.as_slice()
    }

    /// The canonical document of the closed set, lent from its contents. It takes no memory.
    pub fn doc(&self) -> DocRef<'_>
        ensures { result ≡ table self.now.closed }
    {
        doc_of(self.contents.as_slice())
    }

    /// How much the store holds.
    pub fn counts(&self) -> Counts
        ensures { result ≡ counts_of self.now }
    {
        self.counts
    }

    /// The changes of the closed set, in canonical order.
    pub fn closed(&self, alloc: Global) -> Result<List<Change>, AllocError>
        ensures { IfOk result (λ list. list ≡ changes (order self.now.closed)) }
    {
        let entries = rebuilt(alloc, self.contents.as_slice())?;
        without_hashes(alloc, entries)
    }

    /// What each change of the closed set is called by, in canonical order.
    pub fn history(&self, alloc: Global) -> Result<List<HistoryLine>, AllocError>
        ensures { IfOk result (λ lines. lines ≡ history self.now.closed) }
    {
        let entries = rebuilt(alloc, self.contents.as_slice())?;
        lines_of(alloc, entries.as_slice())
    }

    /// The file of the canonical document of the closed set.
    pub fn save(&self, alloc: Global) -> Result<Bytes, AllocError>
        ensures { IfOk result (λ file. file ≡ document self.now.closed) }
    {
        framed(alloc, 0, self.contents.as_slice())
    }

    /// The file of the canonical document of the closed set, and behind it the chunks of the waiting changes, ascending by
    /// hash.
    pub fn save_all(&self, alloc: Global) -> Result<Bytes, AllocError>
        ensures { IfOk result (λ file. file ≡ saved_all self.now) }
    {
        let mut file = framed(alloc, 0, self.contents.as_slice())?;
        push_chunks(alloc, &mut file, &self.waiting.changes)?;
        Ok(file)
    }

    /// The chunk of the change with this hash, or None where the closed set doesn't hold it.
    pub fn change(&self, alloc: Global, hash: &Hash) -> Result<Option<Bytes>, AllocError>
        ensures { IfOk result (λ found. found ≡ chunk_in self.now.closed hash.now) }
    {
        valid_sets_keep_rules();
        if !self.graph.holds(hash) {
            return Ok(None);
        }
        let entries = listed(alloc, &self.graph, self.contents.as_slice())?;
        let change = change_at(&self.graph, entries.as_slice(), hash);
        Ok(Some(chunk_of(alloc, change)?))
    }

    /// The changes with these hashes and their ancestors, in canonical order.
    pub fn ancestors(&self, alloc: Global, heads: &[Hash]) -> Result<List<Change>, ClockFault>
        ensures ok { IfOk result (λ list. list ≡ changes (ancestors (order self.now.closed) heads.now)) }
        ensures held { OnOk result (All (λ h. holds self.now.closed h ≡ true) heads.now) }
        ensures unknown { IfErr result (λ fault. MatchFault fault (λ h. find (λ k. not (holds self.now.closed k)) heads.now ≡ Some h)) }
    {
        sorting_is_free();
        am_laws::listing_is_free();
        let hashes = self.graph.ancestors(alloc, heads)?;
        let entries = rebuilt(alloc, self.contents.as_slice())?;
        let list = changes_among(alloc, entries.as_slice(), hashes.as_slice())?;
        Ok(list)
    }
}

// The contents of the document of changes with what was built of them.
fn contents_for(
    alloc: Global,
    entries: &[(Hash, Change)],
    built: &Built<'_>,
) -> Result<Bytes, AllocError>
    requires { IsBuilt entries.now built.now }
    ensures { IfOk result (λ contents. contents ≡ body (table (members_of entries.now))) }
{
    let lent = all_lent(alloc, entries)?;
    respelled(alloc, &built.doc, lent.as_slice(), &built.graph)
}

// Exchanges the graph and the index for those that were built.
fn exchange(graph: &mut Graph, index: &mut OpIndex, built: &mut Built<'_>)
    ensures graph { graph.new ≡ built.old.graph }
    ensures index { index.new ≡ built.old.index }
{
    swap(graph, &mut built.graph);
    swap(index, &mut built.index);
}

/// How many changes there are.
pub(crate) fn count_of<T>(changes: &[T]) -> u64
    ensures { result ≡ length changes.now }
{
    changes.len() as u64
}

impl Twin for Store {
    // These are all fields, so no list of decoded changes is kept, and a copy forgets none. Of `closed` the code has nothing.
    fn copy(&self, alloc: Global) -> Result<Store, AllocError> {
        let Store {
            contents,
            graph,
            index,
            waiting,
            counts,
            alloc: _,
            closed,
        } = self;
        let contents = contents.copy(alloc)?;
        let graph = graph.copy(alloc)?;
        let index = index.copy(alloc)?;
        let waiting = waiting.copied(alloc)?;
        Ok(Store {
            contents,
            graph,
            index,
            waiting,
            counts: *counts,
            alloc,
            closed: closed.again(),
        })
    }
}

#[cfg(test)]
mod tests;
