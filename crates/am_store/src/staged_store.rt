//! A store whose document is made when it is read.
ghost use Rattle.std.specs.Prelude.{◌≡◌, List, [], All, IfOk, IfErr, OnOk, OnErr, Some, true, false, vec_items};
ghost use Rattle.am_types.specs.declared.Change.{Change as AChange};
ghost use Rattle.am_types.specs.Deliver.{MayCome};
ghost use Rattle.am_types.specs.Members.{hashes};
ghost use Rattle.am_types.specs.Order.{hash_cmp, Ascends};
ghost use Rattle.am_change.specs.Hashes.{with_hashes};
ghost use Rattle.am_change.specs.Judgement.{HasOwnHashes};
ghost use Rattle.am_graph.specs.Graphs.{nodes};
ghost use Rattle.am_delivery.specs.Waiting.{members_of};
ghost use Rattle.am_store.specs.AnyOrder.{ComesInAnyOrder};
ghost use Rattle.am_store.specs.Files.{IsFile, FirstBad};
ghost use Rattle.am_store.specs.Kept.{IsKept, nothing, counts_of, Takes, Delivered};
ghost use Rattle.am_store.specs.Staged.{at_rest};
ghost use Rattle.am_store.specs.Whole.{MatchLoad};

use crate::fault::ReadFault;
use crate::file::changes_in;
use crate::file_changes::FileChanges;
use crate::report::{Counts, Report};
use crate::store::Store;
use crate::unsettled::Unsettled;
use am_graph::Graph;
use am_types::{Change, Hash, List};
use std::alloc::{AllocError, Global};
use std::marker::Model;
use std::mem::replace;

// So many operations and changes may be staged whatever the size of the document.
const FEW: u64 = 4096;

// So many bytes of files may be staged, whatever the length of the document: a mebibyte.
const SHORT: u64 = 1 << 20;

/// A store to which small deliveries come one after another. The changes that join are staged, and the document is made of
/// many of them at once, at the latest when the store is settled: before it is read. Contracts see the two lists of changes
/// of a store, and whether it is settled.
#[derive(Drop)]
pub struct StagedStore {
    // The store of all, where nothing is staged. Else it is of no use.
    store: Store,
    ahead: Option<Unsettled>,
    // How many operations and changes the document has.
    written: u64,
    // How long its contents are.
    length: u64,
    // How long the files are together that were delivered since it was made.
    staged: u64,
}

impl Model for StagedStore {
    ghost use Rattle.am_store.specs.Staged.{Staged, seen};

    ghost Value = { Staged };

    ghost view = { λ s. seen s.store s.ahead };
}

// How many operations and changes there are.
fn size_of(counts: Counts) -> u64 {
    counts.changes.saturating_add(counts.operations)
}

// How many operations and changes come.
fn size_of_all(changes: &[(Hash, Change)]) -> u64 {
    let mut size = 0u64;
    for (_, change) in changes {
        size = size
            .saturating_add(change.ops.len() as u64)
            .saturating_add(1);
    }
    size
}

// Whether one of the changes is in the graph.
fn is_any_held(graph: &Graph, changes: &[(Hash, Change)]) -> bool {
    for (hash, _) in changes {
        if graph.holds(hash) {
            return true;
        }
    }
    false
}

// Puts what the store keeps ahead of its document. Without memory nothing has changed.
fn put_ahead(
    alloc: Global,
    store: &mut Store,
    ahead: &mut Option<Unsettled>,
) -> Result<(), AllocError>
    ensures ok { OnOk result (ahead.new ≡ Some store.old) }
    ensures store { OnErr result (store.new ≡ store.old) }
    ensures ahead { OnErr result (ahead.new ≡ ahead.old) }
{
    let none = Store::new(alloc)?;
    let full = replace(store, none);
    *ahead = Some(Unsettled::over(alloc, full));
    Ok(())
}

// The store of all, whose document is made of what is staged; without memory the same again.
fn merged(alloc: Global, ahead: Unsettled) -> Result<Store, Unsettled>
    ensures ok { IfOk result (λ store. store ≡ ahead) }
    ensures err { IfErr result (λ same. same ≡ ahead) }
{
    match ahead.merged(alloc) {
        Ok(contents) => Ok(ahead.into_store(alloc, contents)),
        Err(_) => Err(ahead),
    }
}

// The store of all. Where nothing is staged it takes no memory; without memory the same again.
fn settled(alloc: Global, ahead: Unsettled) -> Result<Store, Unsettled>
    ensures ok { IfOk result (λ store. store ≡ ahead) }
    ensures err { IfErr result (λ same. same ≡ ahead) }
{
    match ahead.into_whole(alloc) {
        Ok(store) => Ok(store),
        Err(ahead) => merged(alloc, ahead),
    }
}

impl StagedStore {
    /// A store of no changes.
    pub fn new(alloc: Global) -> Result<StagedStore, AllocError>
        ensures { IfOk result (λ store. store ≡ at_rest nothing) }
    {
        Ok(StagedStore {
            store: Store::new(alloc)?,
            ahead: None,
            written: 0,
            length: 0,
            staged: 0,
        })
    }

    /// Delivers the changes of a file, as one list. All chunks are judged before any change is delivered. With `only_changes`
    /// document chunks are refused. After a fault the same is kept as before; whether the store is settled isn't said.
    pub fn read_file(
        &mut self,
        alloc: Global,
        bytes: &[u8],
        only_changes: bool,
    ) -> Result<Report, ReadFault>
        ensures ok { IfOk result (λ report. (cs : List AChange) × IsFile only_changes bytes.now cs × Delivered self.old.kept cs report self.new.kept) }
        ensures order { OnOk result ((cs : List AChange) × IsFile only_changes bytes.now cs × ComesInAnyOrder self.old.kept (with_hashes cs) self.new.kept) }
        ensures load { IfErr result (λ fault. MatchLoad fault (λ e. FirstBad only_changes bytes.now e.chunk e.fault)) }
        ensures err { OnErr result (self.new.kept ≡ self.old.kept) }
    {
        let mut changes = changes_in(alloc, bytes, only_changes)?;
        let report = self.take_file(alloc, &mut changes, bytes.len() as u64)?;
        Ok(report)
    }

    // Delivers the changes of a file of this length.
    fn take_file(
        &mut self,
        alloc: Global,
        changes: &mut FileChanges<'_>,
        length: u64,
    ) -> Result<Report, AllocError>
        requires may_come { All MayCome (members_of changes.old) }
        requires own_hashes { HasOwnHashes (members_of changes.old) }
        ensures ok { IfOk result (λ report. Takes self.old.kept (members_of changes.old) report self.new.kept) }
        ensures order { OnOk result (ComesInAnyOrder self.old.kept (members_of changes.old) self.new.kept) }
        ensures err { OnErr result (self.new.kept ≡ self.old.kept) }
    {
        if self.comes_at_once(changes.as_slice(), length) {
            self.settle_and_merge(alloc, changes)
        } else {
            self.stage(alloc, changes, length)
        }
    }

    // Whether these changes, of a file of this length, are better merged into the document at once: where there is nothing
    // yet, where one of them is held already and so compared, and where more might be staged than the document has, and some
    // besides.
    fn comes_at_once(&self, changes: &[(Hash, Change)], length: u64) -> bool {
        let held = size_of(self.counts());
        let staged = held.saturating_sub(self.written);
        held == 0
            || staged.saturating_add(size_of_all(changes)) > self.written.saturating_add(FEW)
            || self.staged.saturating_add(length) > self.length.saturating_add(SHORT)
            || is_any_held(self.graph(), changes)
    }

    // Delivers the changes of a file. What is staged is merged into the document, and then they are.
    fn settle_and_merge(
        &mut self,
        alloc: Global,
        changes: &mut FileChanges<'_>,
    ) -> Result<Report, AllocError>
        requires may_come { All MayCome (members_of changes.old) }
        requires own_hashes { HasOwnHashes (members_of changes.old) }
        ensures ok { IfOk result (λ report. Takes self.old.kept (members_of changes.old) report self.new.kept) }
        ensures order { OnOk result (ComesInAnyOrder self.old.kept (members_of changes.old) self.new.kept) }
        ensures err { OnErr result (self.new.kept ≡ self.old.kept) }
    {
        self.settle(alloc)?;
        self.merge(alloc, changes)
    }

    // Delivers the changes of a file to the settled store, which merges them into its document.
    fn merge(&mut self, alloc: Global, changes: &mut FileChanges<'_>) -> Result<Report, AllocError>
        requires settled { self.old.settled ≡ true }
        requires may_come { All MayCome (members_of changes.old) }
        requires own_hashes { HasOwnHashes (members_of changes.old) }
        ensures ok { IfOk result (λ report. Takes self.old.kept (members_of changes.old) report self.new.kept) }
        ensures order { OnOk result (ComesInAnyOrder self.old.kept (members_of changes.old) self.new.kept) }
        ensures err { OnErr result (self.new.kept ≡ self.old.kept) }
    {
        let report = self.store.take_file(alloc, changes)?;
        self.note_written();
        Ok(report)
    }

    // Notes how large the document of the settled store is. Nothing is staged.
    fn note_written(&mut self)
        ensures { self.new ≡ self.old }
    {
        self.written = size_of(self.store.counts());
        self.length = self.store.contents().len() as u64;
        self.staged = 0;
    }

    // Makes room for changes to be staged. The same is kept as before; without memory the store is as before.
    fn go_ahead(&mut self, alloc: Global) -> Result<(), AllocError>
        ensures kept { self.new.kept ≡ self.old.kept }
        ensures ahead { OnOk result (self.new.settled ≡ false) }
        ensures err { OnErr result (self.new ≡ self.old) }
    {
        if self.ahead.is_some() {
            return Ok(());
        }
        put_ahead(alloc, &mut self.store, &mut self.ahead)?;
        Ok(())
    }

    // Delivers the changes of a file of this length. Those that join are staged.
    fn stage(
        &mut self,
        alloc: Global,
        changes: &mut FileChanges<'_>,
        length: u64,
    ) -> Result<Report, AllocError>
        requires may_come { All MayCome (members_of changes.old) }
        requires own_hashes { HasOwnHashes (members_of changes.old) }
        ensures ok { IfOk result (λ report. Takes self.old.kept (members_of changes.old) report self.new.kept) }
        ensures order { OnOk result (ComesInAnyOrder self.old.kept (members_of changes.old) self.new.kept) }
        ensures err { OnErr result (self.new.kept ≡ self.old.kept) }
    {
        self.go_ahead(alloc)?;
        self.stage_ahead(alloc, changes.take_entries(alloc), length)
    }

    // Delivers changes to a store that is ahead of its document.
    fn stage_ahead(
        &mut self,
        alloc: Global,
        changes: Vec<(Hash, Change)>,
        length: u64,
    ) -> Result<Report, AllocError>
        requires ahead { self.old.settled ≡ false }
        requires may_come { All MayCome (members_of (vec_items changes)) }
        requires own_hashes { HasOwnHashes (members_of (vec_items changes)) }
        ensures ok { IfOk result (λ report. Takes self.old.kept (members_of (vec_items changes)) report self.new.kept) }
        ensures order { OnOk result (ComesInAnyOrder self.old.kept (members_of (vec_items changes)) self.new.kept) }
        ensures err { OnErr result (self.new.kept ≡ self.old.kept) }
    {
        self.staged = self.staged.saturating_add(length);
        match &mut self.ahead {
            Some(ahead) => ahead.take(alloc, changes),
            None => unreachable!(),
        }
    }

    /// Merges what is staged into the document. The same is kept as before.
    pub fn settle(&mut self, alloc: Global) -> Result<(), AllocError>
        ensures kept { self.new.kept ≡ self.old.kept }
        ensures settled { OnOk result (self.new.settled ≡ true) }
        ensures err { OnErr result (self.new ≡ self.old) }
    {
        let Some(ahead) = self.ahead.take() else {
            return Ok(());
        };
        match settled(alloc, ahead) {
            Ok(store) => {
                self.store = store;
                self.note_merged();
                Ok(())
            }
            Err(ahead) => {
                self.ahead = Some(ahead);
                Err(AllocError)
            }
        }
    }

    // Notes how large the document of the settled store is, where it was made anew.
    fn note_merged(&mut self)
        ensures { self.new ≡ self.old }
    {
        if size_of(self.store.counts()) != self.written {
            self.note_written();
        }
    }

    /// Whether the document has all changes of the closed set, so that it may be read.
    pub fn is_settled(&self) -> bool
        ensures { result ≡ self.now.settled }
    {
        self.ahead.is_none()
    }

    /// The settled store, for what is read off its document.
    pub fn store(&self) -> &Store
        requires { self.now.settled ≡ true }
        ensures { result.now ≡ self.now.kept }
    {
        &self.store
    }

    /// The graph of the closed set.
    pub fn graph(&self) -> &Graph
        ensures graph { result.now ≡ nodes self.now.kept.closed }
        ensures kept { IsKept self.now.kept }
    {
        match &self.ahead {
            Some(ahead) => ahead.graph(),
            None => self.store.graph(),
        }
    }

    /// How much is kept.
    pub fn counts(&self) -> Counts
        ensures { result ≡ counts_of self.now.kept }
    {
        match &self.ahead {
            Some(ahead) => ahead.counts(),
            None => self.store.counts(),
        }
    }

    /// The hashes of the waiting changes, ascending.
    pub fn waiting(&self, alloc: Global) -> Result<List<Hash>, AllocError>
        ensures hashes { IfOk result (λ waiting. waiting ≡ hashes self.now.kept.waiting) }
        ensures ascend { IfOk result (λ waiting. Ascends hash_cmp waiting) }
    {
        match &self.ahead {
            Some(ahead) => ahead.waiting(alloc),
            None => self.store.waiting(alloc),
        }
    }
}
