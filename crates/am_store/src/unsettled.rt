//! What a store keeps while its document lacks changes.
ghost use Rattle.std.specs.Prelude.{◌≡◌, All, IfOk, IfErr, OnOk, OnErr, vec_items};
ghost use Rattle.am_types.specs.Deliver.{MayCome};
ghost use Rattle.am_types.specs.Documents.{table};
ghost use Rattle.am_types.specs.Members.{hashes};
ghost use Rattle.am_types.specs.Order.{hash_cmp, Ascends};
ghost use Rattle.am_doc.specs.Contents.{body};
ghost use Rattle.am_change.specs.Judgement.{HasOwnHashes};
ghost use Rattle.am_graph.specs.Graphs.{nodes};
ghost use Rattle.am_delivery.specs.Waiting.{members_of};
ghost use Rattle.am_store.specs.AnyOrder.{ComesInAnyOrder};
ghost use Rattle.am_store.specs.Kept.{IsKept, counts_of, Takes};

use crate::parts::Parts;
use crate::report::{Counts, Report, counted};
use crate::staging::Staging;
use crate::store::{Store, count_of};
use crate::waiting::Waiting;
use am_delivery::{Settled, deliver, keeps_what_came, listing_is_free, order_is_free};
use am_graph::Graph;
use am_types::{Bytes, Change, Hash, List};
use std::alloc::{AllocError, Global};
use std::marker::Model;

/// A closed set at rest, whose document may lack changes of it, and those that wait. Contracts see both as those of a store.
#[derive(Drop)]
pub struct Unsettled {
    set: Staging,
    waiting: Waiting,
}

impl Model for Unsettled {
    ghost use Rattle.am_store.specs.Kept.{Kept};
    ghost use Rattle.am_store.specs.Unsettled.{unsettled_in, IsUnsettled};

    ghost Value = { Kept };

    ghost view = { unsettled_in };

    ghost invariant = { IsUnsettled };
}

impl Unsettled {
    /// What this store keeps. Its document lacks nothing yet.
    pub fn over(alloc: Global, store: Store) -> Unsettled
        ensures { result ≡ store }
    {
        let Store {
            contents,
            graph,
            index,
            waiting,
            counts: _,
            alloc: _,
            closed,
        } = store;
        let parts = Parts {
            closed,
            contents,
            graph,
            index,
        };
        Unsettled {
            set: Staging::over(parts, alloc),
            waiting,
        }
    }

    /// The store of all, whose document has these contents.
    pub fn into_store(self, alloc: Global, contents: Bytes) -> Store
        requires { contents ≡ body (table self.closed) }
        ensures { result ≡ self }
    {
        let counts = self.counts();
        let Unsettled { set, waiting } = self;
        let Parts {
            closed,
            contents,
            graph,
            index,
        } = set.into_parts(contents);
        Store {
            contents,
            graph,
            index,
            waiting,
            counts,
            alloc,
            closed,
        }
    }

    /// The store of all, where its document lacks nothing; else the same again.
    pub fn into_whole(self, alloc: Global) -> Result<Store, Unsettled>
        ensures ok { IfOk result (λ store. store ≡ self) }
        ensures err { IfErr result (λ ahead. ahead ≡ self) }
    {
        let counts = self.counts();
        let Unsettled { set, waiting } = self;
        match set.into_whole() {
            Ok(parts) => {
                let Parts {
                    closed,
                    contents,
                    graph,
                    index,
                } = parts;
                Ok(Store {
                    contents,
                    graph,
                    index,
                    waiting,
                    counts,
                    alloc,
                    closed,
                })
            }
            Err(set) => Err(Unsettled { set, waiting }),
        }
    }

    /// The contents of the document of the whole closed set.
    pub fn merged(&self, alloc: Global) -> Result<Bytes, AllocError>
        ensures { IfOk result (λ contents. contents ≡ body (table self.now.closed)) }
    {
        self.set.merged(alloc)
    }

    /// Delivers changes that stand beside their own hashes. Those that join are staged. Without memory all is as before.
    pub fn take(
        &mut self,
        alloc: Global,
        changes: Vec<(Hash, Change)>,
    ) -> Result<Report, AllocError>
        requires may_come { All MayCome (members_of (vec_items changes)) }
        requires own_hashes { HasOwnHashes (members_of (vec_items changes)) }
        ensures ok { IfOk result (λ report. Takes self.old (members_of (vec_items changes)) report self.new) }
        ensures order { OnOk result (ComesInAnyOrder self.old (members_of (vec_items changes)) self.new) }
        ensures err { OnErr result (self.new ≡ self.old) }
    {
        keeps_what_came();
        listing_is_free();
        order_is_free();
        let Ok(settled) = deliver(
            alloc,
            &mut self.set,
            &mut self.waiting.changes,
            &mut self.waiting.pending,
            changes,
        ) else {
            self.set.cut();
            return Err(AllocError);
        };
        let Settled { joined, rejected } = settled;
        Ok(Report {
            added: count_of(joined.as_slice()),
            waiting: self.waiting.count(),
            rejected,
        })
    }

    /// The graph of the closed set.
    pub fn graph(&self) -> &Graph
        ensures graph { result.now ≡ nodes self.now.closed }
        ensures kept { IsKept self.now }
    {
        self.set.graph()
    }

    /// How much there is.
    pub fn counts(&self) -> Counts
        ensures { result ≡ counts_of self.now }
    {
        counted(self.set.totals(), self.waiting.count())
    }

    /// The hashes of the waiting changes, ascending.
    pub fn waiting(&self, alloc: Global) -> Result<List<Hash>, AllocError>
        ensures hashes { IfOk result (λ waiting. waiting ≡ hashes self.now.waiting) }
        ensures ascend { IfOk result (λ waiting. Ascends hash_cmp waiting) }
    {
        self.waiting.hashes(alloc)
    }
}
