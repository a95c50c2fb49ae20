//! What stands from command to command.
ghost use Rattle.std.specs.Prelude.{◌≡◌, None, IfOk, IfErr, OnOk, OnErr, IfSome, List, length, true};
ghost use Rattle.am_types.specs.declared.Change.{Change};
ghost use Rattle.am_types.specs.Documents.{table};
ghost use Rattle.am_types.specs.Members.{heads, hashes};
ghost use Rattle.am_types.specs.Order.{hash_cmp, Ascends};
ghost use Rattle.am_doc.specs.Contents.{body};
ghost use Rattle.am_graph.specs.Graphs.{nodes};
ghost use Rattle.am_json.specs.declared.Form.TheVariants.{Winners};
ghost use Rattle.am_cache.specs.Kept.{text_of, looked_up, with_text};
ghost use Rattle.am_store.specs.Kept.{Kept, IsKept, Delivered, counts_of};
ghost use Rattle.am_store.specs.Files.{IsFile, FirstBad};
ghost use Rattle.am_store.specs.History.{history};
ghost use Rattle.am_store.specs.Saved.{document, saved_all, chunk_in};
ghost use Rattle.am_store.specs.Whole.{MatchLoad};
ghost use Rattle.am_session.specs.History.{history_text};
ghost use Rattle.am_session.specs.Reading.{reading};
ghost use Rattle.am_session.specs.Session.{nothing_held, with_kept, with_views};
ghost use Rattle.am_session.specs.Views.{each_once, view_at, ShowsAt, Shows, IsText};

use crate::audit::audit;
use crate::history::list_history;
use crate::reading::read;
use crate::replies::refuses;
use crate::views::view_at;
use am_cache::{Cache, View};
use am_graph::Graph;
use am_json::Form;
use am_laws::views_stay;
use am_store::{Counts, ReadFault, Report, StagedStore};
use am_types::{Bytes, Hash, List, Twin};
use std::alloc::{AllocError, Global};
use std::marker::Model;

/// A session: a store, and the texts that were printed last. Contracts see what it holds. Each text is what would be
/// printed now. What reads the document of the store settles it first, which changes nothing that is held.
#[derive(Drop)]
pub struct Session {
    store: StagedStore,
    views: Cache,
    // The heads of the closed set, where they were listed since it last changed.
    heads: Option<List<Hash>>,
}

impl Model for Session {
    ghost use Rattle.am_session.specs.Session.{Held, held};
    ghost use Rattle.am_session.specs.Views.{AreTexts, AreHeads};

    ghost Value = { Held };

    ghost view = { λ s. held s.store.kept s.views };

    ghost invariant = { λ s. AreTexts s.store.kept.closed s.views × AreHeads s.store.kept.closed s.heads };
}

impl Session {
    /// A session that holds nothing.
    pub fn new(alloc: Global) -> Result<Session, AllocError>
        ensures { IfOk result (λ session. session ≡ nothing_held) }
    {
        let views = Cache::new(alloc)?;
        let store = StagedStore::new(alloc)?;
        Ok(Session {
            store,
            views,
            heads: None,
        })
    }

    /// The graph of the closed set.
    pub(crate) fn graph(&self) -> &Graph
        ensures graph { result.now ≡ nodes self.now.kept.closed }
        ensures kept { IsKept self.now.kept }
    {
        self.store.graph()
    }

    /// How much its store holds.
    pub(crate) fn counts(&self) -> Counts
        ensures { result ≡ counts_of self.now.kept }
    {
        self.store.counts()
    }

    /// The hashes of the waiting changes, ascending.
    pub(crate) fn waiting(&self, alloc: Global) -> Result<List<Hash>, AllocError>
        ensures hashes { IfOk result (λ waiting. waiting ≡ hashes self.now.kept.waiting) }
        ensures ascend { IfOk result (λ waiting. Ascends hash_cmp waiting) }
    {
        self.store.waiting(alloc)
    }

    /// The file of the document of the closed set.
    pub(crate) fn document(&mut self, alloc: Global) -> Result<Bytes, AllocError>
        ensures file { IfOk result (λ file. file ≡ document self.old.kept.closed) }
        ensures same { self.new ≡ self.old }
    {
        self.store.settle(alloc)?;
        self.store.store().save(alloc)
    }

    /// The file of the document, and behind it the chunks of the waiting changes.
    pub(crate) fn whole_file(&mut self, alloc: Global) -> Result<Bytes, AllocError>
        ensures file { IfOk result (λ file. file ≡ saved_all self.old.kept) }
        ensures same { self.new ≡ self.old }
    {
        self.store.settle(alloc)?;
        self.store.store().save_all(alloc)
    }

    /// The chunk of the change with this hash, or None where the closed set doesn't hold it.
    pub(crate) fn chunk(&mut self, alloc: Global, hash: &Hash) -> Result<Option<Bytes>, AllocError>
        ensures found { IfOk result (λ found. found ≡ chunk_in self.old.kept.closed hash.now) }
        ensures same { self.new ≡ self.old }
    {
        self.store.settle(alloc)?;
        self.store.store().change(alloc, hash)
    }

    /// The reply to history.
    pub(crate) fn history(&mut self, alloc: Global) -> Result<Bytes, AllocError>
        ensures reply { IfOk result (λ reply. reply ≡ history_text (history self.old.kept.closed)) }
        ensures same { self.new ≡ self.old }
    {
        self.store.settle(alloc)?;
        list_history(alloc, self.store.store())
    }

    /// The reply to audit.
    pub(crate) fn audit(&mut self, alloc: Global, named: &[Hash]) -> Result<Bytes, AllocError>
        ensures reply { IfOk result (λ reply. reply ≡ reading Winners named.now self.old.kept.closed) }
        ensures same { self.new ≡ self.old }
    {
        self.store.settle(alloc)?;
        audit(alloc, named, self.store.store())
    }

    /// How long the contents of the document are.
    pub(crate) fn contents_length(&mut self, alloc: Global) -> Result<u64, AllocError>
        ensures length { IfOk result (λ count. count ≡ length (body (table self.old.kept.closed))) }
        ensures same { self.new ≡ self.old }
    {
        self.store.settle(alloc)?;
        Ok(self.store.store().contents().len() as u64)
    }

    /// How often a text was found. The number stands still at 2^64 - 1.
    pub(crate) fn hits(&self) -> u64
        ensures { result ≡ self.now.views.hits }
    {
        self.views.hits()
    }

    /// Delivers the changes of a file to its store. `only_changes` says whether documents are refused even where they
    /// can be read. After a fault the session is as before.
    pub(crate) fn read_file(
        &mut self,
        alloc: Global,
        bytes: &[u8],
        only_changes: bool,
    ) -> Result<Report, ReadFault>
        ensures ok { IfOk result (λ report. (cs : List Change) × IsFile only_changes bytes.now cs × Delivered self.old.kept cs report self.new.kept) }
        ensures rest { self.new ≡ with_kept self.old self.new.kept }
        ensures load { IfErr result (λ fault. MatchLoad fault (λ e. FirstBad only_changes bytes.now e.chunk e.fault)) }
        ensures err { OnErr result (self.new ≡ self.old) }
    {
        views_stay();
        self.heads = None;
        // Both say that the closed set is valid, before and after.
        let _before = self.store.graph();
        let read = self.store.read_file(alloc, bytes, only_changes);
        let _after = self.store.graph();
        read
    }

    // A copy of the text that is kept for the view.
    #[tactic(auto, using(crate::proofs::Texts::text_found))]
    fn look(&mut self, alloc: Global, view: &View) -> Result<Option<Bytes>, AllocError>
        ensures found { IfOk result (λ found. found ≡ text_of view.now self.old.views) }
        ensures right { IfOk result (λ found. IfSome found (λ text. IsText self.old.kept.closed view.now text)) }
        ensures after { self.new ≡ with_views self.old (looked_up view.now self.old.views) }
    {
        match self.views.get(view) {
            Some(text) => {
                let text = text.copy(alloc)?;
                Ok(Some(text))
            }
            None => Ok(None),
        }
    }

    // Keeps the text for the view.
    fn keep(&mut self, view: View, text: Bytes) -> Result<(), AllocError>
        requires { IsText self.now.kept.closed view text }
        ensures { OnOk result (self.new ≡ with_views self.old (with_text view text self.old.views)) }
    {
        self.views.put(view, text)
    }

    // What is printed at these hashes, where no text is kept for them. They may be known to be the heads of the closed set.
    fn print(
        &mut self,
        alloc: Global,
        view: View,
        hashes: &[Hash],
        are_heads: bool,
    ) -> Result<Bytes, AllocError>
        requires heads { view.heads ≡ each_once hashes.now }
        requires known { are_heads ≡ true → hashes.now ≡ heads self.now.kept.closed }
        requires none { text_of view self.now.views ≡ None }
        ensures { IfOk result (λ reply. ShowsAt view.form hashes.now self.old reply self.new) }
    {
        self.store.settle(alloc)?;
        let reply = read(alloc, view.form, hashes, are_heads, self.store.store())?;
        if refuses(reply.as_slice()) {
            return Ok(reply);
        }
        let text = reply.copy(alloc)?;
        self.keep(view, text)?;
        Ok(reply)
    }

    // What is printed at these hashes, which may be known to be the heads of the closed set. A text that is kept is used again.
    fn show_at(
        &mut self,
        alloc: Global,
        form: Form,
        hashes: &[Hash],
        are_heads: bool,
    ) -> Result<Bytes, AllocError>
        requires { are_heads ≡ true → hashes.now ≡ heads self.now.kept.closed }
        ensures { IfOk result (λ reply. ShowsAt form hashes.now self.old reply self.new) }
    {
        let view = view_at(alloc, form, hashes)?;
        match self.look(alloc, &view)? {
            Some(text) => Ok(text),
            None => self.print(alloc, view, hashes, are_heads),
        }
    }

    // What is printed at the heads of the closed set. They are listed once, until it changes.
    fn show_at_heads(&mut self, alloc: Global, form: Form) -> Result<Bytes, AllocError>
        ensures { IfOk result (λ reply. ShowsAt form (heads self.old.kept.closed) self.old reply self.new) }
    {
        let heads = match self.heads.take() {
            Some(heads) => heads,
            None => self.store.graph().heads(alloc)?,
        };
        let reply = self.show_at(alloc, form, heads.as_slice(), true)?;
        self.heads = Some(heads);
        Ok(reply)
    }

    /// What is printed at the hashes that are named, or at the heads of the closed set where none is. It is kept, unless it
    /// is a refusal; without memory for that there is no reply, though a look that found a text may have been counted.
    pub(crate) fn show(
        &mut self,
        alloc: Global,
        form: Form,
        named: &[Hash],
    ) -> Result<Bytes, AllocError>
        ensures { IfOk result (λ reply. Shows form named.now self.old reply self.new) }
    {
        if named.is_empty() {
            return self.show_at_heads(alloc, form);
        }
        self.show_at(alloc, form, named, false)
    }
}
