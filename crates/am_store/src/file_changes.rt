//! The changes of a file, as far as it is read.
ghost use Rattle.std.specs.Prelude.{◌≡◌, ◌++◌, ◌∷◌, [], None, IfSome, OnOk, vec_items};
ghost use Rattle.am_types.specs.Members.{changes};
ghost use Rattle.am_types.specs.Operations.{all_operations};
ghost use Rattle.am_types.specs.Rows.{rows};
ghost use Rattle.am_types.specs.ValidSets.{Valid};
ghost use Rattle.am_fits.specs.Indexes.{AreOf};
ghost use Rattle.am_delivery.specs.Waiting.{members_of};
ghost use Rattle.am_store.specs.Adopting.{IsBuilt};

use am_doc::DocRef;
use am_fits::OpIndex;
use am_graph::Graph;
use am_rebuild::Rebuilt;
use am_types::{Change, Hash};
use std::alloc::{AllocError, Global};
use std::marker::Model;
use std::mem::replace;

/// What is built of a set of changes, and a document of it.
#[derive(Drop)]
pub struct Built<'a> {
    /// The graph of the changes, in their order.
    pub graph: Graph,
    /// The index of their operations.
    pub index: OpIndex,
    /// The document that they were rebuilt from.
    pub doc: DocRef<'a>,
}

/// The changes of the chunks that were read, each behind its hash. Contracts see the changes.
#[derive(Drop)]
pub struct FileChanges<'a> {
    entries: Vec<(Hash, Change)>,
    /// What is built of them, while they are those of one document alone. A box is let go in one step of a proof.
    built: Option<Box<Built<'a>>>,
}

impl<'a> Model for FileChanges<'a> {
    ghost use Rattle.std.specs.Prelude.{List, IfSome};
    ghost use Rattle.am_types.specs.declared.Hash.{Hash};
    ghost use Rattle.am_types.specs.declared.Change.{Change};
    ghost use Rattle.am_store.specs.Adopting.{IsBuilt};

    ghost Value = { List (Hash × Change) };

    ghost view = { λ f. f.entries.items };

    ghost invariant = { λ f. IfSome f.built (λ b. IsBuilt f.entries.items b.value) };
}

/// The changes of a document alone.
pub fn entries_of(document: Rebuilt) -> Vec<(Hash, Change)>
    ensures { vec_items result ≡ vec_items document.entries }
{
    document.entries
}

// What was built is let go.
fn let_go(built: &mut Option<Box<Built<'_>>>)
    ensures { built.new ≡ None }
{
    *built = None;
}

impl<'a> FileChanges<'a> {
    /// Nothing is read yet.
    pub fn new(alloc: Global) -> FileChanges<'a>
        ensures { result ≡ [] }
    {
        FileChanges {
            entries: Vec::new(alloc),
            built: None,
        }
    }

    /// One more change.
    pub fn push(&mut self, hash: Hash, change: Change) -> Result<(), AllocError>
        ensures { OnOk result (self.new ≡ self.old ++ (hash, change) ∷ []) }
    {
        let_go(&mut self.built);
        self.entries.push((hash, change))?;
        Ok(())
    }

    /// The changes of a document, behind those that are there. Where they are the first, what was built of them is kept.
    /// An error says that memory was wanted; then the changes are of no use.
    pub fn append(
        &mut self,
        alloc: Global,
        document: Rebuilt,
        doc: DocRef<'a>,
    ) -> Result<(), AllocError>
        requires of_set { AreOf (members_of (vec_items document.entries)) document.graph document.index }
        requires valid { Valid (members_of (vec_items document.entries)) }
        requires rows { doc.rows ≡ rows (all_operations (changes (members_of (vec_items document.entries)))) }
        ensures { OnOk result (self.new ≡ self.old ++ vec_items document.entries) }
    {
        if self.entries.is_empty() {
            return self.begin(alloc, document, doc);
        }
        self.go_on(entries_of(document))
    }

    // The changes of a document, where there are none yet.
    fn begin(&mut self, alloc: Global, document: Rebuilt, doc: DocRef<'a>) -> Result<(), AllocError>
        requires none { self.old ≡ [] }
        requires of_set { AreOf (members_of (vec_items document.entries)) document.graph document.index }
        requires valid { Valid (members_of (vec_items document.entries)) }
        requires rows { doc.rows ≡ rows (all_operations (changes (members_of (vec_items document.entries)))) }
        ensures { OnOk result (self.new ≡ vec_items document.entries) }
    {
        let Rebuilt {
            entries,
            graph,
            index,
        } = document;
        let built = Box::new(alloc, Built { graph, index, doc })?;
        self.entries = entries;
        self.built = Some(built);
        Ok(())
    }

    // More changes, behind those that are there.
    fn go_on(&mut self, mut more: Vec<(Hash, Change)>) -> Result<(), AllocError>
        ensures { OnOk result (self.new ≡ self.old ++ vec_items more) }
    {
        let_go(&mut self.built);
        self.entries.append(&mut more)?;
        Ok(())
    }

    /// The changes, lent.
    pub fn as_slice(&self) -> &[(Hash, Change)]
        ensures { result.now ≡ self.now }
    {
        self.entries.as_slice()
    }

    /// The changes alone are taken out.
    pub fn take_entries(&mut self, alloc: Global) -> Vec<(Hash, Change)>
        ensures { vec_items result ≡ self.old }
    {
        let_go(&mut self.built);
        replace(&mut self.entries, Vec::new(alloc))
    }

    /// What was built of them is taken out, where there is something.
    pub fn take_built(&mut self) -> Option<Box<Built<'a>>>
        ensures built { IfSome result (λ b. IsBuilt self.old b.value) }
        ensures kept { self.new ≡ self.old }
    {
        self.built.take()
    }
}
