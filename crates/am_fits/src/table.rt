//! What an index keeps of operations: small keys in place of ids and names.
ghost use Rattle.std.specs.Prelude.{◌≡◌, ◌++◌, ◌∷◌, ◌+◌, ◌≤◌, ◌<◌, ℕ, [], All, List, length, map, take, option_map, IfOk, OnOk, OnErr, None, Some, vec_len, vec_capacity};
ghost use Rattle.am_types.specs.declared.OpId.{OpId};
ghost use Rattle.am_types.specs.Operations.{operations, slot};
ghost use Rattle.am_types.specs.Views.{id_of, key_of, object_of};
ghost use Rattle.am_types.specs.Limits.{counter_end};
ghost use Rattle.am_graph.specs.Reaches.{number};
ghost use Rattle.am_fits.specs.Facts.{fact_of, facts, fact_with};
ghost use Rattle.am_fits.specs.Runs.{keys_of, AreNew};
ghost use Rattle.am_fits.specs.Tables.{IsTable, IsLonger, KeepsEach, facts_in};
ghost use Rattle.am_fits.specs.Words.{words_of, WordsGrow, IsIdOf, IsObjectOf, IsSlotOf, IsFactOf, IsLast, id_in, object_in, slot_in};
ghost use Rattle.am_fits.specs.Shown.{slot_shown, fact_shown};

use crate::runs::{Run, cut_each, enter, make_room, place_of};
use crate::seen::{Seen, SlotRef};
use crate::spans::{Span, drop_last};
use crate::texts::{number, text_at};
use am_graph::NumberedTexts;
use am_types::{IdRef, KeyRef, ObjRef, ReadChange, ReadOp, Twin, same_actor};
use std::alloc::{AllocError, Global};

/// An id: the number of its actor among the authors, and its counter.
#[derive(Clone, Copy, Debug, PartialEq, Eq)]
pub(crate) struct IdKey {
    pub author: usize,
    pub counter: u64,
}

/// An object.
#[derive(Clone, Copy, Debug)]
pub(crate) enum ObjectKey {
    Root,
    Made(IdKey),
}

/// A slot; a name by its number among the names.
#[derive(Clone, Copy, Debug)]
pub(crate) enum SlotKey {
    Name(usize),
    Head,
    Elem(IdKey),
}

/// What is kept of an operation.
#[derive(Clone, Copy, Debug)]
pub(crate) struct Kept {
    pub object: ObjectKey,
    pub slot: SlotKey,
    pub action: u8,
    pub insert: bool,
}

/// The actors and the names that keys speak of, each with its place as its number.
#[derive(Drop)]
pub(crate) struct Texts {
    pub authors: NumberedTexts,
    pub names: NumberedTexts,
}

/// Operations by their places, in the order in which they came.
#[derive(Drop)]
pub(crate) struct Table {
    pub texts: Texts,
    /// What is kept of each operation.
    pub kept: Vec<Kept>,
    /// The ids of the operations.
    pub spans: Vec<Span>,
    /// The places of each author's operations, by the author's number.
    pub runs: Vec<Vec<Run>>,
}

/// The actor of the id that was looked at last, and its number.
#[derive(Clone, Copy, Debug)]
struct Last<'a> {
    actor: &'a [u8],
    author: usize,
}

impl Texts {
    // The key of an id.
    #[inline(always)]
    fn id<'a>(
        &mut self,
        alloc: Global,
        last: &mut Last<'a>,
        id: IdRef<'a>,
    ) -> Result<IdKey, AllocError>
        requires { IsLast (words_of self.old) last.old }
        ensures grow { WordsGrow (words_of self.old) (words_of self.new) }
        ensures last { IsLast (words_of self.new) last.new }
        ensures id { IfOk result (λ k. IsIdOf (words_of self.new) k (id_of id.entry)) }
    {
        let counter = id.counter;
        let actor = id.actor;
        if same_actor(actor, last.actor) {
            return Ok(IdKey {
                author: last.author,
                counter,
            });
        }
        let author = number(alloc, &mut self.authors, actor)?;
        *last = Last { actor, author };
        Ok(IdKey { author, counter })
    }

    // The key of an object.
    fn object<'a>(
        &mut self,
        alloc: Global,
        last: &mut Last<'a>,
        object: ObjRef<'a>,
    ) -> Result<ObjectKey, AllocError>
        requires { IsLast (words_of self.old) last.old }
        ensures grow { WordsGrow (words_of self.old) (words_of self.new) }
        ensures last { IsLast (words_of self.new) last.new }
        ensures object { IfOk result (λ k. IsObjectOf (words_of self.new) k (object_of object.entry)) }
    {
        match object {
            ObjRef::Root => Ok(ObjectKey::Root),
            ObjRef::Made(id) => {
                let key = self.id(alloc, last, id)?;
                Ok(ObjectKey::Made(key))
            }
        }
    }

    // The key of a slot.
    fn slot<'a>(
        &mut self,
        alloc: Global,
        last: &mut Last<'a>,
        slot: KeyRef<'a>,
    ) -> Result<SlotKey, AllocError>
        requires { IsLast (words_of self.old) last.old }
        ensures grow { WordsGrow (words_of self.old) (words_of self.new) }
        ensures last { IsLast (words_of self.new) last.new }
        ensures slot { IfOk result (λ k. IsSlotOf (words_of self.new) k (key_of slot.entry)) }
    {
        match slot {
            KeyRef::Name(name) => {
                let name = number(alloc, &mut self.names, name.as_bytes())?;
                Ok(SlotKey::Name(name))
            }
            KeyRef::Head => Ok(SlotKey::Head),
            KeyRef::Elem(id) => {
                let key = self.id(alloc, last, id)?;
                Ok(SlotKey::Elem(key))
            }
        }
    }

    // What is kept of an operation with the id of this key.
    fn kept<'a, O: ReadOp>(
        &mut self,
        alloc: Global,
        last: &mut Last<'a>,
        key: IdKey,
        op: &'a O,
    ) -> Result<Kept, AllocError>
        requires { IsLast (words_of self.old) last.old }
        ensures grow { WordsGrow (words_of self.old) (words_of self.new) }
        ensures last { IsLast (words_of self.new) last.new }
        ensures fact { IfOk result (λ kept. (i : OpId) → IsIdOf (words_of self.old) key i → IsFactOf (words_of self.new) kept (fact_of (record { id = i; op = O.op op.now }))) }
    {
        let object = self.object(alloc, last, op.obj())?;
        let slot = if op.insert() {
            SlotKey::Elem(key)
        } else {
            self.slot(alloc, last, op.key())?
        };
        Ok(Kept {
            object,
            slot,
            action: op.action(),
            insert: op.insert(),
        })
    }

    // The id that a key means.
    fn lend_id(&self, key: IdKey) -> IdRef<'_>
        ensures { id_of result ≡ id_in (words_of self.now) key }
    {
        IdRef {
            counter: key.counter,
            actor: text_at(&self.authors, key.author),
        }
    }

    // The object that a key means.
    fn lend_object(&self, key: ObjectKey) -> ObjRef<'_>
        ensures { object_of result ≡ object_in (words_of self.now) key }
    {
        match key {
            ObjectKey::Root => ObjRef::Root,
            ObjectKey::Made(id) => ObjRef::Made(self.lend_id(id)),
        }
    }

    // The slot that a key means.
    fn lend_slot(&self, key: SlotKey) -> SlotRef<'_>
        ensures { slot_shown result ≡ slot_in (words_of self.now) key }
    {
        match key {
            SlotKey::Name(name) => SlotRef::Name(text_at(&self.names, name)),
            SlotKey::Head => SlotRef::Head,
            SlotKey::Elem(id) => SlotRef::Elem(self.lend_id(id)),
        }
    }
}

impl Table {
    /// No operations.
    pub fn new(alloc: Global) -> Self
        ensures facts { facts_in result ≡ [] }
        ensures table { IsTable result }
    {
        Table {
            texts: Texts {
                authors: NumberedTexts::new(alloc),
                names: NumberedTexts::new(alloc),
            },
            kept: Vec::new(alloc),
            spans: Vec::new(alloc),
            runs: Vec::new(alloc),
        }
    }

    /// The number of the actor, if it is an author.
    pub fn author(&self, actor: &[u8]) -> Option<usize>
        ensures { result ≡ number (words_of self.now.texts).authors actor.now }
    {
        self.texts.authors.number_of(actor)
    }

    /// What is said of the operation of the author, if there is one, with the counter.
    pub fn at(&self, author: Option<usize>, counter: u64) -> Option<Seen<'_>>
        requires { IsTable self.now }
        ensures { (x : List ℕ) → author ≡ number (words_of self.now.texts).authors x → option_map fact_shown result ≡ fact_with (facts_in self.now) (record { counter = counter; actor = x }) }
    {
        let Some(author) = author else {
            return None;
        };
        if author >= self.runs.len() {
            return None;
        }
        let Some(place) = place_of(self.runs[author].as_slice(), counter) else {
            return None;
        };
        let kept = self.kept[place];
        Some(Seen {
            object: self.texts.lend_object(kept.object),
            slot: self.texts.lend_slot(kept.slot),
            action: kept.action,
            insert: kept.insert,
        })
    }

    /// Adds the operations of the change, all of them or, without memory, none.
    pub fn add<C: ReadChange>(&mut self, alloc: Global, change: &C) -> Result<(), AllocError>
        requires table { IsTable self.old }
        requires new { All (λ x. fact_with (facts_in self.old) x.id ≡ None) (operations (C.change change.now)) }
        requires end { (C.change change.now).start + length (C.change change.now).ops ≤ counter_end }
        ensures table { IsTable self.new }
        ensures ok { OnOk result (facts_in self.new ≡ facts_in self.old ++ facts (operations (C.change change.now))) }
        ensures err { OnErr result (facts_in self.new ≡ facts_in self.old) }
    {
        if change.ops().is_empty() {
            return Ok(());
        }
        let author = number(alloc, &mut self.texts.authors, change.actor().as_slice())?;
        make_room(alloc, &mut self.runs, author)?;
        self.spans.reserve(1)?;
        let count = self.kept.len();
        match self.join(alloc, author, change) {
            Ok(()) => Ok(()),
            Err(error) => {
                self.kept.truncate(count);
                Err(error)
            }
        }
    }

    // Adds the operations of a change of the author. Without memory there may be more behind what is kept, and nothing
    // else has changed.
    fn join<C: ReadChange>(
        &mut self,
        alloc: Global,
        author: usize,
        change: &C,
    ) -> Result<(), AllocError>
        requires table { IsTable self.old }
        requires author { number (words_of self.old.texts).authors (C.change change.now).actor ≡ Some author }
        requires new { AreNew (keys_of self.old.spans.items) (record { author = author; start = (C.change change.now).start; count = length (C.change change.now).ops }) }
        requires some { 1 ≤ length (C.change change.now).ops }
        requires end { (C.change change.now).start + length (C.change change.now).ops ≤ counter_end }
        requires runs { author < length self.old.runs.items }
        requires spans { vec_len self.old.spans < vec_capacity self.old.spans }
        ensures table { OnOk result (IsTable self.new) }
        ensures ok { OnOk result (facts_in self.new ≡ facts_in self.old ++ facts (operations (C.change change.now))) }
        ensures grow { WordsGrow (words_of self.old.texts) (words_of self.new.texts) }
        ensures err { OnErr result (IsLonger self.old self.new) }
    {
        let run = Run {
            start: change.start(),
            first: self.kept.len(),
            count: change.ops().len(),
        };
        keep_each(alloc, &mut self.texts, &mut self.kept, author, change)?;
        enter(&mut self.runs[author], run)?;
        self.spans.push_reserved(Span {
            author,
            start: run.start,
            count: run.count,
        });
        Ok(())
    }

    /// Makes room for so many more operations.
    pub fn reserve(&mut self, count: usize) -> Result<(), AllocError>
        requires { IsTable self.old }
        ensures table { IsTable self.new }
        ensures facts { facts_in self.new ≡ facts_in self.old }
    {
        self.kept.reserve(count)
    }

    /// Keeps the operations that came first, so many of them.
    pub fn cut(&mut self, count: usize)
        requires { IsTable self.old }
        ensures table { IsTable self.new }
        ensures facts { facts_in self.new ≡ take count (facts_in self.old) }
    {
        if count < self.kept.len() {
            drop_last(&mut self.spans, self.kept.len() - count);
            cut_each(&mut self.runs, count);
            self.kept.truncate(count);
        }
    }

    /// An equal table.
    pub fn copy(&self, alloc: Global) -> Result<Table, AllocError>
        requires { IsTable self.now }
        ensures facts { IfOk result (λ twin. facts_in twin ≡ facts_in self.now) }
        ensures table { IfOk result (λ twin. IsTable twin) }
    {
        let authors = self.texts.authors.copy(alloc)?;
        let names = self.texts.names.copy(alloc)?;
        let kept = self.kept.clone()?;
        let spans = self.spans.clone()?;
        let runs = self.runs.clone()?;
        Ok(Table {
            texts: Texts { authors, names },
            kept,
            spans,
            runs,
        })
    }
}

// Keeps each operation of a change of the author behind what is kept; without memory only some of them.
fn keep_each<C: ReadChange>(
    alloc: Global,
    texts: &mut Texts,
    kept: &mut Vec<Kept>,
    author: usize,
    change: &C,
) -> Result<(), AllocError>
    requires author { number (words_of texts.old).authors (C.change change.now).actor ≡ Some author }
    requires end { (C.change change.now).start + length (C.change change.now).ops ≤ counter_end }
    ensures grow { WordsGrow (words_of texts.old) (words_of texts.new) }
    ensures begins { (rest : List Kept) × (kept.new.items ≡ kept.old.items ++ rest) }
    ensures ok { OnOk result (KeepsEach (words_of texts.new) author (C.change change.now) (length (C.change change.now).ops) kept.old.items kept.new.items) }
{
    let ops = change.ops();
    kept.reserve(ops.len())?;
    let mut last = Last {
        actor: change.actor().as_slice(),
        author,
    };
    for i in 0..ops.len() {
        let key = IdKey {
            author,
            counter: change.start() + i as u64,
        };
        let one = texts.kept(alloc, &mut last, key, &ops[i])?;
        kept.push(one)?;
    }
    Ok(())
}
