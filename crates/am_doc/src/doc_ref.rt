//! A document that is lent from the contents of its chunk.
ghost use Rattle.std.specs.Prelude.{◌≡◌, ◌↔◌, length, slice_get, IsTrue, IfSome, IfNone};
ghost use Rattle.std.specs.List.{AllByRecursion};
ghost use Rattle.std.specs.Option.{option_copied};
ghost use Rattle.am_types.specs.declared.Table.{Table as ATable};
ghost use Rattle.am_colmeta.specs.Judgement.{AreCompressed};
ghost use Rattle.am_fields.specs.Limits.{IsShortActor};
ghost use Rattle.am_doc.specs.Fronts.{IsFront};
ghost use Rattle.am_doc.specs.Sound.{IsSpelled};
ghost use Rattle.am_doc.specs.Spelling.{SpellsBehind, SpellsTable, Judges};
ghost use Rattle.am_doc.specs.Reading.{front_of};

use crate::cut::columns_at;
use crate::fault::DocFault;
use crate::front::FrontRef;
use crate::suffix::is_suffix;
use am_change::HashList;
use am_colmeta::ActorList;
use am_doccols::{MetaCursor, RowCursor, meta_specifications};
use am_fields::specifications;
use am_types::{Hash, LONGEST_ACTOR};
use std::marker::Model;

// The columns that change rows may have.
const META_COLUMNS: [u64; 9] = [
    meta_specifications::AUTHOR,
    meta_specifications::SEQ,
    meta_specifications::MAX,
    meta_specifications::TIME,
    meta_specifications::MESSAGE,
    meta_specifications::DEP_COUNT,
    meta_specifications::DEP_INDEX,
    meta_specifications::EXTRA_METADATA,
    meta_specifications::EXTRA_RAW,
];

// The columns that operation rows may have.
const ROW_COLUMNS: [u64; 16] = [
    specifications::OBJECT_ACTOR,
    specifications::OBJECT_COUNTER,
    specifications::KEY_ACTOR,
    specifications::KEY_COUNTER,
    specifications::KEY_NAME,
    specifications::ID_ACTOR,
    specifications::ID_COUNTER,
    specifications::INSERT,
    specifications::ACTION,
    specifications::VALUE_METADATA,
    specifications::VALUE_RAW,
    specifications::SUCC_COUNT,
    specifications::SUCC_ACTOR,
    specifications::SUCC_COUNTER,
    specifications::EXPAND,
    specifications::MARK,
];

/// A document, lent from the contents of its chunk. A contract sees the table that they spell. Nothing is copied.
#[derive(Drop)]
pub struct DocRef<'a> {
    actors: ActorList<'a>,
    heads: HashList<'a>,
    metas: MetaCursor<'a>,
    rows: RowCursor<'a>,
    suffix: &'a [u8],
}

impl<'a> Model for DocRef<'a> {
    ghost use Rattle.am_types.specs.declared.Table.{Table};
    ghost use Rattle.am_doc.specs.Reading.{table_with};

    ghost Value = { Table };

    ghost view = { λ d. table_with d.actors d.heads d.metas d.rows d.suffix.now };

    ghost use Rattle.am_doc.specs.Sound.{IsSpelled};

    ghost invariant = { λ d. IsSpelled (table_with d.actors d.heads d.metas d.rows d.suffix.now) };
}

// Whether each actor has 1 to 1,024 bytes.
fn are_short(actors: &ActorList<'_>) -> bool
    ensures { IsTrue result ↔ AllByRecursion IsShortActor actors.now }
{
    let mut rest = actors.again();
    while let Some(actor) = rest.next() {
        if actor.is_empty() || actor.len() > LONGEST_ACTOR {
            return false;
        }
    }
    true
}

// The document with this front, and this behind it; None where that is no document's.
fn document_with<'a>(front: &FrontRef<'a>, rest: &'a [u8]) -> Option<DocRef<'a>>
    requires { IsFront (front_of front.now) }
    ensures spelled { IfSome result (SpellsBehind (front_of front.now) rest.now) }
    ensures none { IfNone result ((t : ATable) → (AreCompressed front.now.metas → ⊥) → (AreCompressed front.now.rows → ⊥) → SpellsBehind (front_of front.now) rest.now t → ⊥) }
{
    let (metas, rest) = columns_at(&front.metas, rest, &META_COLUMNS)?;
    let (rows, suffix) = columns_at(&front.rows, rest, &ROW_COLUMNS)?;
    if !are_short(&front.actors) {
        return None;
    }
    if !front.heads.are_ascending() {
        return None;
    }
    let Ok(metas) = MetaCursor::over(metas, front.actors.again()) else {
        return None;
    };
    let Ok(rows) = RowCursor::over(rows, front.actors.again()) else {
        return None;
    };
    if !is_suffix(suffix, front.heads.count(), metas.left()) {
        return None;
    }
    Some(DocRef {
        actors: front.actors.again(),
        heads: front.heads.again(),
        metas,
        rows,
        suffix,
    })
}

// The document with this front, and this behind it, which is known to spell the rest of a table.
fn known<'a>(front: &FrontRef<'a>, rest: &'a [u8]) -> DocRef<'a>
    requires front { IsFront (front_of front.now) }
    requires known { (t : ATable) × SpellsBehind (front_of front.now) rest.now t × (AreCompressed front.now.metas → ⊥) × (AreCompressed front.now.rows → ⊥) }
    ensures { SpellsBehind (front_of front.now) rest.now result }
{
    let Some((metas, rest)) = columns_at(&front.metas, rest, &META_COLUMNS) else {
        unreachable!();
    };
    let Some((rows, suffix)) = columns_at(&front.rows, rest, &ROW_COLUMNS) else {
        unreachable!();
    };
    let metas = MetaCursor::spelled(metas, front.actors.again());
    let rows = RowCursor::spelled(rows, front.actors.again());
    DocRef {
        actors: front.actors.again(),
        heads: front.heads.again(),
        metas,
        rows,
        suffix,
    }
}

impl<'a> DocRef<'a> {
    /// The document with these contents of a chunk (Automerge Binary Document Format, "Document Chunks"), in any spelling of
    /// its columns. CompressedColumn where the parts in front of the columns can be read and list a column that is compressed
    /// by DEFLATE, else BadDocument where the contents spell no table. It takes no memory.
    pub fn read(contents: &'a [u8]) -> Result<DocRef<'a>, DocFault>
        ensures judged { Judges contents.now result }
    {
        let Some((front, rest)) = FrontRef::read(contents) else {
            return Err(DocFault::BadDocument);
        };
        if front.metas.compressed() {
            return Err(DocFault::CompressedColumn);
        }
        if front.rows.compressed() {
            return Err(DocFault::CompressedColumn);
        }
        match document_with(&front, rest) {
            Some(doc) => Ok(doc),
            None => Err(DocFault::BadDocument),
        }
    }

    /// The document that these contents are known to spell. No row is judged; of both sorts the column that tells how many rows
    /// there are is passed once.
    pub fn spelled(contents: &'a [u8]) -> DocRef<'a>
        requires { (t : ATable) × SpellsTable contents.now t }
        ensures { SpellsTable contents.now result }
    {
        let Some((front, rest)) = FrontRef::read(contents) else {
            unreachable!();
        };
        known(&front, rest)
    }

    /// Some contents spell its table. Nothing is done.
    pub fn is_spelled(&self)
        ensures { IsSpelled self.now }
    {
        let _ = &self.actors;
    }

    /// The operation rows, one after another.
    pub fn rows(&self) -> RowCursor<'a>
        ensures { result ≡ self.now.rows }
    {
        self.rows.again()
    }

    /// The change rows, one after another.
    pub fn metas(&self) -> MetaCursor<'a>
        ensures { result ≡ self.now.metas }
    {
        self.metas.again()
    }

    /// How many heads are stated.
    pub fn head_count(&self) -> u64
        ensures { result ≡ length self.now.heads }
    {
        self.heads.count()
    }

    /// The stated head at a place, counted from 0, or None where there are fewer.
    pub fn head(&self, i: u64) -> Option<Hash>
        ensures { result ≡ slice_get self.now.heads i }
    {
        self.heads.get(i)
    }

    /// The actors, one after another.
    pub fn actors(&self) -> ActorList<'a>
        ensures { result ≡ self.now.actors }
    {
        self.actors.again()
    }

    /// How many actors are listed.
    pub fn actor_count(&self) -> u64
        ensures { result ≡ length self.now.actors }
    {
        self.actors.count()
    }

    /// The actor at a place, counted from 0, or None where there are fewer. It costs a step where all actors take
    /// as many bytes, else a walk.
    pub fn actor(&self, i: u64) -> Option<&'a [u8]>
        ensures { option_copied result ≡ slice_get self.now.actors i }
    {
        self.actors.get(i)
    }

    /// The same document again.
    pub fn again(&self) -> Self
        ensures { result ≡ self.now }
    {
        DocRef {
            actors: self.actors.again(),
            heads: self.heads.again(),
            metas: self.metas.again(),
            rows: self.rows.again(),
            suffix: self.suffix,
        }
    }
}
