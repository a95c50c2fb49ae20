//! Whether columns that were read are the canonical ones of their operations.
ghost use Rattle.std.specs.Prelude.{◌≡◌, ◌↔◌, ◌≤◌, ◌∷◌, [], length, map, IsTrue, IfOk, OnErr};
ghost use Rattle.am_colmeta.specs.Metadata.{listing, Ascend};
ghost use Rattle.am_colmeta.specs.Judgement.{AreKnown};
ghost use Rattle.am_opcols.specs.Columns.{op_specifications, SpellsOps};
ghost use Rattle.am_opcols.specs.Others.{others as others_of};
ghost use Rattle.am_opcols.specs.Writing.{written_columns};
ghost use Rattle.am_opcols.specs.EachColumn.{ArePlain};

use crate::cursor::OpCursor;
use crate::each_column::{are_numbers_canonical, are_remaining_canonical};
use crate::found::OpColumns;
use crate::listed::{are_named, ascend, is_same, lists};
use crate::naming::are_named_by;
use crate::others::others_in;
use am_colmeta::{ActorList, Columns};
use am_types::Op;
use std::alloc::{AllocError, Global};

// The most other actors that are sought among owned operations one by one.
const FEW: u64 = 64;

// Whether no column is empty, each is the canonical spelling of some list, and the other actors ascend, without the
// author.
fn are_plain(columns: &OpColumns<'_>, author: &[u8], others: &ActorList<'_>) -> bool
    ensures { IsTrue result ↔ ArePlain author.now others.now columns.now }
{
    columns.are_filled()
        && are_numbers_canonical(columns)
        && are_remaining_canonical(columns)
        && ascend(others)
        && !lists(others, author)
}

// Whether just these actors are listed.
fn are_listed(listed: &ActorList<'_>, actors: &[&[u8]]) -> bool
    ensures { IsTrue result ↔ (listed.now ≡ map (λ a. a.now) actors.now) }
{
    let mut rest = listed.again();
    for actor in actors {
        let Some(next) = rest.next() else {
            return false;
        };
        if !is_same(next, actor) {
            return false;
        }
    }
    rest.next().is_none()
}

/// Whether the columns and the other actors of a change, of which these operations were read, are just those that a writer
/// of the operations leaves: no column is empty, each is the canonical spelling of some list, and the other actors ascend,
/// without the author, and are all named. It takes no memory. An actor costs a walk to the first operation that names it.
pub fn are_canonical(
    columns: &Columns<'_>,
    author: &[u8],
    others: &ActorList<'_>,
    ops: &OpCursor<'_>,
) -> bool
    requires spelled { SpellsOps (author.now ∷ others.now) columns.now ops.now }
    requires ascend { Ascend (listing columns.now) }
    requires known { AreKnown op_specifications (listing columns.now) }
    ensures { IsTrue result ↔ ((others.now ≡ others_of author.now ops.now) × (columns.now ≡ written_columns author.now ops.now)) }
{
    OpColumns::of(columns.again()).are_canonical(author, others, ops)
}

impl<'a> OpColumns<'a> {
    /// The same of columns that were found, and of a cursor over the operations.
    pub fn are_canonical(&self, author: &[u8], others: &ActorList<'_>, ops: &OpCursor<'_>) -> bool
        requires spelled { SpellsOps (author.now ∷ others.now) self.now ops.now }
        requires ascend { Ascend (listing self.now) }
        requires known { AreKnown op_specifications (listing self.now) }
        ensures { IsTrue result ↔ ((others.now ≡ others_of author.now ops.now) × (self.now ≡ written_columns author.now ops.now)) }
    {
        if !are_plain(self, author, others) {
            return false;
        }
        are_named(others, ops)
    }

    /// The same of operations that are owned. Where there are few other actors, each costs a walk to the first operation
    /// that names it; else those that operations name are gathered and sorted, and AllocError says that memory was wanting.
    pub fn are_canonical_of(
        &self,
        alloc: Global,
        author: &[u8],
        others: &ActorList<'_>,
        ops: &[Op],
    ) -> Result<bool, AllocError>
        requires spelled { SpellsOps (author.now ∷ others.now) self.now ops.now }
        requires ascend { Ascend (listing self.now) }
        requires known { AreKnown op_specifications (listing self.now) }
        ensures judged { IfOk result (λ canonical. IsTrue canonical ↔ ((others.now ≡ others_of author.now ops.now) × (self.now ≡ written_columns author.now ops.now))) }
        ensures few { length others.now ≤ 64 → OnErr result ⊥ }
    {
        if !are_plain(self, author, others) {
            return Ok(false);
        }
        if others.count() <= FEW {
            return Ok(are_named_by(others, ops));
        }
        let named = others_in(alloc, ops, author)?;
        Ok(are_listed(others, &named))
    }
}
