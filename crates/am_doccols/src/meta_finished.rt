//! The columns of change rows that were written.
ghost use Rattle.std.specs.Prelude.{◌≡◌, ℕ, List, IfOk, OnOk};
ghost use Rattle.am_types.specs.declared.Meta.{Meta};
ghost use Rattle.am_fields.specs.Columns.{spellings};
ghost use Rattle.am_doccols.specs.Columns.{meta_columns};
ghost use Rattle.am_fields.specs.Rooms.{IsShort};
ghost use Rattle.am_doccols.specs.MetaWriting.{MetasHeld};
ghost use Rattle.am_doccols.specs.Texts.{MetasFinished, meta_texts};

use crate::meta_columns::MetaColumns;
use crate::meta_specifications;
use am_fields::{finish_deltas, finish_items, finish_values};
use am_types::Bytes;
use std::alloc::{AllocError, Global};

// The bytes of all columns.
#[derive(Drop)]
pub struct MetaText {
    pub actor: Bytes,
    pub seq: Bytes,
    pub max: Bytes,
    pub time: Bytes,
    pub message: Bytes,
    pub lengths: Bytes,
    pub deps: Bytes,
    pub numbers: Bytes,
    pub raw: Bytes,
}

// No bytes, each column still to come.
fn empty(alloc: Global) -> MetaText {
    MetaText {
        actor: Bytes::new(alloc),
        seq: Bytes::new(alloc),
        max: Bytes::new(alloc),
        time: Bytes::new(alloc),
        message: Bytes::new(alloc),
        lengths: Bytes::new(alloc),
        deps: Bytes::new(alloc),
        numbers: Bytes::new(alloc),
        raw: Bytes::new(alloc),
    }
}

// Finishes each column into its place.
fn fill(alloc: Global, w: &mut MetaColumns, text: &mut MetaText) -> Result<(), AllocError>
    requires actor { IsShort w.old.actor }
    requires message { IsShort w.old.message }
    requires lengths { IsShort w.old.lengths }
    ensures { OnOk result (MetasFinished w.old text.new) }
{
    finish_items(alloc, &mut w.actor, &mut text.actor)?;
    finish_deltas(alloc, &mut w.seq, &mut text.seq)?;
    finish_deltas(alloc, &mut w.max, &mut text.max)?;
    finish_deltas(alloc, &mut w.time, &mut text.time)?;
    finish_items(alloc, &mut w.message, &mut text.message)?;
    finish_items(alloc, &mut w.lengths, &mut text.lengths)?;
    finish_deltas(alloc, &mut w.deps, &mut text.deps)?;
    finish_values(alloc, &mut w.extra, &mut text.numbers, &mut text.raw)?;
    Ok(())
}

// The columns, one after another.
fn listed(alloc: Global, text: MetaText) -> Result<Vec<(u64, Bytes)>, AllocError>
    ensures { IfOk result (λ columns. columns.items ≡ meta_texts text) }
{
    let columns = vec![in alloc;
        (meta_specifications::AUTHOR, text.actor),
        (meta_specifications::SEQ, text.seq),
        (meta_specifications::MAX, text.max),
        (meta_specifications::TIME, text.time),
        (meta_specifications::MESSAGE, text.message),
        (meta_specifications::DEP_COUNT, text.lengths),
        (meta_specifications::DEP_INDEX, text.deps),
        (meta_specifications::EXTRA_METADATA, text.numbers),
        (meta_specifications::EXTRA_RAW, text.raw),
    ]?;
    Ok(columns)
}

// The columns of change rows, one after another.
pub fn meta_columns_in(alloc: Global, w: MetaColumns) -> Result<Vec<(u64, Bytes)>, AllocError>
    requires actor { IsShort w.actor }
    requires message { IsShort w.message }
    requires lengths { IsShort w.lengths }
    ensures { IfOk result (λ columns. (actors : List (List ℕ)) (metas : List Meta) → MetasHeld actors metas w → columns.items ≡ spellings actors (meta_columns metas)) }
{
    let mut writers = w;
    let mut text = empty(alloc);
    fill(alloc, &mut writers, &mut text)?;
    let columns = listed(alloc, text)?;
    Ok(columns)
}
