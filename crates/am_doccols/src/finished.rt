//! The columns of rows that were written.
ghost use Rattle.std.specs.Prelude.{◌≡◌, ℕ, List, IfOk, IfSome, OnOk};
ghost use Rattle.am_types.specs.declared.OpId.{OpId};
ghost use Rattle.am_types.specs.declared.Row.{Row};
ghost use Rattle.am_fields.specs.Columns.{numbers_bytes, spellings};
ghost use Rattle.am_fields.specs.Held.{IdsFit, IdsHeld, IdsSpelled};
ghost use Rattle.am_fields.specs.Rooms.{IsShort, AreShort};
ghost use Rattle.am_doccols.specs.Columns.{row_columns};
ghost use Rattle.am_doccols.specs.Texts.{row_texts};
ghost use Rattle.am_doccols.specs.Writing.{RowsHeld};

use am_fields::{FieldText, FieldWriter, IdWriter, NumberWriter, finish_items, specifications};
use am_types::Bytes;
use std::alloc::{AllocError, Global};

// The bytes of the columns of ids and of successors.
#[derive(Drop)]
pub struct IdText {
    pub places: Bytes,
    pub counters: Bytes,
    pub lengths: Bytes,
    pub succ_places: Bytes,
    pub succ_counters: Bytes,
}

// The bytes of all columns.
#[derive(Drop)]
pub struct RowText {
    pub fields: FieldText,
    pub ids: IdText,
}

// Finishes the columns of ids and of successors into their places.
fn fill(
    alloc: Global,
    ids: &mut IdWriter,
    lengths: &mut NumberWriter,
    succs: &mut IdWriter,
    text: &mut IdText,
) -> Result<(), AllocError>
    requires ids { IsShort ids.old.places }
    requires lengths { IsShort lengths.old }
    requires succs { IsShort succs.old.places }
    ensures ids { OnOk result ((actors : List (List ℕ)) (list : List OpId) → IdsHeld actors list ids.old → IdsFit list → IdsSpelled actors list text.new.places text.new.counters) }
    ensures lengths { OnOk result (IfSome lengths.old (λ items. text.new.lengths ≡ numbers_bytes items)) }
    ensures succs { OnOk result ((actors : List (List ℕ)) (list : List OpId) → IdsHeld actors list succs.old → IdsFit list → IdsSpelled actors list text.new.succ_places text.new.succ_counters) }
{
    ids.finish(alloc, &mut text.places, &mut text.counters)?;
    finish_items(alloc, lengths, &mut text.lengths)?;
    succs.finish(alloc, &mut text.succ_places, &mut text.succ_counters)?;
    Ok(())
}

// The columns, one after another.
fn listed(alloc: Global, text: RowText) -> Result<Vec<(u64, Bytes)>, AllocError>
    ensures { IfOk result (λ columns. columns.items ≡ row_texts text) }
{
    let fields = text.fields;
    let ids = text.ids;
    let columns = vec![in alloc;
        (specifications::OBJECT_ACTOR, fields.object_actor),
        (specifications::OBJECT_COUNTER, fields.object_counter),
        (specifications::KEY_ACTOR, fields.key_actor),
        (specifications::KEY_COUNTER, fields.key_counter),
        (specifications::KEY_NAME, fields.key_name),
        (specifications::ID_ACTOR, ids.places),
        (specifications::ID_COUNTER, ids.counters),
        (specifications::INSERT, fields.insert),
        (specifications::ACTION, fields.action),
        (specifications::VALUE_METADATA, fields.numbers),
        (specifications::VALUE_RAW, fields.raw),
        (specifications::SUCC_COUNT, ids.lengths),
        (specifications::SUCC_ACTOR, ids.succ_places),
        (specifications::SUCC_COUNTER, ids.succ_counters),
        (specifications::EXPAND, fields.expand),
        (specifications::MARK, fields.mark),
    ]?;
    Ok(columns)
}

// The columns of rows, one after another.
pub fn columns_in(
    alloc: Global,
    fields: FieldWriter,
    ids: IdWriter,
    lengths: NumberWriter,
    succs: IdWriter,
) -> Result<Vec<(u64, Bytes)>, AllocError>
    requires fields { AreShort fields }
    requires ids { IsShort ids.places }
    requires lengths { IsShort lengths }
    requires succs { IsShort succs.places }
    ensures { IfOk result (λ columns. (actors : List (List ℕ)) (rows : List Row) → RowsHeld actors rows fields ids lengths succs → columns.items ≡ spellings actors (row_columns rows)) }
{
    let mut ids = ids;
    let mut lengths = lengths;
    let mut succs = succs;
    let fields = fields.finish(alloc)?;
    let mut text = IdText {
        places: Bytes::new(alloc),
        counters: Bytes::new(alloc),
        lengths: Bytes::new(alloc),
        succ_places: Bytes::new(alloc),
        succ_counters: Bytes::new(alloc),
    };
    fill(alloc, &mut ids, &mut lengths, &mut succs, &mut text)?;
    let columns = listed(alloc, RowText { fields, ids: text })?;
    Ok(columns)
}
