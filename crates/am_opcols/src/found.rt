//! The columns of a change's operations, each found once.
ghost use Rattle.std.specs.Prelude.{◌≡◌, ◌≤◌, ◌<◌, ◌↔◌, ℕ, IsTrue};
ghost use Rattle.am_colmeta.specs.Metadata.{listing, column_at, AreFilled};

use am_colmeta::Columns;
use am_fields::specifications;
use std::marker::Model;

/// The columns of a change's operations. Each is looked for once; one that isn't listed has no bytes. A contract sees the
/// columns.
#[derive(Drop)]
pub struct OpColumns<'a> {
    object_actor: &'a [u8],
    object_counter: &'a [u8],
    key_actor: &'a [u8],
    key_counter: &'a [u8],
    key_name: &'a [u8],
    insert: &'a [u8],
    action: &'a [u8],
    numbers: &'a [u8],
    raw: &'a [u8],
    group: &'a [u8],
    pred_actor: &'a [u8],
    pred_counter: &'a [u8],
    expand: &'a [u8],
    mark: &'a [u8],
    columns: Columns<'a>,
}

impl<'a> Model for OpColumns<'a> {
    ghost use Rattle.std.specs.Prelude.{List, ℕ, ◌≡◌};
    ghost use Rattle.am_colmeta.specs.Metadata.{column_at};
    ghost use Rattle.am_fields.specs.Specifications as specifications;

    ghost Value = { List (ℕ × List ℕ) };

    ghost view = { λ c. c.columns };

    ghost invariant = { λ c. (c.object_actor.now ≡ column_at c.columns specifications.object_actor)
        × (c.object_counter.now ≡ column_at c.columns specifications.object_counter)
        × (c.key_actor.now ≡ column_at c.columns specifications.key_actor)
        × (c.key_counter.now ≡ column_at c.columns specifications.key_counter)
        × (c.key_name.now ≡ column_at c.columns specifications.key_name)
        × (c.insert.now ≡ column_at c.columns specifications.insert)
        × (c.action.now ≡ column_at c.columns specifications.action)
        × (c.numbers.now ≡ column_at c.columns specifications.value_metadata)
        × (c.raw.now ≡ column_at c.columns specifications.value_raw)
        × (c.group.now ≡ column_at c.columns specifications.pred_count)
        × (c.pred_actor.now ≡ column_at c.columns specifications.pred_actor)
        × (c.pred_counter.now ≡ column_at c.columns specifications.pred_counter)
        × (c.expand.now ≡ column_at c.columns specifications.expand)
        × (c.mark.now ≡ column_at c.columns specifications.mark) };
}

// The bytes of the column with the specification, and no bytes where it isn't listed. The columns up to it are taken off
// the rest, so that columns that are asked for in ascending order are found in one walk.
#[tactic(auto, using(crate::proofs::Taken::passed, crate::proofs::Taken::found_first, crate::proofs::Taken::not_before))]
fn take<'a>(columns: &Columns<'a>, rest: &mut Columns<'a>, specification: u64) -> &'a [u8]
    requires { (s : ℕ) → specification ≤ s → column_at rest.old s ≡ column_at columns.now s }
    ensures found { result.now ≡ column_at columns.now specification }
    ensures left { (s : ℕ) → specification < s → column_at rest.new s ≡ column_at columns.now s }
{
    let mut ahead = rest.again();
    while let Some((at, bytes)) = ahead.next() {
        if at > specification {
            return &[];
        }
        *rest = ahead.again();
        if at == specification {
            return bytes;
        }
    }
    &[]
}

impl<'a> OpColumns<'a> {
    /// These columns.
    pub fn of(columns: Columns<'a>) -> Self
        ensures { result ≡ columns.entry }
    {
        let mut rest = columns.again();
        OpColumns {
            object_actor: take(&columns, &mut rest, specifications::OBJECT_ACTOR),
            object_counter: take(&columns, &mut rest, specifications::OBJECT_COUNTER),
            key_actor: take(&columns, &mut rest, specifications::KEY_ACTOR),
            key_counter: take(&columns, &mut rest, specifications::KEY_COUNTER),
            key_name: take(&columns, &mut rest, specifications::KEY_NAME),
            insert: take(&columns, &mut rest, specifications::INSERT),
            action: take(&columns, &mut rest, specifications::ACTION),
            numbers: take(&columns, &mut rest, specifications::VALUE_METADATA),
            raw: take(&columns, &mut rest, specifications::VALUE_RAW),
            group: take(&columns, &mut rest, specifications::PRED_COUNT),
            pred_actor: take(&columns, &mut rest, specifications::PRED_ACTOR),
            pred_counter: take(&columns, &mut rest, specifications::PRED_COUNTER),
            expand: take(&columns, &mut rest, specifications::EXPAND),
            mark: take(&columns, &mut rest, specifications::MARK),
            columns,
        }
    }

    // The bytes of the column with the specification, and no bytes where it isn't listed.
    #[inline(always)]
    pub(crate) fn find(&self, specification: u64) -> &'a [u8]
        ensures { result.now ≡ column_at self.now specification }
    {
        match specification {
            specifications::OBJECT_ACTOR => self.object_actor,
            specifications::OBJECT_COUNTER => self.object_counter,
            specifications::KEY_ACTOR => self.key_actor,
            specifications::KEY_COUNTER => self.key_counter,
            specifications::KEY_NAME => self.key_name,
            specifications::INSERT => self.insert,
            specifications::ACTION => self.action,
            specifications::VALUE_METADATA => self.numbers,
            specifications::VALUE_RAW => self.raw,
            specifications::PRED_COUNT => self.group,
            specifications::PRED_ACTOR => self.pred_actor,
            specifications::PRED_COUNTER => self.pred_counter,
            specifications::EXPAND => self.expand,
            specifications::MARK => self.mark,
            _ => self.columns.find(specification),
        }
    }

    // Whether each listed column has bytes.
    pub(crate) fn are_filled(&self) -> bool
        ensures { IsTrue result ↔ AreFilled (listing self.now) }
    {
        self.columns.are_filled()
    }
}
