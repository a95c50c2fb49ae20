//! Whether columns are as their writer leaves them. It takes no memory.
ghost use Rattle.std.specs.Prelude.{◌≡◌, ◌↔◌, [], IsTrue};
ghost use Rattle.am_colmeta.specs.Metadata.{column_at};
ghost use Rattle.am_fields.specs.Specifications.{insert as insert_column, action as action_column};
ghost use Rattle.am_opcols.specs.EachColumn.{CanonicalNumbers, CanonicalTexts, CanonicalDeltas, CanonicalFlags, CanonicalMaybe, AreNumbersCanonical, AreRemainingCanonical};

use crate::found::OpColumns;
use am_fields::specifications;
use am_runs::{TextItem, UnsignedItem, is_canonical};
use am_types::MOST_OPERATIONS;

fn has_numbers(columns: &OpColumns<'_>, specification: u64) -> bool
    ensures { IsTrue result ↔ CanonicalNumbers (column_at columns.now specification) }
{
    is_canonical::<UnsignedItem>(columns.find(specification), MOST_OPERATIONS)
}

fn has_texts(columns: &OpColumns<'_>, specification: u64) -> bool
    ensures { IsTrue result ↔ CanonicalTexts (column_at columns.now specification) }
{
    is_canonical::<TextItem>(columns.find(specification), MOST_OPERATIONS)
}

fn has_deltas(columns: &OpColumns<'_>, specification: u64) -> bool
    ensures { IsTrue result ↔ CanonicalDeltas (column_at columns.now specification) }
{
    am_delta::is_canonical(columns.find(specification), MOST_OPERATIONS)
}

fn has_flags(columns: &OpColumns<'_>, specification: u64) -> bool
    ensures { IsTrue result ↔ CanonicalFlags (column_at columns.now specification) }
{
    am_flags::is_canonical(columns.find(specification), MOST_OPERATIONS)
}

fn has_rare_flags(columns: &OpColumns<'_>, specification: u64) -> bool
    ensures { IsTrue result ↔ CanonicalMaybe (column_at columns.now specification) }
{
    am_flags::is_canonical_maybe(columns.find(specification), MOST_OPERATIONS)
}

fn has_bytes(columns: &OpColumns<'_>, specification: u64) -> bool
    ensures { IsTrue result ↔ (column_at columns.now specification ≡ [] → ⊥) }
{
    !columns.find(specification).is_empty()
}

// The insert flags are written wherever there is an action.
fn inserts_stand(columns: &OpColumns<'_>) -> bool
    ensures { IsTrue result ↔ (column_at columns.now insert_column ≡ [] → column_at columns.now action_column ≡ []) }
{
    has_bytes(columns, specifications::INSERT) || !has_bytes(columns, specifications::ACTION)
}

// Whether the columns of numbers are canonical.
pub fn are_numbers_canonical(columns: &OpColumns<'_>) -> bool
    ensures { IsTrue result ↔ AreNumbersCanonical columns.now }
{
    has_numbers(columns, specifications::OBJECT_ACTOR)
        && has_numbers(columns, specifications::OBJECT_COUNTER)
        && has_numbers(columns, specifications::KEY_ACTOR)
        && has_numbers(columns, specifications::ACTION)
        && has_numbers(columns, specifications::VALUE_METADATA)
        && has_numbers(columns, specifications::PRED_COUNT)
        && has_numbers(columns, specifications::PRED_ACTOR)
}

// Whether the columns of deltas, texts and flags are canonical.
pub fn are_remaining_canonical(columns: &OpColumns<'_>) -> bool
    ensures { IsTrue result ↔ AreRemainingCanonical columns.now }
{
    has_deltas(columns, specifications::KEY_COUNTER)
        && has_deltas(columns, specifications::PRED_COUNTER)
        && has_texts(columns, specifications::KEY_NAME)
        && has_texts(columns, specifications::MARK)
        && has_flags(columns, specifications::INSERT)
        && inserts_stand(columns)
        && has_rare_flags(columns, specifications::EXPAND)
}
