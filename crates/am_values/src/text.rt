//! The text of a value.
ghost use Rattle.std.specs.Prelude.{◌≡◌, IfSome, IfNone};
ghost use Rattle.am_types.specs.Values.{Good};
ghost use Rattle.am_types.specs.Views.{value_of};

use am_types::{MOST_BYTES, ValueRef, kinds, slice_known};
use std::str::from_utf8;

/// The text of a good value of kind 6, and None for all other values.
pub fn text_of<'a>(value: ValueRef<'a>) -> Option<&'a str>
    ensures raw { IfSome result (λ text. text.now ≡ value.entry.raw.now) }
    ensures some { IfSome result (λ _. (value.entry.kind ≡ 6) × Good (value_of value.entry)) }
    ensures none { IfNone result (value.entry.kind ≡ 6 → Good (value_of value.entry) → ⊥) }
{
    slice_known(value.raw);
    if value.kind != kinds::TEXT {
        return None;
    }
    if value.raw.len() > MOST_BYTES {
        return None;
    }
    match from_utf8(value.raw) {
        Ok(text) => Some(text),
        Err(_) => None,
    }
}
