//! Which values are good: their raw bytes are those that their kind allows.
ghost use Rattle.std.specs.Prelude.{◌≡◌, ◌↔◌, IsTrue, IsUtf8};
ghost use Rattle.am_types.specs.Values.{Good};
ghost use Rattle.am_types.specs.Views.{value_of};

use crate::number::{signed_in, unsigned_in};
use am_types::{MOST_BYTES, ValueRef, kinds, slice_known};
use std::str::from_utf8;

fn is_text(raw: &[u8]) -> bool
    ensures { IsTrue result ↔ IsUtf8 raw.now }
{
    from_utf8(raw).is_ok()
}

// Whether the raw bytes are those that the kind allows.
pub fn is_good(kind: u8, raw: &[u8]) -> bool
    ensures { IsTrue result ↔ Good (record { kind = kind; raw = raw.now }) }
{
    slice_known(raw);
    if raw.len() > MOST_BYTES {
        return false;
    }
    match kind {
        kinds::NULL | kinds::FALSE | kinds::TRUE => raw.is_empty(),
        kinds::UNSIGNED => unsigned_in(raw).is_some(),
        kinds::SIGNED | kinds::COUNTER | kinds::TIMESTAMP => signed_in(raw).is_some(),
        kinds::FLOAT => raw.len() == 8,
        kinds::TEXT => is_text(raw),
        _ => kind <= kinds::GREATEST,
    }
}

/// Whether a value is good. Null, false and true (kinds 0 to 2) have no bytes; an unsigned number (3) has one shortest
/// spelling in unsigned LEB128; a signed number, a counter and a timestamp (4, 8, 9) have one in signed LEB128; a float
/// (5) has 8 bytes; a text (6) is UTF-8; bytes (7) and unknown kinds (10 to 15) are any. No value has 2^60 bytes or more.
pub fn good_value(value: ValueRef<'_>) -> bool
    ensures { IsTrue result ↔ Good (value_of value.entry) }
{
    is_good(value.kind, value.raw)
}
