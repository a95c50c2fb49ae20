//! The numbers of values.
ghost use Rattle.std.specs.Prelude.{◌≡◌, ◌<◌, ◌^◌, ◌↔◌, length, Ok, IfSome, IsSome};
ghost use Rattle.am_types.specs.Numbers.{if_whole, unsigned_of, signed_of};
ghost use Rattle.am_types.specs.Values.{Good, number_of, amount};
ghost use Rattle.am_types.specs.Views.{value_of};
ghost use Rattle.am_values.specs.Columns.{HasNumber};

use am_leb::{LebFault, read_i, read_u};
use am_types::{ValueRef, kinds, slice_known};

// The number that was read first, where its spelling is all the bytes.
#[inline(always)]
fn if_whole<N: Copy>(raw: &[u8], read: Result<(N, usize), LebFault>) -> Option<N>
    ensures number { result ≡ if_whole raw.now read }
    ensures whole { IfSome result (λ n. read ≡ Ok (n, length raw.now)) }
{
    match read {
        Err(_) => None,
        Ok((number, size)) => {
            if size == raw.len() {
                Some(number)
            } else {
                None
            }
        }
    }
}

// The unsigned number that the raw bytes spell, whole.
#[tactic(auto, unfolding(am_types::specs::Numbers::unsigned_of))]
pub fn unsigned_in(raw: &[u8]) -> Option<u64>
    ensures number { result ≡ unsigned_of raw.now }
    ensures short { IfSome result (λ _. length raw.now < 2 ^ 60) }
{
    if_whole(raw, read_u(raw))
}

// The signed number that the raw bytes spell, whole.
#[tactic(auto, unfolding(am_types::specs::Numbers::signed_of))]
pub fn signed_in(raw: &[u8]) -> Option<i64>
    ensures number { result ≡ signed_of raw.now }
    ensures short { IfSome result (λ _. length raw.now < 2 ^ 60) }
{
    if_whole(raw, read_i(raw))
}

/// The number of a good value of kind 3, 4, 8 or 9: an unsigned or a signed number, a counter, a timestamp. None for
/// all other values.
pub fn number_of(value: ValueRef<'_>) -> Option<i128>
    ensures number { result ≡ number_of (value_of value.entry) }
    ensures some { IsSome result ↔ (HasNumber value.entry.kind × Good (value_of value.entry)) }
{
    slice_known(value.raw);
    match value.kind {
        kinds::UNSIGNED => match unsigned_in(value.raw) {
            None => None,
            Some(number) => Some(i128::from(number)),
        },
        kinds::SIGNED | kinds::COUNTER | kinds::TIMESTAMP => match signed_in(value.raw) {
            None => None,
            Some(number) => Some(i128::from(number)),
        },
        _ => None,
    }
}

/// What an increment by the value adds to a counter. A number or a counter counts for its number; any other value, a
/// timestamp too, counts for 0.
pub fn amount_of(value: ValueRef<'_>) -> i128
    ensures amount { result ≡ amount (value_of value.entry) }
{
    match value.kind {
        kinds::UNSIGNED | kinds::SIGNED | kinds::COUNTER => number_of(value).unwrap_or(0),
        _ => 0,
    }
}
