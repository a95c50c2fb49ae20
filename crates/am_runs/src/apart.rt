//! Items that begin bytes, each unlike the one before it.
ghost use Rattle.std.specs.Prelude.{◌≡◌, ◌<◌, ◌≤◌, ◌++◌, ℕ, List, IfSome};
ghost use Rattle.am_runs.specs.Items.{IsItem};
ghost use Rattle.am_runs.specs.Apart.{AreApart};

use crate::item::Item;
use am_types::same_bytes;

/// So many items begin the bytes: how many bytes they take but for the last, the last, and what is behind it.
#[derive(Clone, Copy)]
pub struct Apart<'a> {
    pub count: u64,
    pub size: usize,
    pub last: &'a [u8],
    pub rest: &'a [u8],
}

// The item that begins the bytes, unless it equals the one before it, and what is behind it.
#[inline(always)]
fn next_apart<'a, K: Item>(before: &[u8], bytes: &'a [u8]) -> Option<(&'a [u8], &'a [u8])>
    ensures { IfSome result (λ r. IsItem K.end_of r.0.now × (before.now ≡ r.0.now → ⊥) × (bytes.now ≡ r.0.now ++ r.1.now)) }
{
    match K::end(bytes) {
        None => None,
        Some(len) => {
            let item = &bytes[..len];
            if same_bytes(before, item) {
                return None;
            }
            Some((item, &bytes[len..]))
        }
    }
}

/// The items that begin the bytes, at most so many, as far as each is unlike the one before it.
pub fn found_apart<'a, K: Item>(before: &[u8], bytes: &'a [u8], most: u64) -> Option<Apart<'a>>
    requires { 0 < most }
    ensures { IfSome result (λ r. (r.count ≤ most)
        × ((start : List (List ℕ)) × AreApart K.end_of before.now start r.count r.size r.last.now bytes.now r.rest.now)) }
{
    let Some((first, behind)) = next_apart::<K>(before, bytes) else {
        return None;
    };
    let mut found = Apart {
        count: 1,
        size: 0,
        last: first,
        rest: behind,
    };
    let mut left = most - 1;
    while left > 0 {
        let Some((next, behind)) = next_apart::<K>(found.last, found.rest) else {
            return Some(found);
        };
        found = Apart {
            count: found.count + 1,
            size: found.size + found.last.len(),
            last: next,
            rest: behind,
        };
        left -= 1;
    }
    Some(found)
}
