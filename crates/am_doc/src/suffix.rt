//! What stands behind the columns: the places of the heads.
ghost use Rattle.std.specs.Prelude.{◌≡◌, ◌<◌, ◌^◌, ◌↔◌, ℕ, List, [], Option, Some, option_map, IfSome, IsTrue};
ghost use Rattle.std.specs.List.{AllByRecursion};
ghost use Rattle.am_colmeta.specs.Reading.{first_number, parts, behind};
ghost use Rattle.am_doc.specs.Spelling.{IsSuffix};
ghost use Rattle.am_doc.specs.Reading.{places_in};

use am_leb::read_u;
use am_types::slice_known;

// The number that stands first, and the bytes behind it.
fn number_at(bytes: &[u8]) -> Option<(u64, &[u8])>
    ensures { option_map {U = ℕ × List ℕ} (λ found. (found.0, found.1.now)) result ≡ first_number bytes.now }
{
    match read_u(bytes) {
        Err(_) => None,
        Ok((number, size)) => {
            let (_, rest) = bytes.split_at(size);
            Some((number, rest))
        }
    }
}

// Whether the bytes are so many numbers, each below an end.
fn are_numbers(bytes: &[u8], count: u64, end: u64) -> bool
    ensures { IsTrue result ↔ ((behind first_number count bytes.now ≡ Some []) × AllByRecursion (λ i. i < end) (parts first_number count bytes.now)) }
{
    let mut rest = bytes;
    let mut left = count;
    while left > 0 {
        let Some((number, more)) = number_at(rest) else {
            return false;
        };
        if number >= end {
            return false;
        }
        rest = more;
        left -= 1;
    }
    rest.is_empty()
}

// Whether the bytes are the place of a change row for each head, or there are none.
pub fn is_suffix(bytes: &[u8], heads: u64, metas: u64) -> bool
    ensures right { IsTrue result → IsSuffix heads metas bytes.now (places_in heads bytes.now) }
    ensures only { (places : Option (List ℕ)) → IsSuffix heads metas bytes.now places → IsTrue result × (places_in heads bytes.now ≡ places) }
{
    slice_known(bytes);
    if bytes.is_empty() {
        return true;
    }
    if heads == 0 {
        return false;
    }
    are_numbers(bytes, heads, metas)
}
