//! The counts that bytes spell, one after another.
ghost use Rattle.std.specs.Prelude.{◌≡◌, ◌<◌, ◌≤◌, ◌^◌, ◌++◌, ℕ, List, IfSome, IfNone};
ghost use Rattle.std.specs.List.{flat_map, sum};
ghost use Rattle.am_leb.specs.Leb.{uleb};
ghost use Rattle.am_flags.specs.Flags.{AreCounts};

use am_leb::read_u;

/// The number that stands first, and what is behind it.
pub fn number_at<'a>(bytes: &'a [u8]) -> Option<(u64, &'a [u8])>
    ensures some { IfSome result (λ x. (x.0 < 2 ^ 64) × (bytes.now ≡ uleb x.0 ++ x.1.now)) }
    ensures none { IfNone result ((n : ℕ) (rest : List ℕ) → n < 2 ^ 64 → bytes.now ≡ uleb n ++ rest → ⊥) }
{
    match read_u(bytes) {
        Err(_) => None,
        Ok((n, len)) => Some((n, &bytes[len..])),
    }
}

/// How many flags the counts are of.
pub fn total_of(bytes: &[u8], most: u64) -> Option<u64>
    ensures some { IfSome result (λ total. (total ≤ most) × ((counts : List ℕ) × AreCounts counts × (bytes.now ≡ flat_map uleb counts) × (total ≡ sum counts))) }
    ensures none { IfNone result ((counts : List ℕ) → AreCounts counts → bytes.now ≡ flat_map uleb counts → most < sum counts) }
{
    let mut rest = bytes;
    let mut total = 0;
    while !rest.is_empty() {
        match number_at(rest) {
            None => return None,
            Some((count, behind)) => {
                if count == 0 {
                    return None;
                }
                if count > most - total {
                    return None;
                }
                total += count;
                rest = behind;
            }
        }
    }
    Some(total)
}
