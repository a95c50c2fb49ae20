//! Values that are letters: texts of one ASCII byte.
ghost use Rattle.std.specs.Prelude.{◌≡◌, ◌≤◌, take, replicate, Some};

use am_runs::UnsignedCursor;
use am_types::kinds;

// The number of a text of one byte.
const NUMBER: u64 = 16 + kinds::TEXT as u64;

/// How many of the next numbers, at most so many, are known to be those of texts of one byte.
pub fn letters_ahead(numbers: &UnsignedCursor<'_>, most: u64) -> u64
    ensures few { result ≤ most }
    ensures letters { take result numbers.now ≡ replicate result (Some 22) }
{
    match numbers.like() {
        Some((Some(NUMBER), count)) => count.min(most),
        _ => 0,
    }
}
