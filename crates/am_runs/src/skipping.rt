//! Going on by many entries at once.
ghost use Rattle.std.specs.Prelude.{◌≡◌, ◌≤◌, drop};
ghost use Rattle.am_runs.specs.Walking.{HasEntries, entries};
ghost use Rattle.am_runs.specs.Positions.{place_of};

use crate::item::Item;
use crate::place::Position;
use crate::taking::taken;

/// The place behind the next n entries, and how many entries are left from there.
pub fn place_behind<'a, K: Item>(at: Position<'a>, left: u64, n: u64) -> (Position<'a>, u64)
    requires within { n ≤ left }
    requires left { HasEntries K.end_of left (place_of at) }
    ensures holds { HasEntries K.end_of result.1 (place_of result.0) }
    ensures drops { entries K.end_of result.1 (place_of result.0)
        ≡ drop n (entries K.end_of left (place_of at.entry)) }
{
    let mut at = at;
    let mut left = left;
    let mut n = n;
    while n > 0 {
        match taken::<K>(at, n) {
            None => return (at, left),
            Some((_, k, behind)) => {
                at = behind;
                left -= k;
                n -= k;
            }
        }
    }
    (at, left)
}
