//! Taking as many equal entries at once as one run gives.
ghost use Rattle.std.specs.Prelude.{◌≡◌, ◌<◌, ◌≤◌, None, IfSome, IfNone};
ghost use Rattle.std.specs.Option.{option_copied};
ghost use Rattle.am_runs.specs.Walking.{step, Takes};
ghost use Rattle.am_runs.specs.Positions.{place_of};

use crate::item::Item;
use crate::place::{Kind, Position, run_start, stepped};

// The same within a run.
#[inline(always)]
fn taken_within<'a, K: Item>(
    at: Position<'a>,
    most: u64,
) -> Option<(Option<&'a [u8]>, u64, Position<'a>)>
    requires within { 0 < at.count }
    requires some { 0 < most }
    ensures found { IfSome result (λ r. (0 < r.1) × (r.1 ≤ most)
        × Takes K.end_of (place_of at.entry) (option_copied r.0) r.1
        (place_of r.2)) }
    ensures none { IfNone result (step K.end_of (place_of at.entry) ≡ None) }
{
    match at.kind {
        Kind::Literal => match stepped::<K>(at) {
            None => None,
            Some((entry, behind)) => Some((entry, 1, behind)),
        },
        Kind::Repeat => {
            let k = at.count.min(most);
            Some((
                Some(at.item),
                k,
                Position {
                    count: at.count - k,
                    ..at
                },
            ))
        }
        Kind::Nulls => {
            let k = at.count.min(most);
            Some((
                None,
                k,
                Position {
                    count: at.count - k,
                    ..at
                },
            ))
        }
    }
}

/// The next entry, how many like it one run gives from here, at most so many, and the place behind them.
#[inline(always)]
pub fn taken<'a, K: Item>(
    at: Position<'a>,
    most: u64,
) -> Option<(Option<&'a [u8]>, u64, Position<'a>)>
    requires { 0 < most }
    ensures found { IfSome result (λ r. (0 < r.1) × (r.1 ≤ most)
        × Takes K.end_of (place_of at.entry) (option_copied r.0) r.1
        (place_of r.2)) }
    ensures none { IfNone result (step K.end_of (place_of at.entry) ≡ None) }
{
    if at.count > 0 {
        return taken_within::<K>(at, most);
    }
    match run_start::<K>(at.rest) {
        None => None,
        Some(within) => {
            if within.count > 0 {
                taken_within::<K>(within, most)
            } else {
                None
            }
        }
    }
}
