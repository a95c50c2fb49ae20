//! A whole run that begins the bytes.
ghost use Rattle.std.specs.Prelude.{◌≡◌, ◌<◌, ◌≤◌, ℕ, List, Some, IfSome, IfNone};
ghost use Rattle.std.specs.Option.{option_copied};
ghost use Rattle.am_runs.specs.Runs.{BeginsRun};
ghost use Rattle.am_runs.specs.Walking.{behind_items, and_behind};

use crate::item::Item;
use crate::place::{Kind, run_start};

#[inline(always)]
fn behind_one<'a, K: Item>(bytes: &'a [u8]) -> Option<&'a [u8]>
    ensures { option_copied result ≡ and_behind Some bytes.now (K.end_of bytes.now) }
{
    match K::end(bytes) {
        None => None,
        Some(len) => Some(&bytes[len..]),
    }
}

fn behind<'a, K: Item>(count: u64, bytes: &'a [u8]) -> Option<&'a [u8]>
    ensures { option_copied result ≡ behind_items K.end_of count bytes.now }
{
    let mut rest = bytes;
    let mut left = count;
    while left > 0 {
        match behind_one::<K>(rest) {
            None => return None,
            Some(behind) => rest = behind,
        }
        left -= 1;
    }
    Some(rest)
}

// The bytes behind the items of a literal run, skimmed where that can be done.
#[inline(always)]
fn behind_literal<'a, K: Item>(count: u64, bytes: &'a [u8]) -> Option<&'a [u8]>
    ensures { option_copied result ≡ behind_items K.end_of count bytes.now }
{
    match K::skim(count, bytes) {
        Some(rest) => Some(rest),
        None => behind::<K>(count, bytes),
    }
}

/// How many entries the run has that begins the bytes, and what is behind it.
pub fn run_at<'a, K: Item>(bytes: &'a [u8], most: u64) -> Option<(u64, &'a [u8])>
    ensures found { IfSome result (λ x. (x.0 ≤ most) × BeginsRun K.end_of bytes.now x.0 x.1.now) }
    ensures none { IfNone result ((count : ℕ) (rest : List ℕ) → BeginsRun K.end_of bytes.now count rest → most < count) }
{
    match run_start::<K>(bytes) {
        None => None,
        Some(at) => {
            if at.count > most {
                return None;
            }
            match at.kind {
                Kind::Literal => match behind_literal::<K>(at.count, at.rest) {
                    None => None,
                    Some(rest) => Some((at.count, rest)),
                },
                Kind::Repeat => Some((at.count, at.rest)),
                Kind::Nulls => Some((at.count, at.rest)),
            }
        }
    }
}
