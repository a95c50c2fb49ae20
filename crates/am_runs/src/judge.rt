//! Whether bytes are the one canonical spelling of a list. It takes no memory.
ghost use Rattle.std.specs.Prelude.{◌≡◌, ◌<◌, ◌≤◌, ◌↔◌, ℕ, List, Option, Some, true, false, length, IfSome, IfNone, IsTrue};
ghost use Rattle.std.specs.Option.{option_copied, option_map};
ghost use Rattle.std.specs.Str.{bytes_eq};
ghost use Rattle.am_runs.specs.Canonical.{Canon};
ghost use Rattle.am_runs.specs.Judging.{Sight, unlike, unlike_items, literal_sight, tight_sight, MayComeAfter, IsNext, item_seen};
ghost use Rattle.am_runs.specs.Positions.{sight_in};

use crate::item::Item;
use crate::pending::is_same;
use crate::place::{Kind, run_start};
use am_types::same_bytes;

// A run that begins the bytes.
#[derive(Clone, Copy)]
struct Seen<'a> {
    count: u64,
    first: Option<&'a [u8]>,
    last: Option<&'a [u8]>,
    literal: bool,
    rest: &'a [u8],
}

#[inline(always)]
fn are_equal(a: &[u8], b: &[u8]) -> bool
    ensures { result ≡ bytes_eq a.now b.now }
{
    same_bytes(a, b)
}

// The item that begins the bytes, unless it equals the one before it.
#[inline(always)]
fn unlike_one<'a, K: Item>(before: &[u8], bytes: &'a [u8]) -> Option<(&'a [u8], &'a [u8])>
    ensures { option_map (λ x. (x.0.now, x.1.now)) result ≡ unlike (λ item rest. Some (item, rest)) before.now bytes.now (K.end_of bytes.now) }
{
    match K::end(bytes) {
        None => None,
        Some(len) => {
            let item = &bytes[..len];
            if are_equal(before, item) {
                None
            } else {
                Some((item, &bytes[len..]))
            }
        }
    }
}

// The last of the items behind the first, and what is behind them.
#[inline(always)]
fn last_unlike<'a, K: Item>(
    first: &'a [u8],
    count: u64,
    bytes: &'a [u8],
) -> Option<(&'a [u8], &'a [u8])>
    ensures { option_map (λ x. (x.0.now, x.1.now)) result ≡ unlike_items K.end_of count first.now bytes.now }
{
    let mut item = first;
    let mut rest = bytes;
    let mut left = count;
    while left > 0 {
        match unlike_one::<K>(item, rest) {
            None => return None,
            Some((next, behind)) => {
                item = next;
                rest = behind;
            }
        }
        left -= 1;
    }
    Some((item, rest))
}

#[inline(always)]
fn literal_seen<'a, K: Item>(count: u64, bytes: &'a [u8]) -> Option<Seen<'a>>
    requires { 0 < count }
    ensures { option_map sight_in result
        ≡ literal_sight K.end_of count bytes.now (K.end_of bytes.now) }
{
    match K::end(bytes) {
        None => None,
        Some(len) => {
            let first = &bytes[..len];
            match last_unlike::<K>(first, count - 1, &bytes[len..]) {
                None => None,
                Some((last, rest)) => Some(Seen {
                    count,
                    first: Some(first),
                    last: Some(last),
                    literal: true,
                    rest,
                }),
            }
        }
    }
}

#[inline(always)]
fn repeat_seen<'a>(count: u64, item: Option<&'a [u8]>, rest: &'a [u8]) -> Seen<'a>
    ensures { ◌≡◌ {A = Sight} (sight_in result)
        (record { count = count; first = option_copied item.entry; last = option_copied item.entry; literal = false; rest = rest.now }) }
{
    Seen {
        count,
        first: item,
        last: item,
        literal: false,
        rest,
    }
}

// The run that begins the bytes, if it is tight.
#[inline(always)]
fn tight_run<'a, K: Item>(bytes: &'a [u8]) -> Option<Seen<'a>>
    ensures { option_map sight_in result
        ≡ tight_sight K.end_of bytes.now }
{
    match run_start::<K>(bytes) {
        None => None,
        Some(at) => match at.kind {
            Kind::Nulls => Some(repeat_seen(at.count, None, at.rest)),
            Kind::Repeat => {
                if at.count < 2 {
                    None
                } else {
                    Some(repeat_seen(at.count, Some(at.item), at.rest))
                }
            }
            Kind::Literal => {
                if at.count < 1 {
                    None
                } else {
                    literal_seen::<K>(at.count, at.rest)
                }
            }
        },
    }
}

#[inline(always)]
fn same_entry(a: Option<&[u8]>, b: Option<&[u8]>) -> bool
    ensures { IsTrue result ↔ (option_copied a.entry ≡ option_copied b.entry) }
{
    match a {
        None => b.is_none(),
        Some(x) => match b {
            None => false,
            Some(y) => is_same(x, y),
        },
    }
}

#[inline(always)]
fn may_follow(last: Option<&[u8]>, literal: bool, run: &Seen<'_>) -> bool
    ensures { IsTrue result ↔ ((option_copied last.entry ≡ option_copied run.now.first → ⊥) × ((literal ≡ true) × (run.now.literal ≡ true) → ⊥)) }
{
    if same_entry(last, run.first) {
        return false;
    }
    if literal {
        return !run.literal;
    }
    true
}

#[inline(always)]
fn may_come_after(before: Option<Seen<'_>>, run: &Seen<'_>) -> bool
    ensures { IsTrue result ↔ MayComeAfter (option_map sight_in before.entry)
        (sight_in run.now) }
{
    match before {
        None => true,
        Some(before) => may_follow(before.last, before.literal, run),
    }
}

// The run that begins the bytes, if it is tight, may follow, and has at most so many entries.
#[inline(always)]
fn next_run<'a, K: Item>(before: Option<Seen<'a>>, bytes: &'a [u8], most: u64) -> Option<Seen<'a>>
    ensures found { IfSome result (λ s. IsNext K.end_of (option_map sight_in before.entry) bytes.now most
        (sight_in s)) }
    ensures none { IfNone result ((s : Sight) → IsNext K.end_of (option_map sight_in before.entry) bytes.now most s → ⊥) }
{
    match tight_run::<K>(bytes) {
        None => None,
        Some(run) => {
            if run.count > most {
                return None;
            }
            if may_come_after(before, &run) {
                Some(run)
            } else {
                None
            }
        }
    }
}

#[inline(always)]
fn or_item(seen: bool, first: Option<&[u8]>) -> bool
    ensures { result ≡ item_seen seen (option_copied first.entry) }
{
    if seen { true } else { first.is_some() }
}

/// Whether the bytes are the canonical spelling of a list of at most `most` entries. It takes no memory.
pub fn is_canonical<K: Item>(bytes: &[u8], most: u64) -> bool
    ensures { IsTrue result ↔ ((list : List (Option (List ℕ))) × Canon K.end_of bytes.now list × (length list ≤ most)) }
{
    if bytes.is_empty() {
        return true;
    }
    let mut rest = bytes;
    let mut left = most;
    let mut before = None;
    let mut seen = false;
    while !rest.is_empty() {
        match next_run::<K>(before, rest, left) {
            None => return false,
            Some(run) => {
                left -= run.count;
                seen = or_item(seen, run.first);
                rest = run.rest;
                before = Some(run);
            }
        }
    }
    seen
}
